//! Files in memory, for tests.
ghost use Rattle.std.specs.Prelude.{◌≡◌, ◌<◌, ◌≤◌, ◌-◌, ◌^◌, ◌++◌, ◌∷◌, ◌↔◌, [], None, Some, IfOk, IfSome, IsErrOf, OnOk, OnErr, is_some, length, min};
ghost use Rattle.std.specs.Prelude.{position};
ghost use Rattle.std.specs.FinMap.{get, insert};
ghost use Rattle.sn_io.specs.Counts.{OnlyRises, RoseAt};
ghost use Rattle.sn_io.specs.Inputs.{Reads, stated_file};
ghost use Rattle.sn_io.specs.Known.{counted};
ghost use Rattle.sn_io.specs.MemInputs.{MemInputsState, has_name, held_by, faults_of, with_bytes, with_fault, with_name, files_put, read_answer, after_read};
ghost use Rattle.sn_io.specs.MemInputs.{reported_known};

use crate::inputs::{InputFault, Inputs};
use crate::known::one_more;
use sn_base::memory::Memory;
use sn_base::seq::Seq;
use std::alloc::Global;
use std::marker::Model;

#[derive(Drop)]
struct MemFile {
    name: String,
    count: u64,
    bytes: Seq<u8>,
}

impl Model for MemFile {
    ghost use Rattle.std.specs.String.{string_bytes};
    ghost use Rattle.sn_io.specs.MemInputs.{FileState};

    ghost Value = { FileState };

    ghost view = { λ a. record { name = string_bytes a.name; count = a.count; bytes = a.bytes } };
}

/// Files in memory. The reads of known names are numbered from 0.
#[derive(Drop)]
pub struct MemInputs {
    files: Vec<MemFile>,
    refusals: Vec<u64>,
    read_count: u64,
}

impl Model for MemInputs {
    ghost use Rattle.sn_io.specs.MemInputs.{MemInputsState};

    ghost Value = { MemInputsState };

    ghost view = { λ a. record { files = a.files.items; refused = a.refusals.items; reads = a.read_count } };
}

/// Copies the bytes from a place on, as many as there are and fit, and says how many.
fn copy_from(bytes: &[u8], at: u64, into: &mut [u8]) -> usize
    ensures count { result ≡ min (length into.old) (length bytes.now - at) }
    ensures reads { Reads bytes.now at result into.old into.new }
{
    if at >= bytes.len() as u64 {
        return 0;
    }
    let (_, rest) = bytes.split_at(at as usize);
    let count = into.len().min(rest.len());
    let (front, _) = rest.split_at(count);
    into[..count].copy_from_slice(front);
    count
}

impl MemFile {
    fn has_name(&self, name: &str) -> bool
        ensures { result ≡ has_name name.now self.now }
    {
        self.name.as_str() == name
    }

    fn raise(&mut self)
        ensures { self.new ≡ record self.old { count = counted self.old.count } }
    {
        self.count = one_more(self.count);
    }

    fn set_bytes(&mut self, bytes: Seq<u8>)
        ensures { self.new ≡ record self.old { bytes = bytes } }
    {
        self.bytes = bytes;
    }

    fn read(&self, at: u64, into: &mut [u8]) -> usize
        ensures count { result ≡ min (length into.old) (length self.now.bytes - at) }
        ensures reads { Reads self.now.bytes at result into.old into.new }
    {
        copy_from(self.bytes.as_slice(), at, into)
    }
}

/// The place of the first file of a name.
fn first_place(files: &[MemFile], name: &str) -> Option<usize>
    ensures { result ≡ position (λ f. has_name name.now f) files.now }
{
    files.iter().position(|file| file.has_name(name))
}

/// The place of a name. `None` exactly where it isn't known.
fn place_of(files: &[MemFile], name: &str) -> Option<usize>
    ensures first { IfSome result (λ place. position (has_name name.now) files.now ≡ Some place) }
    ensures known { is_some result ≡ is_some (get (held_by files.now) name.now) }
{
    first_place(files, name)
}

/// Raises the count of the file at its name's first place.
fn raise_at(files: &mut Vec<MemFile>, name: &str, place: usize)
    requires { position (has_name name.now) files.old.items ≡ Some place }
    ensures { files.new.items ≡ with_fault name.now files.old.items }
{
    files[place].raise();
}

/// Gives new bytes to the file at its name's first place.
fn set_bytes_at(files: &mut Vec<MemFile>, name: &str, place: usize, bytes: Seq<u8>)
    requires { position (has_name name.now) files.old.items ≡ Some place }
    ensures { files.new.items ≡ with_bytes name.now bytes files.old.items }
{
    files[place].set_bytes(bytes);
}

/// Adds a file without a fault at the end. An `Err` changes nothing.
fn add_file(files: &mut Vec<MemFile>, name: &str, bytes: Seq<u8>) -> Result<(), Memory>
    ensures ok { OnOk result (files.new.items ≡ files.old.items ++ record { name = name.now; count = 0; bytes = bytes } ∷ []) }
    ensures err { OnErr result (files.new.items ≡ files.old.items) }
{
    let name = String::from_str(*files.allocator(), name)?;
    files.push(MemFile {
        name,
        count: 0,
        bytes,
    })?;
    Ok(())
}

/// Adds a file to them. An `Err` changes nothing.
#[tactic(auto, using(crate::proofs::PutLemmas::put_known, crate::proofs::PutLemmas::put_new))]
fn put_file(files: &mut Vec<MemFile>, name: &str, bytes: Seq<u8>) -> Result<(), Memory>
    ensures ok { OnOk result (files.new.items ≡ files_put name.now bytes files.old.items) }
    ensures err { OnErr result (files.new.items ≡ files.old.items) }
{
    match place_of(files, name) {
        Some(place) => {
            set_bytes_at(files, name, place, bytes);
            Ok(())
        }
        None => add_file(files, name, bytes),
    }
}

/// Reads the file at its name's first place.
fn read_place(files: &[MemFile], name: &str, place: usize, at: u64, into: &mut [u8]) -> usize
    requires { position (has_name name.now) files.now ≡ Some place }
    ensures count { IfSome (get (held_by files.now) name.now) (λ file. result ≡ min (length into.old) (length file - at)) }
    ensures reads { IfSome (get (held_by files.now) name.now) (λ file. Reads file at result into.old into.new) }
{
    files[place].read(at, into)
}

impl MemInputs {
    /// No file.
    pub fn new(alloc: Global) -> MemInputs
        ensures { result ≡ record { files = []; refused = []; reads = 0 } }
    {
        MemInputs {
            files: Vec::new(alloc),
            refusals: Vec::new(alloc),
            read_count: 0,
        }
    }

    /// Adds a file. A name that is known gets the new bytes and keeps its count. An `Err` changes nothing.
    #[tactic(auto, using(crate::proofs::PutLemmas::put_held, crate::proofs::PutLemmas::put_counts))]
    pub fn put(&mut self, name: &str, bytes: Seq<u8>) -> Result<(), Memory>
        ensures ok { OnOk result (self.new ≡ record self.old { files = files_put name.now bytes self.old.files }) }
        ensures held { OnOk result (held_by self.new.files ≡ insert (held_by self.old.files) name.now bytes) }
        ensures counts { OnOk result (faults_of self.new.files ≡ with_name (faults_of self.old.files) name.now) }
        ensures err { OnErr result (self.new ≡ self.old) }
    {
        put_file(&mut self.files, name, bytes)
    }

    /// Makes the read of this number fail. The numbering ends at 2^64 - 1, the number of all later reads.
    pub fn fail_at(&mut self, call: u64) -> Result<(), Memory>
        requires { call < 2 ^ 64 - 1 }
        ensures ok { OnOk result (self.new ≡ record self.old { refused = self.old.refused ++ call ∷ [] }) }
        ensures err { OnErr result (self.new ≡ self.old) }
    {
        self.refusals.push(call)?;
        Ok(())
    }

    /// What a read does, without what every reader of files says of it.
    fn read(&mut self, name: &str, at: u64, into: &mut [u8]) -> Result<usize, InputFault>
        ensures answer { result ≡ read_answer self.old name.now at (length into.old) }
        ensures bytes { IfOk result (λ n. IfSome (get (held_by self.old.files) name.now) (λ file. Reads file at n into.old into.new)) }
        ensures untouched { OnErr result (into.new ≡ into.old) }
        ensures after { self.new ≡ after_read self.old name.now }
    {
        let Some(place) = place_of(&self.files, name) else {
            return Err(InputFault::Missing);
        };
        let refused = self.refusals.as_slice().contains(&self.read_count);
        self.read_count = one_more(self.read_count);
        if refused {
            raise_at(&mut self.files, name, place);
            return Err(InputFault::Failed);
        }
        Ok(read_place(&self.files, name, place, at, into))
    }
}

impl Inputs for MemInputs {
    ghost reported = { λ s. Some (held_by s.files) };

    ghost faults = { λ s. faults_of s.files };

    ghost same_names = { reported_known };

    /// Reads as many bytes of a file as there are from the place `at` on and fit into `into`. `Missing` comes exactly
    /// where the name isn't known, and `Failed` exactly where the read is one that is to fail. The first two clauses
    /// are its own, and the others are those of every reader of files.
    fn read_at(&mut self, name: &str, at: u64, into: &mut [u8]) -> Result<usize, InputFault>
        ensures answer { result ≡ read_answer self.old name.now at (length into.old) }
        ensures after { self.new ≡ after_read self.old name.now }
        ensures reported { Some (held_by self.new.files) ≡ Some (held_by self.old.files) }
        ensures faults { OnlyRises name.now (faults_of self.old.files) (faults_of self.new.files) }
        ensures missing { IsErrOf result InputFault.Missing ↔ (get (faults_of self.old.files) name.now ≡ None) }
        ensures unchanged { IsErrOf result InputFault.Missing → self.new ≡ self.old }
        ensures failed { IsErrOf result InputFault.Failed → RoseAt name.now (faults_of self.old.files) (faults_of self.new.files) }
        ensures untouched { OnErr result (into.new ≡ into.old) }
        ensures within { IfOk result (λ n. n ≤ length into.old) }
        ensures bytes { IfOk result (λ n. IfSome (stated_file (Some (held_by self.old.files)) name.now) (λ file. Reads file at n into.old into.new)) }
    {
        self.read(name, at, into)
    }
}
