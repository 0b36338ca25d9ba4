//! Files that are read by name, with a count of faults for each name.
ghost use Rattle.std.specs.Prelude.{◌≡◌, ℕ, ◌<◌, ◌≤◌, ◌↔◌, ◌⊎◌, List, [], Option, None, Some, is_some, length, IfOk, OnErr, IfSome, IsSomeAnd, IsErrOf, IsOkUnless};
ghost use Rattle.std.specs.FinMap.{get};
ghost use Rattle.sn_io.specs.Counts.{ByName, OnlyRises, RoseAt};
ghost use Rattle.sn_io.specs.Inputs.{Reads, stated_file};

use sn_base::seed::Seed;
use sn_base::seq::Seq;
use std::alloc::Global;

/// Why a read gave no bytes.
#[derive(Clone, Copy, Debug, PartialEq, Eq)]
pub enum InputFault {
    /// The read failed, and the name's count rose.
    Failed,
    /// The name isn't known.
    Missing,
}

/// Files that are read by name. Reading changes no contents and no known name, and no count falls.
pub trait Inputs {
    /// What each file holds, where that is known.
    ghost reported: { Self → Option (ByName (List ℕ)) };

    /// The known names, each with the number of its faults.
    ghost faults: { Self → ByName ℕ };

    /// Reads bytes of a file from the place `at` on into the front of `into`, and says how many.
    fn read_at(&mut self, name: &str, at: u64, into: &mut [u8]) -> Result<usize, InputFault>
        ensures reported { reported self.new ≡ reported self.old }
        ensures faults { OnlyRises name.now (faults self.old) (faults self.new) }
        ensures missing { IsErrOf result InputFault.Missing ↔ (get (faults self.old) name.now ≡ None) }
        ensures unchanged { IsErrOf result InputFault.Missing → self.new ≡ self.old }
        ensures failed { IsErrOf result InputFault.Failed → RoseAt name.now (faults self.old) (faults self.new) }
        ensures untouched { OnErr result (into.new ≡ into.old) }
        ensures within { IfOk result (λ n. n ≤ length into.old) }
        ensures bytes { IfOk result (λ n. IfSome (stated_file (reported self.old) name.now) (λ file. Reads file at n into.old into.new)) };

    /// A seed that the writers of the files couldn't know, where there is one.
    fn seed(&self) -> Seed {
        Seed::new(0)
    }

    /// About how many bytes a file has, as far as that is known before it is read. It is a hint for room: nothing
    /// but time depends on it, and nothing of it is promised.
    fn expected_bytes(&self, _name: &str) -> u64 {
        0
    }

    /// Where contents are known, the names held are the names known.
    ghost same_names: { (s : Self) (files : ByName (List ℕ)) (name : List ℕ) → reported s ≡ Some files → is_some (get files name) ≡ is_some (get (faults s) name) };
}

/// The most bytes of a file that are read at once.
pub const PIECE: usize = 65536;

/// Why a file isn't read whole.
#[derive(Clone, Copy, Debug, PartialEq, Eq)]
pub enum ReadError {
    /// The name isn't known.
    Missing,
    /// A read failed, and the name's count rose.
    ReadFault,
    /// The file has more bytes than the limit.
    TooLarge,
    /// Out of memory.
    Memory,
}

/// No bytes, with room for as many as a file is expected to have, if not more than `limit`. Where there isn't as much
/// memory there is room for none: the file may have fewer.
fn room_for<I: Inputs>(alloc: Global, files: &I, name: &str, limit: u64) -> Vec<u8>
    ensures { result.items ≡ [] }
{
    let room = files.expected_bytes(name).min(limit);
    match Vec::with_capacity(alloc, room as usize) {
        Ok(bytes) => bytes,
        Err(_) => Vec::new(alloc),
    }
}

/// Reads a whole file of at most `limit` bytes, piece by piece. `Missing` comes exactly where the name isn't known,
/// `ReadFault` only where its count rose, and `TooLarge` exactly where the file has a byte after the limit.
pub fn read_whole<I: Inputs>(
    alloc: Global,
    files: &mut I,
    name: &str,
    limit: u64,
) -> Result<Seq<u8>, ReadError>
    ensures bytes { IfOk result (λ bytes. IfSome (stated_file (I.reported files.old) name.now) (λ file. bytes ≡ file)) }
    ensures most { IfOk result (λ bytes. length bytes ≤ limit) }
    ensures whole { IsSomeAnd (stated_file (I.reported files.old) name.now) (λ file. length file ≤ limit) →
        ¬ RoseAt name.now (I.faults files.old) (I.faults files.new) → IsOkUnless result ReadError.Memory }

    ensures missing { IsErrOf result ReadError.Missing ↔ (get (I.faults files.old) name.now ≡ None) }
    ensures unchanged { IsErrOf result ReadError.Missing → files.new ≡ files.old }
    ensures fault { IsErrOf result ReadError.ReadFault → RoseAt name.now (I.faults files.old) (I.faults files.new) }
    ensures large { IsErrOf result ReadError.TooLarge → IfSome (stated_file (I.reported files.old) name.now) (λ file. limit < length file) }

    // `ReadFault` and `Memory` go before `TooLarge`.
    ensures is_large { IsSomeAnd (stated_file (I.reported files.old) name.now) (λ file. limit < length file) →
        IsErrOf result ReadError.TooLarge ⊎ (IsErrOf result ReadError.ReadFault ⊎ IsErrOf result ReadError.Memory) }

    ensures reported { I.reported files.new ≡ I.reported files.old }
    ensures faults { OnlyRises name.now (I.faults files.old) (I.faults files.new) }
{
    let mut bytes = room_for(alloc, files, name, limit);
    let mut piece = [0; PIECE];
    loop {
        match files.read_at(name, bytes.len() as u64, &mut piece) {
            Ok(0) => return Ok(Seq::from_vec(bytes)),
            Ok(count) => {
                if count as u64 > limit - bytes.len() as u64 {
                    return Err(ReadError::TooLarge);
                }
                if bytes.extend_from_slice(&piece[..count]).is_err() {
                    return Err(ReadError::Memory);
                }
            }
            Err(InputFault::Failed) => return Err(ReadError::ReadFault),
            Err(InputFault::Missing) => return Err(ReadError::Missing),
        }
    }
}
