//! Names, each with the count of its faults and its file.
ghost use Rattle.std.specs.Prelude.{◌≡◌, ◌<◌, ◌≤◌, IfOk, IfSome, OnErr, is_some, length, vec_len, true};
ghost use Rattle.std.specs.List.{position};
ghost use Rattle.std.specs.String.{string_bytes};
ghost use Rattle.std.specs.FinMap.{get};
ghost use Rattle.sn_io.specs.Counts.{OnlyRises, RoseAt};
ghost use Rattle.sn_io.specs.Known.{is_named, raised, counted, counts_of};
ghost use Rattle.sn_io.specs.Entries.{entries};

use crate::opened::Opened;
use std::io;

/// A name, the number of its faults, and its file from the first read on that could open it.
#[derive(Drop)]
pub struct Entry {
    pub name: String,
    pub count: u64,
    pub file: Option<Opened>,
}

impl Entry {
    /// Reads bytes of the file from the place `at` on. It is opened once, and kept open.
    fn read_at(&mut self, rt: &HostRuntime, at: u64, into: &mut [u8]) -> io::Result<usize>
        ensures name { self.new.name ≡ self.old.name }
        ensures count { self.new.count ≡ self.old.count }
        ensures within { IfOk result (λ n. n ≤ length into.old) }
        ensures untouched { OnErr result (into.new ≡ into.old) }
    {
        if let Some(file) = &mut self.file {
            return file.read_at(at, into);
        }
        let mut file = Opened::open(rt, self.name.as_str())?;
        let answer = file.read_at(at, into);
        self.file = Some(file);
        answer
    }
}

/// One more, up to the greatest number of 64 bits.
pub fn one_more(count: u64) -> u64
    ensures { result ≡ counted count }
{
    if count < u64::MAX { count + 1 } else { count }
}

/// The place of the first entry of a name.
fn first_place(known: &[Entry], name: &str) -> Option<usize>
    ensures { result ≡ position (λ e. is_named name.now (string_bytes e.name, e.count)) known.now }
{
    known.iter().position(|entry| entry.name.as_str() == name)
}

/// The place of a name. `None` exactly where it isn't known.
pub fn place_of(known: &[Entry], name: &str) -> Option<usize>
    ensures known { is_some result ≡ is_some (get (counts_of (entries known.now)) name.now) }
    ensures within { IfSome result (λ place. place < length known.now) }
{
    first_place(known, name)
}

fn raise_first(known: &mut Vec<Entry>, name: &str)
    ensures { entries known.new.items ≡ raised name.now (entries known.old.items) }
{
    if let Some(place) = first_place(known, name) {
        let entry = &mut known[place];
        entry.count = one_more(entry.count);
    }
}

/// Raises the count of a name, and no other.
pub fn raise(known: &mut Vec<Entry>, name: &str)
    ensures others { OnlyRises name.now (counts_of (entries known.old.items)) (counts_of (entries known.new.items)) }
    ensures rose { is_some (get (counts_of (entries known.old.items)) name.now) ≡ true →
        RoseAt name.now (counts_of (entries known.old.items)) (counts_of (entries known.new.items)) }
{
    raise_first(known, name);
}

/// Reads bytes of the file at a place of a name, and leaves each name and count.
pub fn read_place(
    rt: &HostRuntime,
    known: &mut Vec<Entry>,
    place: usize,
    at: u64,
    into: &mut [u8],
) -> io::Result<usize>
    requires { place < vec_len known.old }
    ensures same { entries known.new.items ≡ entries known.old.items }
    ensures within { IfOk result (λ n. n ≤ length into.old) }
    ensures untouched { OnErr result (into.new ≡ into.old) }
{
    known[place].read_at(rt, at, into)
}
