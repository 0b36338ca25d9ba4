//! What one of several switches saw.

ghost use Rattle.std.specs.Prelude.{◌≡◌, ◌≤◌, [], ◌∷◌, Some, None, IfSome, IsNone, map, true, if◌then◌else◌};
ghost use Rattle.std.specs.List.{AllByRecursion};
ghost use Rattle.sn_command_captures.specs.Counted.{left_of};
ghost use Rattle.sn_command_captures.specs.Shares.{IsSound};
ghost use Rattle.sn_command_captures.specs.Walks.{IsNextRecord, are_few, packets_from, untaken};
ghost use Rattle.sn_windows.specs.Numbering.{begun_at};
ghost use Rattle.sn_windows.specs.NumberingOf.{numbering};
ghost use Rattle.sn_windows_together.specs.Merging.{head_number, lesser, next_in};

use crate::record::ending_from;
use sn_base::seq::Seq;
use sn_fields::tuple::{Tuple, tuple_of};
use sn_pcap::header::{HEADER_BYTES, Header};
use sn_pcap::packet::{Ending, Packet, RECORD_BYTES, record_at};
use sn_windows::windows::{MOST_RECORDS, Windows};
use std::marker::Model;

/// Of no more bytes no window has too many records, since each record has a header.
const FEW_BYTES: u64 = MOST_RECORDS * RECORD_BYTES as u64;

/// What one of several switches saw: a capture, whose records are taken one after another. No list of them is kept: each is found in the bytes when
/// its turn comes, and gets its window's number then. Contracts see the tuples of the records that weren't taken, each with the number of its window, and how
/// the records end.
#[derive(Drop)]
pub struct Share {
    header: Header,
    file: Seq<u8>,
    /// The offset in the file of the next record.
    at: usize,
    /// The windows of the records that were taken.
    windows: Windows,
}

impl Model for Share {
    ghost use Rattle.std.specs.Prelude.{◌≡◌, true};
    ghost use Rattle.sn_command_captures.specs.Recorded.{Untaken};

    ghost Value = { Untaken };

    ghost use Rattle.sn_command_captures.specs.Walks.{are_few, packets_from, untaken};
    ghost use Rattle.sn_windows.specs.NumberingOf.{numbering};

    ghost view = { λ a. untaken a.header a.file (numbering a.windows) a.at };

    ghost invariant = { λ a. are_few (numbering a.windows) (packets_from a.header a.file a.at) ≡ true };
}

/// Whether no window has too many records, where the records of a capture come one after another to these windows.
fn count_all(header: &Header, file: &[u8], begun: Windows) -> bool
    ensures { result ≡ are_few (numbering begun) (packets_from header.now file.now HEADER_BYTES) }
{
    let mut windows = begun;
    let mut at = HEADER_BYTES;
    'records: while let Ok(packet) = record_at(header, file, at) {
        match windows.next_number(packet.time) {
            Ok(_) => at += RECORD_BYTES + packet.cap as usize,
            Err(_) => return false,
        }
    }
    true
}

/// Whether no window of a capture has too many records, whose records come to these windows, before any.
fn has_few(header: &Header, file: &[u8], begun: Windows) -> bool
    requires { (numbering begun).count ≡ 0 }
    ensures { result ≡ are_few (numbering begun) (packets_from header.now file.now HEADER_BYTES) }
{
    if file.len() as u64 <= FEW_BYTES {
        return true;
    }
    count_all(header, file, begun)
}

/// The next record of a capture, with the number of its window. `None` exactly where there is no more.
fn next_record(
    header: &Header,
    file: &[u8],
    at: usize,
    windows: &mut Windows,
) -> Option<(u64, Packet)>
    requires { are_few (numbering windows.old) (packets_from header.now file.now at) ≡ true }
    ensures some { IfSome result (λ found. IsNextRecord header.now file.now at (numbering windows.old) found.0 found.1 (numbering windows.new)) }
    ensures none { IsNone result → packets_from header.now file.now at ≡ [] }
{
    let Ok(packet) = record_at(header, file, at) else {
        return None;
    };
    match windows.next_number(packet.time) {
        Ok(number) => Some((number, packet)),
        Err(_) => unreachable!(),
    }
}

impl Share {
    /// All that a switch saw: the bytes of its capture, which have this header, in windows of this many nanoseconds, of which window 0 begins at this time.
    /// `None` exactly where a window has more than 4194304 records.
    pub fn of(header: Header, file: Seq<u8>, window_ns: u64, start: u64) -> Option<Share>
        requires { 1 ≤ window_ns }
        ensures { result ≡ (if are_few (begun_at start window_ns) (packets_from header file HEADER_BYTES)
            then Some (untaken header file (begun_at start window_ns) HEADER_BYTES) else None) }
    {
        let windows = Windows::starting(start, window_ns);
        if !has_few(&header, file.as_slice(), windows) {
            return None;
        }
        Some(Share {
            header,
            file,
            at: HEADER_BYTES,
            windows,
        })
    }

    /// The number of the window of the next record. `None` exactly where all were taken.
    pub fn number(&self) -> Option<u64>
        ensures { result ≡ head_number (left_of self.now) }
    {
        let mut windows = self.windows;
        let (number, _) = next_record(&self.header, self.file.as_slice(), self.at, &mut windows)?;
        Some(number)
    }

    /// Takes the next record, where it is of this window, and gives its tuple.
    pub fn take(&mut self, number: u64) -> Option<Tuple>
        requires { IsSound self.old }
        ensures some { IfSome result (λ tuple. left_of self.old ≡ (number, tuple) ∷ left_of self.new) }
        ensures none { IsNone result → self.new ≡ self.old }
        ensures other { IsNone result → head_number (left_of self.old) ≡ Some number → ⊥ }
        ensures sound { IsSound self.new }
        ensures ending { self.new.ending ≡ self.old.ending }
    {
        let mut windows = self.windows;
        let (found, packet) = next_record(
            &self.header,
            self.file.as_slice(),
            self.at,
            &mut windows,
        )?;
        if found != number {
            return None;
        }
        let bytes = packet.bytes(self.file.as_slice());
        let tuple = tuple_of(self.header.link, packet.wire, bytes);
        self.at += RECORD_BYTES + packet.cap as usize;
        self.windows = windows;
        Some(tuple)
    }

    /// How the records end.
    pub fn ending(&self) -> Ending
        ensures { result ≡ self.now.ending }
    {
        ending_from(&self.header, self.file.as_slice(), self.at)
    }
}

/// The lesser of two numbers, of which each may be missing.
fn lesser(first: Option<u64>, second: Option<u64>) -> Option<u64>
    ensures { result ≡ lesser first second }
{
    match (first, second) {
        (Some(first), Some(second)) => Some(first.min(second)),
        (None, other) | (other, None) => other,
    }
}

/// The number of the first window that is left of what the switches saw. `None` exactly where all was taken.
pub fn next_window(shares: &[Share]) -> Option<u64>
    ensures { result ≡ next_in (map left_of shares.now) }
{
    match shares.split_first() {
        Some((first, rest)) => lesser(first.number(), next_window(rest)),
        None => None,
    }
}
