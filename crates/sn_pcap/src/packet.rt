//! The packets of a capture.
ghost use Rattle.std.specs.Prelude.{◌≡◌, ℕ, ◌≤◌, ◌+◌, List, [], length, IfOk, IfErr, All};
ghost use Rattle.sn_pcap.specs.declared.header.Header.{Header};
ghost use Rattle.sn_pcap.specs.declared.packet.Packet.{Packet};
ghost use Rattle.sn_pcap.specs.declared.packet.Ending.{Ending};
ghost use Rattle.sn_pcap.specs.Capture.{Records, HasRecord, HasRecords, IsWithin, packet_at, time_at, bytes_of};

use crate::header::{HEADER_BYTES, Header};
use crate::numbers::u32_at;
use sn_base::memory::Memory;
use sn_base::seq::Seq;
use std::alloc::Global;

/// The bytes of a record's header, before its packet.
pub const RECORD_BYTES: usize = 16;

/// The most bytes that a record may have captured.
pub const MOST_CAPTURED: u32 = 262144;

/// A packet of a capture: where its captured bytes stand in the file, and what its record says of it.
#[derive(Clone, Copy, Debug, PartialEq, Eq)]
pub struct Packet {
    /// When it was captured, in nanoseconds since the start of 1970.
    pub time: u64,
    /// How many bytes it had on the wire.
    pub wire: u32,
    /// The offset in the file of its first captured byte.
    pub at: u64,
    /// How many of its bytes were captured.
    pub cap: u32,
}

/// How the records of a capture end.
#[derive(Clone, Copy, Debug, PartialEq, Eq)]
pub enum Ending {
    /// The file ends after a whole record, or after its header.
    Clean,
    /// At this offset stand some bytes, but fewer than the record there needs.
    Cut(u64),
    /// At this offset stands a record's header that states more than [`MOST_CAPTURED`] bytes.
    Bad(u64),
}

impl Packet {
    /// The captured bytes, of the file that the packet is from.
    pub fn bytes<'a>(&self, file: &'a [u8]) -> &'a [u8]
        requires { self.now.at + self.now.cap ≤ length file.now }
        ensures { result.now ≡ bytes_of file.now self.now }
    {
        let (_, from_first) = file.split_at(self.at as usize);
        let (bytes, _) = from_first.split_at(self.cap as usize);
        bytes
    }
}

/// The packet of the record at an offset, or how the records end there.
pub fn record_at(head: &Header, file: &[u8], at: usize) -> Result<Packet, Ending>
    ensures packet { IfOk result (λ packet. packet ≡ packet_at head.now file.now at) }
    ensures whole { IfOk result (λ packet. HasRecord head.now file.now at) }
    ensures ending { IfErr result (λ ending. Records head.now file.now at [] ending) }
{
    if file.len() <= at {
        return Err(Ending::Clean);
    }
    if file.len() - at < RECORD_BYTES {
        return Err(Ending::Cut(at as u64));
    }
    let cap = u32_at(head.big, file, at + 8);
    if cap > MOST_CAPTURED {
        return Err(Ending::Bad(at as u64));
    }
    if file.len() - at - RECORD_BYTES < cap as usize {
        return Err(Ending::Cut(at as u64));
    }
    Ok(Packet {
        time: time_at(head, file, at),
        wire: u32_at(head.big, file, at + 12),
        at: (at + RECORD_BYTES) as u64,
        cap,
    })
}

/// The time of a record, in nanoseconds. A fraction of a second or more is added as it is.
#[inline(always)]
pub fn time_at(head: &Header, file: &[u8], at: usize) -> u64
    requires { at + 16 ≤ length file.now }
    ensures { result ≡ time_at head.now file.now at }
{
    let seconds = u64::from(u32_at(head.big, file, at));
    let fraction = u64::from(u32_at(head.big, file, at + 4));
    let unit = if head.nanos { 1 } else { 1000 };
    seconds * 1_000_000_000 + fraction * unit
}

/// The packets of a capture with this header, and how its records end. The whole records before a damaged
/// one count.
pub fn packets(alloc: Global, head: &Header, file: &[u8]) -> Result<(Seq<Packet>, Ending), Memory>
    ensures records { IfOk result (λ found. Records head.now file.now 24 found.0 found.1) }
    ensures only { IfOk result (λ found. (packets : List Packet) (ending : Ending) →
        Records head.now file.now 24 packets ending → (packets ≡ found.0) × (ending ≡ found.1)) }
    ensures within { IfOk result (λ found. All (IsWithin file.now) found.0) }
{
    let mut found = Seq::new(alloc);
    let mut at = HEADER_BYTES;
    'records: loop {
        match record_at(head, file, at) {
            Ok(packet) => {
                found.push(packet)?;
                at += RECORD_BYTES + packet.cap as usize;
            }
            Err(ending) => return Ok((found, ending)),
        }
    }
}

/// A law, with nothing to run: from each offset on a file has exactly one list of packets and one ending.
#[tactic(auto, using(crate::proofs::OneCapture::records_some, crate::proofs::OneCapture::records_once))]
pub fn records_are_one()
    ensures some { (header : Header) (file : List ℕ) (n : ℕ) → HasRecords header file n }
    ensures once { (header : Header) (file : List ℕ) (n : ℕ) (ps qs : List Packet) (e f : Ending) →
        Records header file n ps e → Records header file n qs f → (ps ≡ qs) × (e ≡ f) }
{}
