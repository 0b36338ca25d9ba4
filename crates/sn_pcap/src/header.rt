//! The header of a capture.
ghost use Rattle.std.specs.Prelude.{Bool, IfSome, ◌≡◌, ◌≤◌, ◌%◌, ◌^◌, length, Ok, IfOk};
ghost use Rattle.sn_base.specs.declared.link.Link.{Link};
ghost use Rattle.sn_pcap.specs.declared.header.Header.{Header};
ghost use Rattle.sn_pcap.specs.Capture.{number_at, magic_of, form_of, link_number, link_of, head_of, Accepts};

use crate::numbers::{u16_at, u32_at};
use sn_base::link::Link;

/// The bytes of a capture's header, before its first record.
pub const HEADER_BYTES: usize = 24;

/// The magic number of captures with fractions in microseconds.
const MICROS_MAGIC: u32 = 0xa1b2_c3d4;

/// The magic number of captures with fractions in nanoseconds.
const NANOS_MAGIC: u32 = 0xa1b2_3c4d;

/// What the header of a capture says of its records.
#[derive(Clone, Copy, Debug, PartialEq, Eq)]
pub struct Header {
    /// Whether numbers have their highest byte first.
    pub big: bool,
    /// Whether fractions of a second are nanoseconds, and not microseconds.
    pub nanos: bool,
    /// What stands at the front of each packet.
    pub link: Link,
}

/// Why a header is refused: the first of these that is wrong.
#[derive(Clone, Copy, Debug, PartialEq, Eq)]
pub enum HeadFault {
    /// There are fewer than 24 bytes.
    Short,
    /// The magic number, in the first four bytes, isn't one of those that are read.
    Magic,
    /// The version isn't 2.4.
    Version,
    /// The link type isn't one of those that are read.
    Link,
}

/// The byte order (whether the highest byte is first) and the time unit (whether nanoseconds) in which the
/// first four bytes are a magic number.
fn form(file: &[u8]) -> Option<(bool, bool)>
    requires { 4 ≤ length file.now }
    ensures form { result ≡ form_of file.now }
    ensures magic { IfSome result (λ form. number_at form.0 4 file.now 0 ≡ magic_of form.1) }
    ensures all { (big nanos : Bool) → number_at big 4 file.now 0 ≡ magic_of nanos → result ≡ Some (big, nanos) }
{
    match (u32_at(false, file, 0), u32_at(true, file, 0)) {
        (MICROS_MAGIC, _) => Some((false, false)),
        (NANOS_MAGIC, _) => Some((false, true)),
        (_, MICROS_MAGIC) => Some((true, false)),
        (_, NANOS_MAGIC) => Some((true, true)),
        _ => None,
    }
}

/// The link of a link type.
fn link(number: u32) -> Option<Link>
    ensures link { result ≡ link_of number }
    ensures number { IfSome result (λ link. number ≡ link_number link) }
    ensures all { (link : Link) → number ≡ link_number link → result ≡ Some link }
{
    match number {
        1 => Some(Link::Ethernet),
        101 => Some(Link::RawIp),
        113 => Some(Link::Cooked),
        276 => Some(Link::Cooked2),
        _ => None,
    }
}

/// The header of a capture, or the first of the faults that it has. The version and the link type are read
/// in the byte order in which the magic number reads as such; the high 16 bits of the link field, the
/// time zone, the accuracy and the snapshot length aren't looked at.
pub fn head(file: &[u8]) -> Result<Header, HeadFault>
    ensures first { result ≡ head_of file.now }
    ensures accepted { IfOk result (Accepts file.now) }
    ensures all { (header : Header) → Accepts file.now header → result ≡ Ok header }
{
    if file.len() < HEADER_BYTES {
        return Err(HeadFault::Short);
    }
    let Some((big, nanos)) = form(file) else {
        return Err(HeadFault::Magic);
    };
    if u16_at(big, file, 4) != 2 || u16_at(big, file, 6) != 4 {
        return Err(HeadFault::Version);
    }
    match link(u32_at(big, file, 20) % 65536) {
        Some(link) => Ok(Header { big, nanos, link }),
        None => Err(HeadFault::Link),
    }
}
