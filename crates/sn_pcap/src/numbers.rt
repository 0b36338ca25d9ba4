//! Numbers in a capture, in either byte order.
ghost use Rattle.std.specs.Prelude.{◌≡◌, ◌≤◌, ◌+◌, length};
ghost use Rattle.sn_pcap.specs.Capture.{number_at};

use byteorder::{BigEndian, ByteOrder, LittleEndian};

/// The number of 16 bits at a place, its highest byte first where `big`.
#[inline(always)]
pub fn u16_at(big: bool, file: &[u8], place: usize) -> u16
    requires { place + 2 ≤ length file.now }
    ensures { result ≡ number_at big 2 file.now place }
{
    let (_, bytes) = file.split_at(place);
    if big {
        BigEndian::read_u16(bytes)
    } else {
        LittleEndian::read_u16(bytes)
    }
}

/// The number of 32 bits at a place, its highest byte first where `big`.
#[inline(always)]
pub fn u32_at(big: bool, file: &[u8], place: usize) -> u32
    requires { place + 4 ≤ length file.now }
    ensures { result ≡ number_at big 4 file.now place }
{
    let (_, bytes) = file.split_at(place);
    if big {
        BigEndian::read_u32(bytes)
    } else {
        LittleEndian::read_u32(bytes)
    }
}
