//! Numbers in a packet, their highest byte first.
ghost use Rattle.std.specs.Prelude.{◌≡◌, ◌≤◌, ◌<◌, ◌+◌, ◌^◌, length};
ghost use Rattle.sn_fields.specs.Headers.{number_at};

use byteorder::{BigEndian, ByteOrder};

/// The number of 16 bits at a place.
#[tactic(auto, unfolding(crate::specs::Headers::number_at))]
pub fn u16_at(bytes: &[u8], place: usize) -> u16
    requires { place + 2 ≤ length bytes.now }
    ensures { result ≡ number_at 2 bytes.now place }
{
    let (_, number) = bytes.split_at(place);
    BigEndian::read_u16(number)
}

/// The number of 32 bits at a place.
#[tactic(auto, unfolding(crate::specs::Headers::number_at))]
pub fn u32_at(bytes: &[u8], place: usize) -> u32
    requires { place + 4 ≤ length bytes.now }
    ensures { result ≡ number_at 4 bytes.now place }
{
    let (_, number) = bytes.split_at(place);
    BigEndian::read_u32(number)
}

/// The number of 48 bits at a place.
#[tactic(auto, unfolding(crate::specs::Headers::number_at))]
pub fn u48_at(bytes: &[u8], place: usize) -> u64
    requires { place + 6 ≤ length bytes.now }
    ensures value { result ≡ number_at 6 bytes.now place }
    ensures fits { result < 2 ^ 48 }
{
    let (_, number) = bytes.split_at(place);
    BigEndian::read_u48(number)
}

/// The number of 128 bits at a place.
#[tactic(auto, unfolding(crate::specs::Headers::number_at))]
pub fn u128_at(bytes: &[u8], place: usize) -> u128
    requires { place + 16 ≤ length bytes.now }
    ensures { result ≡ number_at 16 bytes.now place }
{
    let (_, number) = bytes.split_at(place);
    BigEndian::read_u128(number)
}
