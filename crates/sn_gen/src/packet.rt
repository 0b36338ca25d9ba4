//! The packets of generated captures.
ghost use Rattle.std.specs.Prelude.{◌≡◌, ◌+◌, ◌<◌};
ghost use Rattle.sn_gen.specs.Generated.{draws_of, number_after, packet_at};

use crate::draws::Draws;
use crate::segment::{Segment, next_segment};

/// A segment and when it came.
#[derive(Clone, Copy)]
pub struct Packet {
    pub second: u32,
    pub microsecond: u32,
    pub segment: Segment,
}

/// Packet `i`: 5000 packets come each second, the first at one second.
pub fn next_packet(i: u32, draws: &mut Draws) -> Packet
    requires { i < 20000 }
    ensures value { result ≡ packet_at draws.old.number i }
    ensures after { draws.new.number ≡ number_after draws.old.number (draws_of i) }
{
    Packet {
        second: 1 + i / 5000,
        microsecond: i % 5000 * 200,
        segment: next_segment(i, draws),
    }
}
