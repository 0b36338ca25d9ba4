//! The segments of generated captures.
ghost use Rattle.std.specs.Prelude.{◌≡◌, ◌<◌};
ghost use Rattle.sn_gen.specs.Generated.{draws_of, idling, loaded, number_after, opening, segment_at};

use crate::draws::Draws;

/// A TCP segment over IPv4.
#[derive(Clone, Copy)]
pub struct Segment {
    pub source: u32,
    pub destination: u32,
    pub source_port: u16,
    pub destination_port: u16,
    pub flags: u8,
    /// The bytes of the IPv4 packet, its header included.
    pub length: u16,
}

const SYN: u8 = 2;

const ACK: u8 = 16;

/// The SYN of one of many connections to 10.1.2.3, each from a source of its own.
fn opening(connection: u16) -> Segment
    requires { connection < 500 }
    ensures { result ≡ opening connection }
{
    Segment {
        source: u32::from_be_bytes([172, 16, (connection / 256) as u8, (connection % 256) as u8]),
        destination: u32::from_be_bytes([10, 1, 2, 3]),
        source_port: 1024 + connection,
        destination_port: 80,
        flags: SYN,
        length: 60,
    }
}

/// A segment without bytes of its own, of one of many connections to 10.9.8.7 from four sources.
fn idling(connection: u16) -> Segment
    requires { connection < 500 }
    ensures { result ≡ idling connection }
{
    Segment {
        source: u32::from_be_bytes([192, 168, 0, (connection % 4 + 1) as u8]),
        destination: u32::from_be_bytes([10, 9, 8, 7]),
        source_port: 2048 + connection,
        destination_port: 80,
        flags: ACK,
        length: 40,
    }
}

/// A segment with 1000 bytes of its own, by two numbers that were drawn.
fn loaded(u: u64, v: u64) -> Segment
    ensures { result ≡ loaded u v }
{
    Segment {
        source: u32::from_be_bytes([30, 0, 0, (v % 16 + 1) as u8]),
        destination: u32::from_be_bytes([20, 0, (u % 8) as u8, (u / 8 % 8) as u8]),
        source_port: 4096 + (v / 16 % 1024) as u16,
        destination_port: 443,
        flags: ACK,
        length: 1040,
    }
}

/// The segment of packet `i`.
pub fn next_segment(i: u32, draws: &mut Draws) -> Segment
    ensures value { result ≡ segment_at draws.old.number i }
    ensures after { draws.new.number ≡ number_after draws.old.number (draws_of i) }
{
    let place = i % 5000;
    let connection = (place / 10) as u16;
    match place % 10 {
        0 => opening(connection),
        1 => idling(connection),
        _ => {
            let u = draws.draw();
            let v = draws.draw();
            loaded(u, v)
        }
    }
}
