//! What a reader gives of a capture, one record after another.
ghost use Rattle.std.specs.Prelude.{◌≡◌, ◌≤◌, take};

use crate::packet::Ending;

/// The most bytes of a packet that are kept.
pub const FRONT_BYTES: usize = 128;

/// A packet of a capture: what its record says of it, and its first captured bytes.
#[derive(Clone, Copy, Debug, PartialEq, Eq)]
pub struct Seen {
    /// When it was captured, in nanoseconds since the start of 1970.
    pub time: u64,
    /// How many bytes it had on the wire.
    pub wire: u32,
    /// How many of its bytes were captured.
    pub cap: u32,
    /// How many of the captured bytes stand at the beginning of `front`: all of them, or the first 128.
    pub len: u32,
    /// The first captured bytes, and after them bytes that mean nothing.
    pub front: [u8; 128],
}

impl Seen {
    /// A packet of no bytes: a place into which the packets of a capture are written.
    pub fn empty() -> Seen
        ensures { result.len ≡ 0 }
    {
        Seen {
            time: 0,
            wire: 0,
            cap: 0,
            len: 0,
            front: [0; FRONT_BYTES],
        }
    }

    /// The first captured bytes.
    pub fn bytes(&self) -> &[u8]
        requires { self.now.len ≤ 128 }
        ensures { result.now ≡ take self.now.len self.now.front }
    {
        let (bytes, _) = self.front.split_at(self.len as usize);
        bytes
    }
}

/// What comes next in a capture.
#[derive(Clone, Copy, Debug, PartialEq, Eq)]
pub enum Next {
    /// A whole record. Its packet is written where the caller wants it.
    Packet,
    /// No further record is whole.
    End(Ending),
}

/// What a reader answers once no further record comes.
#[derive(Clone, Copy, Debug, PartialEq, Eq)]
pub enum Last {
    /// The records end so.
    Ended(Ending),
    /// The capture has more bytes than are read, and the next record isn't whole within them.
    TooLarge,
}
