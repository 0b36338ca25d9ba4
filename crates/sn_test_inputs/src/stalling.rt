//! A sink in memory of which one write takes nothing.
ghost use Rattle.std.specs.Prelude.{◌≡◌, ◌≤◌, ◌<◌, Some};

use sn_io::mem_sink::MemSink;
use sn_io::sink::{Failed, Sink};

/// A sink in memory of which the write of this number takes nothing. Writes are numbered from 0.
#[derive(Drop)]
pub struct Stalling {
    sink: MemSink,
    at: u64,
    writes: u64,
    stalls: u64,
}

impl Stalling {
    /// A sink that was not written to yet.
    pub fn new(sink: MemSink, at: u64) -> Stalling {
        Stalling {
            sink,
            at,
            writes: 0,
            stalls: 0,
        }
    }

    /// The bytes that went out.
    pub fn bytes(&self) -> &[u8] {
        self.sink.bytes()
    }
}

impl Sink for Stalling {
    ghost written = { λ s. Some s.sink.bytes };

    ghost faults = { λ s. s.sink.faults };

    ghost empty_takes = { λ s. s.stalls };

    fn write(&mut self, piece: &[u8]) -> Result<usize, Failed> {
        let number = self.writes;
        self.writes = number.saturating_add(1);
        if number == self.at && !piece.is_empty() && self.stalls < u64::MAX {
            self.stalls += 1;
            return Ok(0);
        }
        match self.sink.write(piece) {
            Ok(taken) => Ok(taken),
            Err(failed) => Err(failed),
        }
    }
}
