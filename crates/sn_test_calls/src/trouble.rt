//! What keeps the calls of a file from being made.
use sn_base::memory::Memory;
use std::alloc::{AllocError, AllocFailed};
use std::io;

/// What keeps the calls of a file from being made.
#[derive(Clone, Copy, Drop)]
pub enum Trouble {
    /// The file isn't a list of calls.
    Form,
    /// The file can't be read, or the output can't be written.
    Stream,
    /// Out of memory.
    Memory,
}

impl Trouble {
    /// A line that tells it.
    pub fn text(self) -> &'static str {
        match self {
            Trouble::Form => "the file isn't a list of calls",
            Trouble::Stream => "a stream failed",
            Trouble::Memory => "out of memory",
        }
    }
}

impl From<AllocError> for Trouble {
    fn from(_: AllocError) -> Trouble {
        Trouble::Memory
    }
}

impl<T: Drop> From<AllocFailed<T>> for Trouble {
    fn from(_: AllocFailed<T>) -> Trouble {
        Trouble::Memory
    }
}

impl From<Memory> for Trouble {
    fn from(_: Memory) -> Trouble {
        Trouble::Memory
    }
}

impl From<io::Error> for Trouble {
    fn from(_: io::Error) -> Trouble {
        Trouble::Stream
    }
}
