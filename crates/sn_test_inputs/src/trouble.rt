//! What keeps a test's files from being made.
use sn_base::memory::Memory;
use std::alloc::{AllocError, AllocFailed};
use std::num::{ParseIntError, TryFromIntError};

/// What keeps a test's files from being made.
#[derive(Clone, Copy, Debug, PartialEq)]
pub enum Trouble {
    /// A word is no number, or a number is too large.
    Number,
    /// Out of memory.
    Memory,
}

impl From<AllocError> for Trouble {
    fn from(_error: AllocError) -> Trouble {
        Trouble::Memory
    }
}

impl<T: Drop> From<AllocFailed<T>> for Trouble {
    fn from(_error: AllocFailed<T>) -> Trouble {
        Trouble::Memory
    }
}

impl From<Memory> for Trouble {
    fn from(_error: Memory) -> Trouble {
        Trouble::Memory
    }
}

impl From<ParseIntError> for Trouble {
    fn from(_error: ParseIntError) -> Trouble {
        Trouble::Number
    }
}

impl From<TryFromIntError> for Trouble {
    fn from(_error: TryFromIntError) -> Trouble {
        Trouble::Number
    }
}
