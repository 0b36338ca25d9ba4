//! Why reading stops.
ghost use Rattle.std.specs.Prelude.{◌≡◌};
ghost use Rattle.sn_text.specs.declared.stop.Stop.TheVariants.{NoMemory};

use crate::place::Lexer;
use sn_base::memory::Memory;
use sn_text_rules::Flaw;
use std::alloc::{AllocError, AllocFailed};

/// Out of memory, or a fault at the token that the lexer stands before.
#[derive(Drop)]
pub enum Stop<'a> {
    NoMemory,
    Fault(Flaw, Lexer<'a>),
}

impl<'a> From<Memory> for Stop<'a> {
    ghost from_gives = { λ _ e. e ≡ NoMemory };

    fn from(_e: Memory) -> Stop<'a> {
        Stop::NoMemory
    }
}

impl<'a> From<AllocError> for Stop<'a> {
    ghost from_gives = { λ _ e. e ≡ NoMemory };

    fn from(_e: AllocError) -> Stop<'a> {
        Stop::NoMemory
    }
}

impl<'a, T: Drop> From<AllocFailed<T>> for Stop<'a> {
    ghost from_gives = { λ _ e. e ≡ NoMemory };

    fn from(_e: AllocFailed<T>) -> Stop<'a> {
        Stop::NoMemory
    }
}
