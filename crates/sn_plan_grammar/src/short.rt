//! A short list of numbers, held in place.
ghost use Rattle.std.specs.Prelude.{◌≡◌, ◌↔◌, ◌<◌, ◌≤◌, length, IfSome, IsNone};

use smallvec::SmallVec;
use std::alloc::Global;
use std::marker::Model;

/// At most eight numbers, as the sizes or the stages of a piece.
#[derive(Drop)]
pub struct Short {
    held: SmallVec<u32, 8>,
}

impl Model for Short {
    ghost use Rattle.std.specs.Prelude.{List, ℕ, ◌≤◌, length};

    ghost Value = { List ℕ };

    ghost view = { λ a. a.held.items };

    ghost invariant = { λ a. length a.held.items ≤ 8 };
}

impl Short {
    /// The list of these numbers. `None` exactly where there are more than eight. It takes no memory.
    pub fn new(alloc: Global, numbers: &[u32]) -> Option<Short>
        ensures some { IfSome result (λ short. short ≡ numbers.now) }
        ensures none { IsNone result ↔ (8 < length numbers.now) }
    {
        if numbers.len() > 8 {
            return None;
        }
        match SmallVec::from_slice(alloc, numbers) {
            Ok(held) => Some(Short { held }),
            Err(_) => unreachable!(),
        }
    }

    /// The numbers, in order.
    pub fn as_slice(&self) -> &[u32]
        ensures value { result.now ≡ self.now }
        ensures most { length self.now ≤ 8 }
    {
        self.held.as_slice()
    }
}
