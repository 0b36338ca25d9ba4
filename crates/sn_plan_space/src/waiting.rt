//! A register without a stage.
ghost use Rattle.std.specs.Prelude.{◌≤◌, length};

use crate::known::Slot;

/// A register that waits for its stage.
#[derive(Clone, Copy)]
pub struct Waiting<'a> {
    /// The least stage that it may have.
    pub least: u32,
    pub bits: u64,
    /// The tables of its piece after it.
    pub following: &'a [Slot],
    ghost few: { length following.now ≤ 64 },
}
