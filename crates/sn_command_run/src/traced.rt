//! A plan at work over the windows of a capture, whose machine is watched.

use crate::along::Along;

/// A plan at work, and the lines of what happened in its machine.
#[derive(Drop)]
pub struct Traced<M: Drop> {
    pub along: Along<M>,
    /// The number from which draws follow.
    pub schedule: u32,
    /// The lines of what happened since a window closed.
    pub lines: Vec<u8>,
}
