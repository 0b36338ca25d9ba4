//! Why a step may fail.
use sn_core::event::Why;

/// Why an event of a net didn't happen. Nothing has changed.
#[derive(Clone, Copy)]
pub enum StepFault {
    /// A need of the event fails; this is the first that does.
    NotEnabled(Why),
    /// Out of memory.
    Memory,
}
