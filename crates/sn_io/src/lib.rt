//! Files that are read and sinks that are written, each with counts of faults.
#![tactic(auto)]

pub mod inputs;
mod known;
pub mod mem_inputs;
pub mod mem_sink;
mod opened;
pub mod real;
pub mod sink;
