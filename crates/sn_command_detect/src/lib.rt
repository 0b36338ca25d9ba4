//! The command `detect`: what refinement sees of a capture, and when.
#![tactic(auto)]

pub mod answering;
pub mod detect;
mod giving;
pub mod law;
mod making;
mod text;
pub mod watch;
