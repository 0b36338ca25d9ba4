//! The command `emit`.
#![tactic(auto)]

pub mod answering;
pub mod emit;
pub mod law;
pub mod reporter;
