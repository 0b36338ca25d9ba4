//! The command `finish`: queries answered from the report frames of a plan alone.
#![tactic(auto)]

pub mod finish;
pub mod law;
mod reports;
mod taking;
mod tally;
mod window;
