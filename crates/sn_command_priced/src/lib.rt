//! Commands that write a plan with prices.
#![tactic(auto)]

pub mod asked;
pub mod law;
pub mod plan;
pub mod read;
pub mod write;
