//! What the pieces of a plan may take of a switch, in plain numbers, and where it stands at the least prices.
#![tactic(auto)]

pub mod beaten;
pub mod gather;
pub mod numbers;
pub mod offers;
pub mod walk;
