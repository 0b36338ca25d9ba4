//! The slots of keys in a chain of registers, and what distinct keys say of all rows.
#![tactic(auto)]

pub mod law;
pub mod slots;
pub mod tally;
