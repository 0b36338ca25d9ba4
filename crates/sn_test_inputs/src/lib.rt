//! What the crates of tests share: cases of tables, packets of captures, files that give few bytes at a call, and files that
//! tell how they are read, and the error of making them.
#![tactic(auto)]

pub mod case;
pub mod forward;
pub mod packets;
pub mod slow;
pub mod stalling;
pub mod trouble;
