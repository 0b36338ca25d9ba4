//! Prices on the limits of a switch, found by raising one after another.
#![tactic(auto)]

pub mod ascent;
pub mod bound;
pub mod forms;
pub mod raise;
pub mod sheet;
