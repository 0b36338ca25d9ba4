//! What prices on a switch's limits show of the plans that fit. Laws with nothing to run.
#![tactic(auto)]

pub mod laws;
