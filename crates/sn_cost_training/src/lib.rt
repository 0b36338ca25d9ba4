//! What a plan is trained on: the tuples of windows, in one list for each window.
#![tactic(auto)]

pub mod training;
