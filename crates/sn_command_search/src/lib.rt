//! The plan that costs least over training windows, with the tree that shows it.
#![tactic(auto)]

pub mod certificate;
pub mod law;
pub mod search;
pub mod text;
