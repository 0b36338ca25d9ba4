//! Queries that are refined along a path, over windows.
#![tactic(auto)]

pub mod law;
pub mod members;
pub mod refined;
