//! Queries to which tuples come one after another. They keep what their operators have seen, and a
//! block of tuples at most.
#![tactic(auto)]

mod after;
pub mod any_branch;
pub mod branch;
mod front;
mod queries;
pub mod query;
pub mod streams;
