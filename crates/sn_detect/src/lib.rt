//! What refinement sees of the answers of a query, and when.
#![tactic(auto)]

pub mod detect;
mod finding;
pub mod law;
pub mod look;
pub mod monotone;
pub mod stay;
