//! What prices on a switch's limits show of the plans of queries: `bound` computes it.
#![tactic(auto)]

pub mod bound;
mod pays;
mod walk;
mod weights;
mod worth;
