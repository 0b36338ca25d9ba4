//! What a plan text holds, its grammar with its laws, and the grammar of the tree text after it.
#![tactic(auto)]

pub mod plan;
pub mod short;
