//! The command `check`.
#![tactic(auto)]

pub mod check;
pub mod law;
mod plan_tree;
mod shown;
mod yes;
