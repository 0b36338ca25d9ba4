//! The command `many`.
#![tactic(auto)]

pub mod joint;
pub mod law;
pub mod lines;
pub mod several;
pub mod taking;
