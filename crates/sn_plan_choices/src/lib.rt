//! The choices of a plan, one after another.
#![tactic(auto)]

pub mod costs;
pub mod law;
pub mod setting;
