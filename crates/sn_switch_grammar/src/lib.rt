//! The items of the switch text, and its grammar with its laws.
#![tactic(auto)]

pub mod item;
