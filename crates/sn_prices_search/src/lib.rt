//! A plan for many queries that costs little, and prices that show how little it can cost.
#![tactic(auto)]

pub mod board;
pub mod choice;
pub mod draws;
pub mod find;
pub mod insert;
pub mod search;
pub mod step;
pub mod widen;
pub mod writable;
