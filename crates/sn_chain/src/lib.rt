//! Chains of registers: keyed folds in a fixed number of cells, as a switch holds them.
#![tactic(auto)]

mod cells;
pub mod chain;
mod code;
mod head;
pub mod law;
mod marks;
pub mod offer;
mod register;
