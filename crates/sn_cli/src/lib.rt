//! The words of a command line.
#![tactic(auto)]

pub mod command;
pub mod law;
mod numbers;
pub mod options;
pub mod words;
