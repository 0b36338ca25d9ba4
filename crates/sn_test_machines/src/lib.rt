//! A machine that doesn't tell its answers as they are, and what is printed by it.
#![tactic(auto)]

#[cfg(test)]
mod reported;
pub mod twist;
