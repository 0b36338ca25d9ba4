//! The windows that several captures have together.
#![tactic(auto)]

pub mod law;
