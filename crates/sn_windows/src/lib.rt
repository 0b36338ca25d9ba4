//! Windows of records, numbered by time.
#![tactic(auto)]

pub mod law;
pub mod windows;
