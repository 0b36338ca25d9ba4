//! The steps of several captures, each read whole and counted, and the windows that they have together.
#![tactic(auto)]

pub mod answer;
pub mod capture;
pub mod count;
pub mod law;
pub mod read;
mod record;
pub mod share;
pub mod team;
