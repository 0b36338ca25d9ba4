//! A capture that is answered window by window while it is read, in any way of answering.
#![tactic(auto)]

pub mod answering;
pub mod capture;
pub mod gathered;
pub mod law;
pub mod lines;
pub mod stop;
