//! The training capture of a plan: its tuples, window by window, which are taken from it while it is read.
#![tactic(auto)]

mod collected;
pub mod law;
pub mod read;
mod taking;
