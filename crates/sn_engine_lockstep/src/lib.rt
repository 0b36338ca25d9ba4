//! A plan at work: what its lanes send is taken by the engine at once, window by window.
#![tactic(auto)]

pub mod driver;
mod early;
mod lanes;
pub mod law;
pub mod source;
pub mod wire;
mod work;
