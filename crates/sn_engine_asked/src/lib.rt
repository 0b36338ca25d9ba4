//! A plan at work, of which nobody asks for the answers: the engine takes what later levels admit, and no more.
#![tactic(auto)]

pub mod asked;
mod lanes;
pub mod window;
mod work;
