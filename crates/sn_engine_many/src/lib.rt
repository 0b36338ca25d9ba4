//! Several switches that run one plan, each on its own packets, and answer as one.
#![tactic(auto)]

mod copies;
mod gather;
pub mod law;
pub mod many;
pub mod phase;
mod short;
mod switches;
