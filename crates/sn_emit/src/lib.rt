//! The frames of a plan's pipes.
#![tactic(auto)]

pub mod any_sender;
pub mod given;
pub mod lanes;
pub mod law;
pub mod making;
pub mod sender;
pub mod sender_of;
pub mod tables;
