//! A switch whose lanes hold frames, and an engine that takes them: one net, whose events come in any order.
#![tactic(auto)]

pub mod any_holder;
pub mod calls;
pub mod fault;
pub mod holder;
pub mod holder_of;
mod lanes;
mod making;
pub mod marks;
mod needs;
pub mod net;
pub mod plans;
mod prefixes;
pub mod ring_of;
mod steps;
