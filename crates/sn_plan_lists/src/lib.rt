//! The plans that complete lists of choices name, and the choices and costs of plans.
#![tactic(auto)]

pub mod choosing;
pub mod costing;
mod front;
pub mod law;
pub mod naming;
mod numbers;
