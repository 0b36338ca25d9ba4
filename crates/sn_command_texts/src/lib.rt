//! The stages of the texts that commands read: the queries, the switch, the plan, and whether the plan fits.
#![tactic(auto)]

pub mod fit;
pub mod law;
pub mod queries;
pub mod texts;
