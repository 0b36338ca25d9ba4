//! The commands that make captures from a number: `gen`, and `job`, a whole job over such captures.
#![tactic(auto)]

pub mod files;
pub mod generate;
pub mod job;
pub mod law;
pub mod made;
pub mod summary;
pub mod summing;
