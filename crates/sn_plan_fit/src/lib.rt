//! What fits: whether a plan can run in a switch.
#![tactic(auto)]

pub mod laws;
pub mod loads;
pub mod metadata;
pub mod misfit;
pub mod order;
mod path;
pub mod piece;
mod whole;
pub mod width;

pub use path::{level_before, place_in};
pub use whole::{fits, shape};
