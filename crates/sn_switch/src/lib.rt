//! The switch text: the limits of a switch, and `parse`, which reads them.
#![tactic(auto)]

pub mod fault;
pub mod law;
mod numbers;
mod read;
mod settings;
pub mod switch;
mod text;

pub use text::parse;
