//! Report frames that are read from a file, one after another.
#![tactic(auto)]

pub mod reader;
mod room;
