//! Query files: the text read, and its types checked.
#![tactic(auto)]

pub mod fault;
pub mod law;
pub mod read;
