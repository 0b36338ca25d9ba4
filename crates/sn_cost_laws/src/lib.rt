//! What plans cost by tables that count training windows: the items that they send in them, and the prefixes that are installed.
//! Laws with nothing to run.
#![tactic(auto)]

pub mod sent;
pub mod tables;
