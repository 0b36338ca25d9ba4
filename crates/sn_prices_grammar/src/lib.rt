//! What the text of prices holds, and its grammar with its laws.
#![tactic(auto)]

pub mod prices;
