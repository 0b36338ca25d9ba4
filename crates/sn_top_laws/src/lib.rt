//! What the definitions of typed queries mean, said another way, what `finish` makes of what `emit` writes, what `check` and `run` make of
//! what `plan` writes, and what a trace adds: laws with nothing to run, for readers. No crate stands on them.
#![tactic(auto)]

pub mod bags;
pub mod cuts;
pub mod levels;
pub mod pipes;
pub mod replayed;
pub mod shifts;
pub mod traced;
pub mod written;
