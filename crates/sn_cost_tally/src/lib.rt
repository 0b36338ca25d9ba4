//! Distinct keys of rows, how often each comes, and which of them find room in registers of a size.
#![tactic(auto)]

pub mod firsts;
mod folds;
pub mod groups;
pub mod kept;
pub mod largest;
pub mod marks;
pub mod numbered;
pub mod regroup;
mod renumbered;
pub mod room;
pub mod seats;
pub mod tally;
mod weights;
