//! Counts the items that a branch sends of a window's rows, for every cut and all sizes of its registers.
#![tactic(auto)]

mod again;
pub mod branch;
pub mod branch_at;
mod coming;
mod counts;
mod filters;
pub mod flow;
mod grouped;
mod once;
pub mod packed;
mod passing;
mod shared;
mod sizes;
mod weighed;
