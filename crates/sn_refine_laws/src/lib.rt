//! What refined answers tell of the unrefined ones, and what the refinement column of a query's rows does along its operators:
//! laws with nothing to run.
#![tactic(auto)]

pub mod carried;
pub mod counts;
pub mod law;
