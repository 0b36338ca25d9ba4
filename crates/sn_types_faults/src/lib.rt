//! The walk through a file of queries: what is known at each place, and the first fault of types.
#![tactic(auto)]

mod carried;
pub mod columns;
pub mod fault;
mod faults;
pub mod names;
pub mod scope;
pub mod walk;
pub mod widths;
