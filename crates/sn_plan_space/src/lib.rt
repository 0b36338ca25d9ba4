//! The plans of queries on a switch, as a space that is read quickly.
#![tactic(auto)]

pub mod known;
pub mod make;
pub mod place;
pub mod planning;
pub mod position;
pub mod queries;
pub mod reading;
pub mod slots;
pub mod totals;
pub mod waiting;
