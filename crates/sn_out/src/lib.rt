//! Printed answers.
#![tactic(auto)]

pub mod block;
pub mod csv_rows;
mod fields;
pub mod lines;
pub mod pieces;
pub mod rows;
pub mod stays;
