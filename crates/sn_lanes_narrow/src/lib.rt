//! Conditions on fields, asked of a block of tuples at a time: columns in their fields' own widths, compared in lanes.
#![tactic(auto)]

pub mod asked;
pub mod both;
pub mod column;
pub mod compare;
pub mod condition;
pub mod lane;
pub mod vectors;
