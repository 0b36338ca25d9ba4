//! Tables and sets of rows. Short rows are held as one number each.
#![tactic(auto)]

mod entries;
mod keys;
pub mod narrow;
mod number_key;
pub mod numbers;
pub mod rows;
pub mod table;
