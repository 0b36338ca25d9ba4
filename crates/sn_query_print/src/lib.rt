//! The canonical text of a query file.
#![tactic(auto)]

mod conditions;
mod lists;
mod maps;
mod ops;
pub mod print;
pub mod printer;
mod queries;
