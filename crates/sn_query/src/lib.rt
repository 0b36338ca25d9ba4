//! The query text: `parse` reads it, and `print` writes it.
#![tactic(auto)]

pub use sn_query_grammar::ast;
pub use sn_query_print::print;

mod conditions;
pub mod fault;
mod folds;
mod maps;
mod ops;
pub mod parse;
mod queries;
mod words;
