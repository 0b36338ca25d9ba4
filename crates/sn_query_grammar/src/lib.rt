//! The query language: what a query file holds, and the grammar of its text.
//!
//! The values are plain data. The grammar (`specs`) says which texts stand for which values; reading and printing
//! stand in the crate above.
#![tactic(auto)]

pub mod ast;
