//! Tuples by column, and kernels over columns of numbers, eight lanes at a time.
#![tactic(auto)]

pub mod columns;
pub mod compare;
pub mod masks;
pub mod slots8;
