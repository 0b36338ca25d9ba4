//! Plans: which part of each query runs in the switch, and where.
#![tactic(auto)]

pub use sn_plan_fit::{fits, laws, misfit, shape};
pub use sn_plan_grammar::{plan, short};

mod canonical;
mod entries;
pub mod fault;
pub mod law;
mod lists;
mod pieces;
mod text;

pub use canonical::print;
pub use text::parse;
