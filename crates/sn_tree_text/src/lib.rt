//! The text of trees of bounds: `parse`, which reads a cost and a tree, and `print`, which writes a tree.
#![tactic(auto)]

mod canonical;
pub mod fault;
pub mod found;
pub mod law;
mod nodes;
pub mod place;
mod text;
pub mod tree;

pub use canonical::print;
pub use text::parse;
