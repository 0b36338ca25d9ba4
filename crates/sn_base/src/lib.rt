//! Values that every crate above speaks of: rows, names, lists, schemas, folds, slots, prefix sets, links,
//! lanes, and being out of memory.
#![tactic(auto)]

pub mod any_fold;
pub mod any_row;
pub mod bytes;
pub mod column;
pub mod columns;
pub mod fold;
pub mod lane;
pub mod link;
pub mod mask;
pub mod members;
pub mod memory;
pub mod name;
pub mod number;
pub mod row;
pub mod row_list;
pub mod row_seq;
pub mod schema;
pub mod seed;
pub mod seq;
pub mod short_row;
pub mod slot;
