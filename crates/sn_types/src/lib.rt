//! Queries with their names and widths resolved.
#![tactic(auto)]

pub mod answers;
pub mod check;
pub mod copies;
pub mod cuts;
pub mod evaluate;
mod kinds;
pub mod laws;
pub mod packet;
mod resolve;
pub mod typed;
pub mod typed_op;
pub mod typed_query;
mod typing;

pub use sn_types_faults::fault::TypeFault;
