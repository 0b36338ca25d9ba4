//! What a plan says: which part of each query runs in the switch, and where.

use crate::short::Short;
use sn_base::name::Name;
use sn_base::seq::Seq;

/// An entry for each query, by its number.
#[derive(Drop)]
pub struct Plan {
    pub entries: Seq<Entry>,
}

/// How a query is asked.
#[derive(Drop)]
pub struct Entry {
    /// The name of the query.
    pub name: Name,
    /// The path: the levels at which the query is asked, 0 for the one level of a query without refinement.
    pub levels: Short,
    /// A piece for each level of the path and each branch.
    pub pieces: Seq<Piece>,
}

/// What the switch does for a branch at a level.
#[derive(Drop)]
pub struct Piece {
    /// The level, 0 to 128.
    pub level: u32,
    /// The branch, 0 or 1.
    pub branch: u32,
    /// How many of the branch's operators run in the switch, 0 to 12.
    pub cut: u32,
    /// The size of the registers of each distinct and reduce among them, in slots.
    pub slots: Short,
    /// The stage of each register, in order.
    pub stages: Short,
}
