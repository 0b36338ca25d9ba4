//! Which part of a query a frame belongs to.

/// One level and branch of one query of a plan.
#[derive(Clone, Copy, Debug, PartialEq, Eq)]
pub struct Lane {
    /// The query's place in the query file, from 0.
    pub query: u8,
    /// The level's place in the query's path, from 0.
    pub level: u8,
    /// The branch of the query: 0, or 1 for the right side of a join.
    pub branch: u8,
}
