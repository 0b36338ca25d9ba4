//! Operators whose columns are places.

use sn_base::any_fold::AnyFold;
use sn_base::seq::Seq;
use sn_query_grammar::ast::{Cmp, Relax};

/// An operator over rows.
#[derive(Drop)]
pub enum TOp {
    /// Keeps the rows for which all conditions hold.
    Filter(Seq<TCond>),
    /// Makes each row the row of these values.
    Map(Seq<TExpr>),
    /// Keeps one of equal rows.
    Distinct,
    /// Makes one row of each key that occurs.
    Reduce(TReduce),
}

/// A condition: the column at a place, and-ed with a number, compares so with a constant.
#[derive(Drop)]
pub struct TCond {
    /// The place of the column.
    pub col: u32,
    /// The number with which the column is and-ed: all bits where the text has none.
    pub and: u128,
    pub cmp: Cmp,
    /// The constant, but for levels that have one of their own.
    pub own: u64,
    /// The constants of single levels.
    pub relaxed: Seq<Relax>,
}

/// A value that is computed from a row. The columns are named by their places.
#[derive(Clone, Copy, Debug, PartialEq, Eq)]
pub enum TExpr {
    /// A number.
    Const(u64),
    /// A column.
    Copy(u32),
    /// A column and-ed with a number.
    Mask(u32, u64),
    /// A column shifted right by this many bits, at most 63.
    Shift(u32, u32),
    /// The sum of two columns, at most 2^64 - 1.
    Sum(u32, u32),
    /// A column times a number over a column, rounded down, at most 2^64 - 1. 0 where the last column is 0.
    Ratio(u32, u64, u32),
}

/// How rows are grouped: by the columns at `keys`, with the fold of the column at `value`.
#[derive(Drop)]
pub struct TReduce {
    pub keys: Seq<u32>,
    pub value: u32,
    pub fold: AnyFold,
}

/// The places of a key of a join in the rows of the left and of the right branch.
#[derive(Clone, Copy, Debug, PartialEq, Eq)]
pub struct JoinKey {
    pub left: u32,
    pub right: u32,
}
