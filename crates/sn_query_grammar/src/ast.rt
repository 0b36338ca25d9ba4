//! What a query file holds.
//!
//! Names are as they stand in the text: whether they name fields or columns is settled by the type check.
//! A `line` is the line of the item's first token, from 1.
use sn_base::name::Name;
use sn_base::seq::Seq;

/// A file: queries that are asked over windows of one length.
#[derive(Drop)]
pub struct QueryFile {
    /// The length of a window in microseconds, 1 to 3600000000.
    pub window_us: u64,
    /// One to eight queries, no two of one name.
    pub queries: Seq<Query>,
}

/// A query: one branch, or two that are joined.
#[derive(Drop)]
pub struct Query {
    pub name: Name,
    /// The field by whose prefixes the query is refined, where it is.
    pub refine: Option<Refine>,
    /// One branch, or two where there is a join.
    pub branches: Seq<Branch>,
    pub join: Option<Join>,
}

/// The field whose prefixes are looked at, and the prefix lengths.
#[derive(Drop)]
pub struct Refine {
    /// The line of the word `refine`.
    pub line: u32,
    pub field: Name,
    /// One to four prefix lengths in bits, each 0 to 128.
    pub levels: Seq<u32>,
}

/// Operators on packets, one after the other.
#[derive(Drop)]
pub struct Branch {
    /// One to twelve.
    pub ops: Seq<Op>,
}

/// The join of the two branches, and the operators after it.
#[derive(Drop)]
pub struct Join {
    /// The line of the word `join`.
    pub line: u32,
    /// One to eight columns, no two equal.
    pub keys: Seq<Name>,
    /// Up to twelve operators, filters and maps alone.
    pub post: Seq<Op>,
}

/// An operator.
#[derive(Drop)]
pub struct Op {
    /// The line of the symbol `|` before it.
    pub line: u32,
    pub what: What,
}

/// What an operator does.
#[derive(Drop)]
pub enum What {
    /// Keeps the rows for which all conditions hold, one to eight.
    Filter(Seq<Cond>),
    /// Makes new rows of one to eight columns, no two of one name.
    Map(Seq<MapCol>),
    /// Keeps one of equal rows.
    Distinct,
    /// Folds a column over the rows with equal keys.
    Reduce(Reduce),
}

/// A fold over the rows with equal keys.
#[derive(Drop)]
pub struct Reduce {
    /// One to eight columns, no two equal.
    pub keys: Seq<Name>,
    pub fold: FoldWord,
    /// The column that is folded, none of the keys.
    pub value: Name,
    /// The width of a sum in bits, 1 to 64; 0 for the other folds.
    pub width: u32,
}

/// How a column is folded.
#[derive(Clone, Copy, Debug, PartialEq, Eq)]
pub enum FoldWord {
    /// The sum, which stays at the greatest number of its width.
    Sum,
    /// The greatest number.
    Max,
    /// The least number.
    Min,
    /// The bits of all numbers.
    Or,
}

/// A condition: a column, and-ed with a number if there is one, compares so with a constant.
#[derive(Drop)]
pub struct Cond {
    pub name: Name,
    pub and: Option<u64>,
    pub cmp: Cmp,
    /// The constant at the finest level, and where no relaxed constant names the level.
    pub own: u64,
    /// Up to four constants for coarser levels.
    pub relaxed: Seq<Relax>,
}

/// The constant of a condition at one level.
#[derive(Clone, Copy, Debug, PartialEq, Eq)]
pub struct Relax {
    /// The prefix length in bits, 0 to 128.
    pub level: u32,
    pub value: u64,
}

/// A comparison of unsigned numbers.
#[derive(Clone, Copy, Debug, PartialEq, Eq)]
pub enum Cmp {
    Eq,
    Ne,
    Lt,
    Le,
    Gt,
    Ge,
}

/// A column of a map.
#[derive(Clone, Copy)]
pub struct MapCol {
    pub expr: Expr,
    /// The column's new name.
    pub name: Name,
}

/// What a column of a map holds.
#[derive(Clone, Copy)]
pub enum Expr {
    /// A number.
    Const(u64),
    /// A column as it is.
    Copy(Name),
    /// A column and-ed with a number.
    Mask(Name, u64),
    /// A column shifted right by 0 to 63 bits.
    Shift(Name, u32),
    /// The sum of two columns, after a join alone.
    Sum(Name, Name),
    /// A column times a number, divided by a column, after a join alone.
    Ratio(Name, u64, Name),
}
