//! Why a query file is refused.

/// What is wrong with a query file: a fault of its text (the first four) or of its types.
#[derive(Clone, Copy, Debug, PartialEq, Eq)]
pub enum Kind {
    /// No token begins here, or a number is past 64 bits.
    Lex,
    /// No query text goes on with this token.
    Expected,
    /// The item past a limit begins here, or a name has more than 32 bytes.
    TooMany,
    /// The second query, column or key of one name, or a fold's column that is among its keys.
    Twice,
    /// A name that stands for a field isn't one.
    UnknownField,
    /// A name that stands for a column isn't one.
    UnknownColumn,
    /// A ninth field is read, a sum's column is wider than its width, or a joined row has more than eight columns.
    TooWide,
    /// A distinct or a reduce stands before the branch's first map.
    NoMap,
    /// The refinement field isn't carried on.
    RefineLost,
    /// The refinement field or the column that carries it is read for another purpose.
    RefineFilter,
    /// The levels of a refine line or of a relaxed constant aren't lawful.
    Levels,
    /// The keys of a join aren't columns of both branches with equal widths, or another column is in both.
    JoinKeys,
}

/// What is wrong with a query file, and in which line, from 1.
#[derive(Clone, Copy, Debug, PartialEq, Eq)]
pub struct QueryFault {
    pub kind: Kind,
    pub line: u32,
}

/// Why a query file isn't read.
#[derive(Clone, Copy, Debug, PartialEq, Eq)]
pub enum Refused {
    Fault(QueryFault),
    /// Out of memory.
    Memory,
}
