//! Why a file of queries isn't well typed.

/// The fault of the first place that has one. At one place it is the first of these.
#[derive(Clone, Copy, Debug, PartialEq, Eq)]
pub enum TypeFault {
    /// A name that stands for a field isn't one.
    UnknownField { line: u32 },
    /// A name that stands for a column isn't one.
    UnknownColumn { line: u32 },
    /// A ninth field is read, a fold's column is wider than 64 bits or a sum's than its width, an operand of a sum of columns or of
    /// a ratio is wider than 64 bits, or a joined row has more than eight columns.
    TooWide { line: u32 },
    /// A distinct or a reduce stands before the branch's first map.
    NoMap { line: u32 },
    /// The refinement field isn't carried on.
    RefineLost { line: u32 },
    /// The refinement field or the column that carries it is read for another purpose.
    RefineFilter { line: u32 },
    /// The levels of a refine line or of a relaxed constant aren't lawful.
    Levels { line: u32 },
    /// The keys of a join aren't columns of both branches with equal widths, or another column is in both.
    JoinKeys { line: u32 },
    /// Memory ran out.
    Memory,
}
