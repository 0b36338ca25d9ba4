//! Why a plan text is refused.

/// Out of memory, or the first fault of the text, with its line from 1.
///
/// At one token the order is that of the variants.
#[derive(Clone, Copy, Debug, PartialEq, Eq)]
pub enum PlanFault {
    /// No token begins here, or a number is past 64 bits.
    Lex { line: u32 },
    /// No plan text goes on with this token. It may be a number out of its range, or an item past a limit.
    Expected { line: u32 },
    /// Out of memory.
    Memory,
}
