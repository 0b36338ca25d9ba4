//! Why the text of a cost and prices is refused.

/// Out of memory, or the first fault of the text, with its line from 1.
///
/// At one token the order is that of the variants.
#[derive(Clone, Copy, Debug, PartialEq, Eq)]
pub enum PricesFault {
    /// No token begins here, or a number is past 64 bits.
    Lex { line: u32 },
    /// No text of a cost and prices goes on with this token.
    Expected { line: u32 },
    /// Out of memory.
    Memory,
}
