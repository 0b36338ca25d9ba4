//! Why a switch text is refused.

/// Out of memory, or the first fault of the text, with its line from 1.
///
/// At one token the order is that of the variants.
#[derive(Clone, Copy, Debug, PartialEq, Eq)]
pub enum SwitchFault {
    /// No token begins here, or a number is past 64 bits.
    Lex { line: u32 },
    /// No switch text goes on with this token.
    Expected { line: u32 },
    /// The number is out of its range, a size isn't above the one before it, or it is a fifth size.
    Range { line: u32 },
    /// The word of an item stands a second time.
    Twice { line: u32 },
    /// The text ends before every item has come.
    Missing { line: u32 },
    /// Out of memory.
    Memory,
}
