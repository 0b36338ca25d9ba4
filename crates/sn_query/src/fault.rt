//! Why a query text is refused.
use sn_text_rules::Flaw;

/// Out of memory, or the first fault of the text, with its line and its column in bytes, both from 1.
///
/// At one token the order is that of the variants.
#[derive(Clone, Copy, Debug, PartialEq, Eq)]
pub enum ParseFault {
    /// No token begins here, or a number is past 64 bits.
    Lex { line: u32, column: u32 },
    /// No query text goes on with this token.
    Expected { line: u32, column: u32 },
    /// The item past a limit begins here, or a name has more than 32 bytes.
    TooMany { line: u32, column: u32 },
    /// The second query, column or key of one name, or a fold's column that is among its keys.
    Twice { line: u32, column: u32 },
    /// Out of memory.
    Memory,
}
