//! Why a text is refused, and the theory of grammar rules that all text formats stand on.
//!
//! The crate has no code but one enum and the names of the symbols. `specs` says what tokens are, how a rule of a grammar spells, accepts and
//! reads values, and how rules are made of smaller ones. `proofs` shows that each way of making rules keeps the laws
//! from which a reader's contract follows: what is read is what is spelled, and the first fault stands at the first
//! token with which no text goes on.
#![tactic(auto)]

pub mod symbols;

/// Why a text is refused, the first of its faults. At one token the order is that of the variants.
///
/// A format uses those that its grammar names, and maps them to its own error type.
#[derive(Clone, Copy, Debug, PartialEq, Eq)]
pub enum Flaw {
    /// No token begins here, or a number is past 64 bits.
    Lex,
    /// The token can't stand here.
    Expected,
    /// An item past a limit begins here, or a name is too long.
    TooMany,
    /// A number is out of its range or order.
    Range,
    /// What may stand once stands a second time.
    Twice,
    /// The text ends before all that must stand in it.
    Missing,
}
