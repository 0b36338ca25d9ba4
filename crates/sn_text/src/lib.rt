//! The tokens of all texts: words, numbers and symbols, between blanks and comments; and reading a text by the rules of its
//! grammar: single tokens, and lists of items.
//!
//! A reading function takes the place where it begins and gives its value and the place after it, or stops. Its
//! clause is one equation: what it gives is what its rule reads from the tokens left at that place.
#![tactic(auto)]

pub mod commas;
pub mod lexer;
pub mod list;
pub mod numbers;
pub mod place;
pub mod scan;
pub mod stop;
pub mod token_laws;
pub mod words;
