//! Single tokens.
ghost use Rattle.std.specs.Prelude.{◌≡◌, ◌≤◌, IfOk};
ghost use Rattle.sn_text_rules.specs.Rules.{kept, past_at};
ghost use Rattle.sn_text_rules.specs.Words.{wrong, is_word, is_symbol, is_number, is_finish, keyword, sign, the_end, line_of_word, line_of_sign, number_in};
ghost use Rattle.sn_text_rules.specs.Words.{in_range, number_at, judged_by};
ghost use Rattle.sn_text.specs.Lexing.{left, seen};
ghost use Rattle.sn_text.specs.Reading.{Halts, Reads, Passes, EndsAll, Peeked};

use crate::place::{Lexer, Piece};
use crate::scan::scan;
use crate::stop::Stop;
use sn_text_rules::Flaw;

/// What is wrong with a token that can't stand where it stands.
pub fn wrong_of(piece: Piece<'_>) -> Flaw
    ensures { result ≡ wrong (seen piece.entry) }
{
    match piece {
        Piece::Bad => Flaw::Lex,
        _ => Flaw::Expected,
    }
}

pub fn is_the_word(piece: Piece<'_>, text: &[u8]) -> bool
    ensures { result ≡ is_word text.now (seen piece.entry) }
{
    match piece {
        Piece::Word(word) => word == text,
        _ => false,
    }
}

pub fn is_the_symbol(piece: Piece<'_>, place: u8) -> bool
    ensures { result ≡ is_symbol place (seen piece.entry) }
{
    match piece {
        Piece::Symbol(other) => other == place,
        _ => false,
    }
}

pub fn is_a_number(piece: Piece<'_>) -> bool
    ensures { result ≡ is_number (seen piece.entry) }
{
    match piece {
        Piece::Number(_) => true,
        _ => false,
    }
}

fn is_the_end(piece: Piece<'_>) -> bool
    ensures { result ≡ is_finish (seen piece.entry) }
{
    match piece {
        Piece::End => true,
        _ => false,
    }
}

/// After this word.
#[tactic(auto, using(crate::proofs::Tokens::word_gives, crate::proofs::Tokens::word_halts))]
pub fn word<'a>(at: Lexer<'a>, text: &[u8]) -> Result<Lexer<'a>, Stop<'a>>
    ensures { Passes result ((keyword text.now).read kept (left at.entry)) }
{
    let (found, after) = scan(at);
    if is_the_word(found.piece, text) {
        Ok(after)
    } else {
        Err(Stop::Fault(wrong_of(found.piece), at))
    }
}

/// After this symbol, by its place in the list of symbols.
#[tactic(auto, using(crate::proofs::Tokens::symbol_gives, crate::proofs::Tokens::symbol_halts))]
pub fn symbol<'a>(at: Lexer<'a>, place: u8) -> Result<Lexer<'a>, Stop<'a>>
    ensures { Passes result ((sign place).read kept (left at.entry)) }
{
    let (found, after) = scan(at);
    if is_the_symbol(found.piece, place) {
        Ok(after)
    } else {
        Err(Stop::Fault(wrong_of(found.piece), at))
    }
}

/// The line of this word, and the place after it.
#[tactic(auto, using(crate::proofs::Tokens::word_line_gives, crate::proofs::Tokens::word_line_halts))]
pub fn word_line<'a>(at: Lexer<'a>, text: &[u8]) -> Result<(u32, Lexer<'a>), Stop<'a>>
    ensures { Reads result ((line_of_word text.now).read kept (left at.entry)) }
{
    let (found, after) = scan(at);
    if is_the_word(found.piece, text) {
        Ok((found.line, after))
    } else {
        Err(Stop::Fault(wrong_of(found.piece), at))
    }
}

/// The line of this symbol, and the place after it.
#[tactic(auto, using(crate::proofs::Tokens::symbol_line_gives, crate::proofs::Tokens::symbol_line_halts))]
pub fn symbol_line<'a>(at: Lexer<'a>, place: u8) -> Result<(u32, Lexer<'a>), Stop<'a>>
    ensures { Reads result ((line_of_sign place).read kept (left at.entry)) }
{
    let (found, after) = scan(at);
    if is_the_symbol(found.piece, place) {
        Ok((found.line, after))
    } else {
        Err(Stop::Fault(wrong_of(found.piece), at))
    }
}

/// The end of the text.
#[tactic(auto, using(crate::proofs::Tokens::end_gives, crate::proofs::Tokens::end_halts))]
pub fn end<'a>(at: Lexer<'a>) -> Result<(), Stop<'a>>
    ensures { EndsAll result (the_end.read kept (left at.entry)) }
{
    let (found, after) = scan(at);
    if is_the_end(found.piece) {
        Ok(())
    } else {
        Err(Stop::Fault(wrong_of(found.piece), at))
    }
}

fn number_of(piece: Piece<'_>, low: u64, high: u64) -> Result<u64, Flaw>
    ensures value { result ≡ judged_by (in_range low high) kept (seen piece.entry) (number_at (seen piece.entry)) }
    ensures range { IfOk result (λ n. (low ≤ n) × (n ≤ high)) }
{
    match piece {
        Piece::Number(number) => {
            if number >= low && number <= high {
                Ok(number)
            } else {
                Err(Flaw::Expected)
            }
        }
        _ => Err(wrong_of(piece)),
    }
}

/// A number from `low` to `high`, and the place after it.
#[tactic(auto, using(crate::proofs::Tokens::number_gives, crate::proofs::Tokens::number_halts))]
pub fn number<'a>(at: Lexer<'a>, low: u64, high: u64) -> Result<(u64, Lexer<'a>), Stop<'a>>
    ensures value { Reads result ((number_in low high).read kept (left at.entry)) }
    ensures range { IfOk result (λ x. (low ≤ x.0) × (x.0 ≤ high)) }
{
    let (found, after) = scan(at);
    match number_of(found.piece, low, high) {
        Ok(number) => Ok((number, after)),
        Err(flaw) => Err(Stop::Fault(flaw, at)),
    }
}

/// Whether this word comes next.
#[tactic(auto, using(crate::proofs::Tokens::peeked))]
pub fn next_is_word(at: Lexer<'_>, text: &[u8]) -> bool
    ensures { Peeked result (is_word text.now) (left at.entry) }
{
    let (found, _) = scan(at);
    is_the_word(found.piece, text)
}

/// Whether this symbol comes next.
#[tactic(auto, using(crate::proofs::Tokens::peeked))]
pub fn next_is_symbol(at: Lexer<'_>, place: u8) -> bool
    ensures { Peeked result (is_symbol place) (left at.entry) }
{
    let (found, _) = scan(at);
    is_the_symbol(found.piece, place)
}

/// Whether a number comes next.
#[tactic(auto, using(crate::proofs::Tokens::peeked))]
pub fn next_is_number(at: Lexer<'_>) -> bool
    ensures { Peeked result is_number (left at.entry) }
{
    let (found, _) = scan(at);
    is_a_number(found.piece)
}
