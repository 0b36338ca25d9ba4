//! What stands at a place of a text: blanks and comments are skipped, and one token is cut off.
ghost use Rattle.std.specs.Prelude.{◌≡◌, ◌+◌, ◌≤◌, ◌<◌, ◌^◌, [], ◌∷◌, length, if◌then◌else◌};
ghost use Rattle.sn_text.specs.Cutting.{long_symbol, short_symbol, short_lexeme, number_lexeme, number_of, tokens_of, symbol_at, lexeme_at, gap, following, skip};
ghost use Rattle.sn_text.specs.Cutting.{tok_at, after_at, is_last};
ghost use Rattle.sn_text.specs.Lexing.{place, left, seen, token_of};

use crate::numbers::{is_digit_byte, is_name_byte, number_in, word_len};
use crate::place::{Lexer, Piece};

fn long_symbol_of(a: u8, b: u8) -> Option<u8>
    ensures { result ≡ long_symbol a b }
{
    if a == b'=' && b == b'=' {
        Some(12)
    } else if a == b'!' && b == b'=' {
        Some(13)
    } else if a == b'<' && b == b'=' {
        Some(15)
    } else if a == b'>' && b == b'=' {
        Some(17)
    } else if a == b'>' && b == b'>' {
        Some(18)
    } else {
        None
    }
}

fn short_symbol_of(a: u8) -> Option<u8>
    ensures { result ≡ short_symbol a }
{
    match a {
        b'{' => Some(0),
        b'}' => Some(1),
        b';' => Some(2),
        b',' => Some(3),
        b'|' => Some(4),
        b'(' => Some(5),
        b')' => Some(6),
        b':' => Some(7),
        b'&' => Some(8),
        b'+' => Some(9),
        b'*' => Some(10),
        b'/' => Some(11),
        b'<' => Some(14),
        b'>' => Some(16),
        _ => None,
    }
}

fn short_at(a: u8) -> (Piece<'static>, usize)
    ensures value { (seen result.0, result.1) ≡ short_lexeme (short_symbol a) }
    ensures within { result.1 ≤ 1 }
{
    match short_symbol_of(a) {
        None => (Piece::Bad, 0),
        Some(k) => (Piece::Symbol(k), 1),
    }
}

fn symbol_of(bytes: &[u8]) -> (Piece<'_>, usize)
    ensures value { (seen result.0, result.1) ≡ symbol_at bytes.now }
    ensures within { result.1 ≤ length bytes.now }
{
    match bytes {
        [] => (Piece::End, 0),
        [a] => short_at(*a),
        [a, b, ..] => match long_symbol_of(*a, *b) {
            None => short_at(*a),
            Some(k) => (Piece::Symbol(k), 2),
        },
    }
}

fn number_piece<'a>(word: &[u8]) -> Piece<'a>
    ensures { seen result ≡ number_lexeme (number_of word.now) }
{
    match number_in(word) {
        None => Piece::Bad,
        Some(n) => Piece::Number(n),
    }
}

#[tactic(auto, unfolding(crate::specs::Cutting::lexeme_at))]
fn piece_at(bytes: &[u8]) -> (Piece<'_>, usize)
    ensures value { (seen result.0, result.1) ≡ lexeme_at bytes.now }
    ensures within { result.1 ≤ length bytes.now }
{
    match bytes {
        [] => (Piece::End, 0),
        [first, ..] => {
            if is_digit_byte(*first) {
                let len = word_len(bytes);
                (number_piece(bytes.split_at(len).0), len)
            } else if is_name_byte(*first) {
                let len = word_len(bytes);
                (Piece::Word(bytes.split_at(len).0), len)
            } else {
                symbol_of(bytes)
            }
        }
    }
}

fn gap_of(inside: bool, b: u8) -> Option<bool>
    ensures { result ≡ gap inside b }
{
    if b == b'\n' {
        Some(false)
    } else if inside {
        Some(true)
    } else if b == b' ' || b == b'\t' || b == b'\r' {
        Some(false)
    } else if b == b'#' {
        Some(true)
    } else {
        None
    }
}

fn step<'a>(at: Lexer<'a>, b: u8, after: &'a [u8]) -> Lexer<'a>
    requires { length at.rest.now ≡ length after.now + 1 }
    ensures { place result ≡ following b (place at.entry) after.entry.now }
{
    if b == b'\n' {
        Lexer {
            rest: after,
            start: at.start + 1,
            line: at.line + 1,
            column: 1,
        }
    } else {
        Lexer {
            rest: after,
            start: at.start + 1,
            line: at.line,
            column: at.column + 1,
        }
    }
}

fn skipped<'a>(from: Lexer<'a>) -> Lexer<'a>
    ensures { place result ≡ skip (place from.entry) }
{
    let mut at = from;
    let mut inside = false;
    while let [first, after @ ..] = at.rest {
        match gap_of(inside, *first) {
            None => return at,
            Some(on) => {
                inside = on;
                at = step(at, *first, after);
            }
        }
    }
    at
}

/// What stands at a place, and where: its first byte, the one after it, its line and its column.
#[derive(Clone, Copy)]
pub struct Found<'a> {
    pub piece: Piece<'a>,
    pub start: u32,
    pub end: u32,
    pub line: u32,
    pub column: u32,
}

fn scan_at<'a>(from: Lexer<'a>) -> (Found<'a>, Lexer<'a>)
    ensures token { token_of result.0 ≡ tok_at (skip (place from.entry)) }
    ensures after { place result.1 ≡ after_at (skip (place from.entry)) }
{
    let at = skipped(from);
    let (piece, len) = piece_at(at.rest);
    let found = Found {
        piece,
        start: at.start,
        end: at.start + len as u32,
        line: at.line,
        column: at.column,
    };
    let after = Lexer {
        rest: at.rest.split_at(len).1,
        start: at.start + len as u32,
        line: at.line,
        column: at.column + len as u32,
    };
    (found, after)
}

/// What stands next, and the lexer after it.
pub fn scan<'a>(from: Lexer<'a>) -> (Found<'a>, Lexer<'a>)
    ensures { left from.entry ≡ token_of result.0 ∷ (if is_last (seen result.0.piece) then [] else left result.1) }
{
    scan_at(from)
}

impl<'a> Lexer<'a> {
    /// The lexer at the front of a text.
    pub fn new(text: &'a [u8]) -> Lexer<'a>
        requires { length text.now ≤ 2 ^ 30 }
        ensures { left result ≡ tokens_of text.entry.now }
    {
        Lexer {
            rest: text,
            start: 0,
            line: 1,
            column: 1,
        }
    }
}
