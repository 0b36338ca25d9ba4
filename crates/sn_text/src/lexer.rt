//! The tokens one by one.
ghost use Rattle.std.specs.Prelude.{◌≡◌, IfOk, IfErr};
ghost use Rattle.sn_text.specs.Lexing.{left, seen, kind_of, is_bad};
ghost use Rattle.sn_text.specs.Answers.{IsNext, IsBadAt, after_first};
ghost use Rattle.sn_text_rules.specs.Words.{is_finish};

use crate::place::{Lexer, Piece};
use crate::scan::scan;

/// What a token is.
#[derive(Clone, Copy, Debug, PartialEq, Eq)]
pub enum Kind {
    /// A word that begins with a letter or `_`. Its bytes are those of the text from `start` to `end`.
    Name,
    /// A word that begins with a digit: decimal, hexadecimal after `0x`, or an address of four parts.
    Number(u64),
    /// A symbol by its place in the list `{ } ; , | ( ) : & + * / == != < <= > >= >>`, from 0.
    Symbol(u8),
    /// The end of the text.
    End,
}

/// A token, and where it stands.
#[derive(Clone, Copy, Debug, PartialEq, Eq)]
pub struct Token {
    pub kind: Kind,
    /// The first byte, from 0.
    pub start: u32,
    /// The byte after the last one.
    pub end: u32,
    /// The line, from 1.
    pub line: u32,
    /// The column of the first byte, in bytes, from 1.
    pub column: u32,
}

/// A byte where no token begins, or the first byte of a number past 64 bits.
#[derive(Clone, Copy, Debug, PartialEq, Eq)]
pub struct LexFault {
    pub line: u32,
    pub column: u32,
}

fn is_bad_piece(piece: Piece<'_>) -> bool
    ensures { result ≡ is_bad (seen piece.entry) }
{
    match piece {
        Piece::Bad => true,
        _ => false,
    }
}

fn is_end_piece(piece: Piece<'_>) -> bool
    ensures { result ≡ is_finish (seen piece.entry) }
{
    match piece {
        Piece::End => true,
        _ => false,
    }
}

fn kind_in(piece: Piece<'_>) -> Kind
    ensures { result ≡ kind_of (seen piece.entry) }
{
    match piece {
        Piece::Word(_) => Kind::Name,
        Piece::Number(number) => Kind::Number(number),
        Piece::Symbol(place) => Kind::Symbol(place),
        Piece::End => Kind::End,
        Piece::Bad => Kind::End,
    }
}

impl<'a> Lexer<'a> {
    /// The next token. The last one, and a fault, come again at each later call.
    #[tactic(auto, using(crate::proofs::Lasts::bad_face, crate::proofs::Lasts::last_bad, crate::proofs::Lasts::last_finish, crate::proofs::Lasts::not_last))]
    pub fn next(&mut self) -> Result<Token, LexFault>
        // The token is the first of those left.
        ensures token { IfOk result (λ t. IsNext t (left self.old)) }
        // At a fault no token begins.
        ensures fault { IfErr result (λ e. IsBadAt e.line e.column (left self.old)) }
        ensures left { left self.new ≡ after_first (left self.old) }
    {
        let (found, after) = scan(*self);
        if is_bad_piece(found.piece) {
            return Err(LexFault {
                line: found.line,
                column: found.column,
            });
        }
        let token = Token {
            kind: kind_in(found.piece),
            start: found.start,
            end: found.end,
            line: found.line,
            column: found.column,
        };
        if is_end_piece(found.piece) {
            return Ok(token);
        }
        *self = after;
        Ok(token)
    }
}
