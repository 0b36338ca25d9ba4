//! A place inside a text.
ghost use Rattle.std.specs.Prelude.{◌≡◌, ◌≤◌, ◌^◌, length};
ghost use Rattle.sn_text_rules.specs.Tokens.{is_last};
ghost use Rattle.sn_text.specs.Cutting.{tokens_of};
ghost use Rattle.sn_text.specs.Lexing.{left, seen};
ghost use Rattle.sn_tree_text.specs.Places.{from_byte};

use sn_text::place::{Lexer, Piece};
use sn_text::scan::scan;

/// Whether no token stands after this one.
pub fn is_last(piece: Piece<'_>) -> bool
    ensures { result ≡ is_last (seen piece.entry) }
{
    matches!(piece, Piece::End | Piece::Bad)
}

/// The place before the first token that begins at this byte or after it, or else before the last one.
pub fn lexer_at<'a>(text: &'a [u8], byte: u64) -> Lexer<'a>
    requires { length text.now ≤ 2 ^ 30 }
    ensures { left result ≡ from_byte byte (tokens_of text.entry.now) }
{
    let mut place = Lexer::new(text);
    'tokens: loop {
        let (found, after) = scan(place);
        if u64::from(found.start) >= byte || is_last(found.piece) {
            return place;
        }
        place = after;
    }
}
