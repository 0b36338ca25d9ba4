//! Whether prices stand after a plan.
ghost use Rattle.std.specs.Prelude.{◌≡◌, ◌≤◌, ◌^◌, [], length, IfSome, None};
ghost use Rattle.sn_text.specs.Cutting.{tokens_of};
ghost use Rattle.sn_text.specs.Lexing.{left};
ghost use Rattle.sn_tree_text.specs.Places.{from_byte};
ghost use Rattle.sn_prices_text.specs.Announced.{after_first, has_prices};

use sn_text::place::Lexer;
use sn_text::scan::scan;
use sn_text::words::next_is_word;
use sn_tree_text::place::{is_last, lexer_at};

/// The place after the next token. `None` where the next one is the last.
fn after_first(at: Lexer<'_>) -> Option<Lexer<'_>>
    ensures some { IfSome result (λ rest. left rest ≡ after_first (left at.entry)) }
    ensures none { result ≡ None → after_first (left at.entry) ≡ [] }
{
    let (found, rest) = scan(at);
    if is_last(found.piece) {
        None
    } else {
        Some(rest)
    }
}

/// Whether the fourth token from a byte of a text on is the word `prices`, as after a cost. What stands around it isn't tested.
///
/// `from` is the byte, from 0, where the word `cost` stands, as the reader of a plan gives it. The text has at most 2^30 bytes.
pub fn has_prices(text: &[u8], from: u64) -> bool
    requires { length text.now ≤ 2 ^ 30 }
    ensures { result ≡ has_prices (from_byte from (tokens_of text.now)) }
{
    let first = lexer_at(text, from);
    let Some(second) = after_first(first) else {
        return false;
    };
    let Some(third) = after_first(second) else {
        return false;
    };
    let Some(fourth) = after_first(third) else {
        return false;
    };
    next_is_word(fourth, b"prices")
}
