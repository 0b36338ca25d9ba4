//! Lists with commas between the items, up to a limit.
ghost use Rattle.std.specs.Prelude.{◌≡◌, ℕ, List, [], nat_le};
ghost use Rattle.sn_text_rules.specs.declared.symbols.TheConstants.{COMMA};
ghost use Rattle.sn_text_rules.specs.declared.Flaw.{Flaw};
ghost use Rattle.sn_text_rules.specs.Tokens.{Lexeme};
ghost use Rattle.sn_text_rules.specs.Rules.{Rule, kept, links};
ghost use Rattle.sn_text_rules.specs.Words.{is_symbol, never, after_comma, commas};
ghost use Rattle.sn_text_rules.proofs.Words.{Listed};
ghost use Rattle.sn_text.specs.Lexing.{left, seen};
ghost use Rattle.sn_text.specs.Reading.{Reads};

use crate::place::{Lexer, Piece};
use crate::scan::scan;
use crate::stop::Stop;
use crate::words::is_the_symbol;
use sn_base::seq::Seq;
use sn_text_rules::Flaw;
use sn_text_rules::symbols::COMMA;
use std::alloc::Global;

/// The items of a list with commas.
pub trait Commas {
    type Item: Drop;

    /// How many items there may be.
    ghost limit: { ℕ };

    /// What stands where a further item would begin, after as many.
    ghost begun: { Lexeme → Flaw };

    /// The rule of an item, by those before it.
    ghost rule: { List Self.Item → Rule Self.Item };

    /// Whether no further item may follow this many.
    fn is_full(count: usize) -> bool
        ensures { result ≡ nat_le limit count };

    /// What is wrong with a further item that begins so.
    fn past(piece: Piece<'_>) -> Flaw
        ensures { result ≡ begun (seen piece.entry) };

    /// An item, and the place after it.
    fn item<'a>(
        alloc: Global,
        taken: &[Self::Item],
        at: Lexer<'a>,
    ) -> Result<(Self::Item, Lexer<'a>), Stop<'a>>
        ensures { Reads result ((rule taken.now).read kept (left at.entry)) };

    ghost laws: { Listed begun rule };
}

fn more<'a, L: Commas>(
    alloc: Global,
    first: Seq<L::Item>,
    at: Lexer<'a>,
) -> Result<(Seq<L::Item>, Lexer<'a>), Stop<'a>>
    ensures { Reads result (links (is_symbol COMMA) never (after_comma L.limit L.begun L.rule) kept first (left at.entry)) }
{
    let mut items = first;
    let mut place = at;
    'items: loop {
        let (found, after) = scan(place);
        if !is_the_symbol(found.piece, COMMA) {
            return Ok((items, place));
        }
        if L::is_full(items.as_slice().len()) {
            let (next, _) = scan(after);
            return Err(Stop::Fault(L::past(next.piece), after));
        }
        let (item, rest) = L::item(alloc, items.as_slice(), after)?;
        items.push(item)?;
        place = rest;
    }
}

/// A list with commas, and the place after it.
pub fn list<'a, L: Commas>(
    alloc: Global,
    at: Lexer<'a>,
) -> Result<(Seq<L::Item>, Lexer<'a>), Stop<'a>>
    ensures { Reads result ((commas L.limit L.begun L.rule).read kept (left at.entry)) }
{
    let mut items = Seq::new(alloc);
    let (item, rest) = L::item(alloc, items.as_slice(), at)?;
    items.push(item)?;
    more::<L>(alloc, items, rest)
}
