//! Lists of items, each begun by its first token.
ghost use Rattle.std.specs.Prelude.{◌≡◌, Bool, List, Option};
ghost use Rattle.sn_text_rules.specs.declared.Flaw.{Flaw};
ghost use Rattle.sn_text_rules.specs.Tokens.{Lexeme};
ghost use Rattle.sn_text_rules.specs.Rules.{Rule, kept, links};
ghost use Rattle.sn_text_rules.proofs.Series.{Alike};
ghost use Rattle.sn_text.specs.Lexing.{left};
ghost use Rattle.sn_text.specs.Reading.{Reads, Peeked};

use crate::place::Lexer;
use crate::stop::Stop;
use sn_base::seq::Seq;
use sn_text_rules::Flaw;
use std::alloc::Global;

/// The items of a list after its first one. A value may hold the limits of the list.
pub trait Items {
    type Item: Drop;

    /// The tokens that begin a further item.
    ghost goes: { Self → Lexeme → Bool };

    /// Why no further item may follow these, if so.
    ghost shut: { Self → List Self.Item → Option Flaw };

    /// The rule of a further item, by those before it.
    ghost rule: { Self → List Self.Item → Rule Self.Item };

    /// Whether a further item begins here.
    fn begins(&self, at: Lexer<'_>) -> bool
        ensures { Peeked result (goes self.now) (left at.entry) };

    /// Why no further item may follow these.
    fn shut_by(&self, seen: &[Self::Item]) -> Option<Flaw>
        ensures { result ≡ shut self.now seen.now };

    /// A further item, and the place after it.
    fn item<'a>(
        &self,
        alloc: Global,
        seen: &[Self::Item],
        at: Lexer<'a>,
    ) -> Result<(Self::Item, Lexer<'a>), Stop<'a>>
        ensures { Reads result ((rule self.now seen.now).read kept (left at.entry)) };

    ghost laws: { (items : Self) → Alike (goes items) (shut items) (rule items) };
}

/// The items and those that follow them, and the place after all.
pub fn further<'a, L: Items>(
    alloc: Global,
    list: &L,
    first: Seq<L::Item>,
    at: Lexer<'a>,
) -> Result<(Seq<L::Item>, Lexer<'a>), Stop<'a>>
    ensures { Reads result (links (L.goes list.now) (L.shut list.now) (L.rule list.now) kept first (left at.entry)) }
{
    let mut items = first;
    let mut place = at;
    'items: loop {
        if !list.begins(place) {
            return Ok((items, place));
        }
        match list.shut_by(items.as_slice()) {
            Some(flaw) => return Err(Stop::Fault(flaw, place)),
            None => {
                let (item, after) = list.item(alloc, items.as_slice(), place)?;
                items.push(item)?;
                place = after;
            }
        }
    }
}
