//! The items of a switch text.
ghost use Rattle.std.specs.Prelude.{◌≡◌};
ghost use Rattle.sn_text_rules.specs.Rules.{kept};
ghost use Rattle.sn_text_rules.specs.Words.{never, judged_by};
ghost use Rattle.sn_text.specs.Lexing.{left, seen};
ghost use Rattle.sn_text.specs.Reading.{Reads, ReadsAll, EndsAll};
ghost use Rattle.sn_switch_grammar.specs.Settings.{begins, has};
ghost use Rattle.sn_switch_grammar.specs.Grammar.{is_whole, complete, end_in, end_rule, item_rule, items_rule, switch_rule};
ghost use Rattle.sn_switch_grammar.proofs.Goods.{items_alike};

use crate::numbers::numbers;
use crate::settings::{begins, has, setting};
use sn_base::seq::Seq;
use sn_switch_grammar::item::{Item, Setting};
use sn_text::list::{Items, further};
use sn_text::place::{Lexer, Piece};
use sn_text::scan::scan;
use sn_text::stop::Stop;
use sn_text::words::{symbol, wrong_of};
use sn_text_rules::Flaw;
use sn_text_rules::symbols::SEMICOLON;
use std::alloc::Global;

#[tactic(auto, unfolding(sn_switch_grammar::specs::Grammar::item_rule))]
fn item<'a>(alloc: Global, taken: &[Item], at: Lexer<'a>) -> Result<(Item, Lexer<'a>), Stop<'a>>
    ensures { Reads result ((item_rule taken.now).read kept (left at.entry)) }
{
    let (setting, rest) = setting(at, taken)?;
    let (numbers, rest) = numbers(alloc, setting, rest)?;
    let rest = symbol(rest, SEMICOLON)?;
    Ok((Item { setting, numbers }, rest))
}

/// The items of a switch text, each setting at most once.
struct SwitchItems;

impl Items for SwitchItems {
    type Item = Item;

    ghost goes = { λ items. begins };

    ghost shut = { λ items. never };

    ghost rule = { λ items. item_rule };

    ghost laws = { λ items. items_alike };

    fn begins(&self, at: Lexer<'_>) -> bool {
        begins(at)
    }

    fn shut_by(&self, _seen: &[Item]) -> Option<Flaw> {
        None
    }

    fn item<'a>(
        &self,
        alloc: Global,
        seen: &[Item],
        at: Lexer<'a>,
    ) -> Result<(Item, Lexer<'a>), Stop<'a>> {
        item(alloc, seen, at)
    }
}

#[tactic(auto, unfolding(sn_switch_grammar::specs::Grammar::items_rule))]
fn items<'a>(alloc: Global, at: Lexer<'a>) -> Result<(Seq<Item>, Lexer<'a>), Stop<'a>>
    ensures { Reads result (items_rule.read kept (left at.entry)) }
{
    further(alloc, &SwitchItems, Seq::new(alloc), at)
}

/// Whether each of the settings that every text has has its item.
fn is_whole(items: &[Item]) -> bool
    ensures { result ≡ is_whole items.now }
{
    has(items, Setting::Stages)
        && has(items, Setting::Actions)
        && has(items, Setting::Bits)
        && has(items, Setting::Meta)
        && has(items, Setting::Chain)
        && has(items, Setting::Slots)
}

fn end_of(piece: Piece<'_>, items: &[Item]) -> Result<(), Flaw>
    ensures { result ≡ judged_by (complete items.now) kept (seen piece.entry) (end_in (seen piece.entry)) }
{
    match piece {
        Piece::End => {
            if is_whole(items) {
                Ok(())
            } else {
                Err(Flaw::Missing)
            }
        }
        _ => Err(wrong_of(piece)),
    }
}

/// The end of the text after these items.
#[tactic(auto, using(crate::proofs::Leaves::end_gives, crate::proofs::Leaves::end_halts))]
fn end<'a>(at: Lexer<'a>, items: &[Item]) -> Result<(), Stop<'a>>
    ensures { EndsAll result ((end_rule items.now).read kept (left at.entry)) }
{
    let (found, _) = scan(at);
    match end_of(found.piece, items) {
        Ok(()) => Ok(()),
        Err(flaw) => Err(Stop::Fault(flaw, at)),
    }
}

/// The items of a whole text.
#[tactic(auto, unfolding(sn_switch_grammar::specs::Grammar::switch_rule))]
pub(crate) fn read<'a>(alloc: Global, at: Lexer<'a>) -> Result<Seq<Item>, Stop<'a>>
    ensures { ReadsAll result (switch_rule.read kept (left at.entry)) }
{
    let (items, rest) = items(alloc, at)?;
    end(rest, items.as_slice())?;
    Ok(items)
}
