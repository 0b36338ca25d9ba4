//! Entries of a plan text.
ghost use Rattle.std.specs.Prelude.{◌≡◌, codes};
ghost use Rattle.sn_text_rules.specs.declared.Flaw.TheVariants.{Expected};
ghost use Rattle.sn_text_rules.specs.Rules.{kept};
ghost use Rattle.sn_text_rules.specs.Words.{is_word, full, judged_by, word_in};
ghost use Rattle.sn_text.specs.Lexing.{left, seen};
ghost use Rattle.sn_text.specs.Reading.{Reads};
ghost use Rattle.sn_plan_grammar.specs.Grammar.{name_test, name, entry_rule, entries_rule, plan_rule};
ghost use Rattle.sn_plan_grammar.proofs.Goods.{entries_alike};
ghost use Rattle.sn_text_rules.specs.Tokens.{word_lexeme};

use crate::lists::{full_at, numbers};
use crate::pieces::pieces;
use crate::plan::{Entry, Plan};
use sn_base::name::Name;
use sn_base::seq::Seq;
use sn_text::list::{Items, further};
use sn_text::place::{Lexer, Piece};
use sn_text::scan::scan;
use sn_text::stop::Stop;
use sn_text::words::{next_is_word, symbol, word, wrong_of};
use sn_text_rules::Flaw;
use sn_text_rules::symbols::SEMICOLON;
use std::alloc::Global;

fn name_in(word: &[u8]) -> Result<Name, Flaw>
    ensures { result ≡ judged_by name_test kept (word_lexeme word.now) (word_in (word_lexeme word.now)) }
{
    match Name::new(word) {
        None => Err(Flaw::Expected),
        Some(name) => Ok(name),
    }
}

fn name_of(piece: Piece<'_>) -> Result<Name, Flaw>
    ensures { result ≡ judged_by name_test kept (seen piece.entry) (word_in (seen piece.entry)) }
{
    match piece {
        Piece::Word(word) => name_in(word),
        _ => Err(wrong_of(piece)),
    }
}

#[tactic(auto, using(crate::proofs::Leaves::name_gives, crate::proofs::Leaves::name_halts))]
fn name<'a>(at: Lexer<'a>) -> Result<(Name, Lexer<'a>), Stop<'a>>
    ensures { Reads result (name.read kept (left at.entry)) }
{
    let (found, after) = scan(at);
    match name_of(found.piece) {
        Ok(name) => Ok((name, after)),
        Err(flaw) => Err(Stop::Fault(flaw, at)),
    }
}

#[tactic(auto, unfolding(sn_plan_grammar::specs::Grammar::entry_rule))]
fn entry<'a>(alloc: Global, at: Lexer<'a>) -> Result<(Entry, Lexer<'a>), Stop<'a>>
    ensures { Reads result (entry_rule.read kept (left at.entry)) }
{
    let rest = word(at, b"query")?;
    let (name, rest) = match name(rest) {
        Ok(found) => found,
        Err(stop) => return Err(stop),
    };
    let rest = word(rest, b"path")?;
    let (levels, rest) = match numbers(alloc, 4, 0, 128, rest) {
        Ok(found) => found,
        Err(stop) => return Err(stop),
    };
    let rest = symbol(rest, SEMICOLON)?;
    let (pieces, rest) = match pieces(alloc, rest) {
        Ok(found) => found,
        Err(stop) => return Err(stop),
    };
    Ok((
        Entry {
            name,
            levels,
            pieces,
        },
        rest,
    ))
}

/// The entries of a plan.
struct EntryItems;

impl Items for EntryItems {
    type Item = Entry;

    ghost goes = { λ items. is_word (codes "query") };

    ghost shut = { λ items. full 8 Expected };

    ghost rule = { λ items seen. entry_rule };

    ghost laws = { λ items. entries_alike };

    fn begins(&self, at: Lexer<'_>) -> bool {
        next_is_word(at, b"query")
    }

    fn shut_by(&self, seen: &[Entry]) -> Option<Flaw> {
        full_at(seen.len(), 8)
    }

    fn item<'a>(
        &self,
        alloc: Global,
        _seen: &[Entry],
        at: Lexer<'a>,
    ) -> Result<(Entry, Lexer<'a>), Stop<'a>> {
        entry(alloc, at)
    }
}

#[tactic(auto, unfolding(sn_plan_grammar::specs::Grammar::entries_rule))]
fn entries<'a>(alloc: Global, at: Lexer<'a>) -> Result<(Seq<Entry>, Lexer<'a>), Stop<'a>>
    ensures { Reads result (entries_rule.read kept (left at.entry)) }
{
    let (first, rest) = entry(alloc, at)?;
    let mut entries = Seq::new(alloc);
    entries.push(first)?;
    further(alloc, &EntryItems, entries, rest)
}

/// A plan, and the place after it.
#[tactic(auto, unfolding(sn_plan_grammar::specs::Grammar::plan_rule))]
pub(crate) fn plan<'a>(alloc: Global, at: Lexer<'a>) -> Result<(Plan, Lexer<'a>), Stop<'a>>
    ensures { Reads result (plan_rule.read kept (left at.entry)) }
{
    let rest = word(at, b"plan")?;
    let (entries, rest) = entries(alloc, rest)?;
    Ok((Plan { entries }, rest))
}
