//! Filters and their conditions.
ghost use Rattle.std.specs.Prelude.{◌≡◌, List};
ghost use Rattle.sn_text_rules.specs.declared.Flaw.{Flaw};
ghost use Rattle.sn_text_rules.specs.Rules.{kept, maybe_at};
ghost use Rattle.sn_text_rules.specs.Words.{is_symbol, sign, ◌▸◌, any_number};
ghost use Rattle.sn_text.specs.Lexing.{left, seen};
ghost use Rattle.sn_text.specs.Reading.{Reads};
ghost use Rattle.sn_query_grammar.specs.Names.{past_name, past_number};
ghost use Rattle.sn_query_grammar.specs.Grammar.{relax_rule, relaxes_rule, cond_rule, filter_rule};
ghost use Rattle.sn_query_grammar.proofs.Goods.{relax_listed, cond_listed};
ghost use Rattle.sn_query.specs.Parts.{and_rule};

use crate::words::{cmp, is_full_at, name, past_name_of, past_number_of};
use sn_base::seq::Seq;
use sn_query_grammar::ast::{Cond, Relax};
use sn_text::commas::{Commas, list};
use sn_text::place::{Lexer, Piece};
use sn_text::stop::Stop;
use sn_text::words::{next_is_symbol, next_is_word, number, symbol, word};
use sn_text_rules::Flaw;
use sn_text_rules::symbols::{AND, CLOSE, COLON, OPEN};
use std::alloc::Global;

#[tactic(auto, unfolding(sn_query_grammar::specs::Grammar::relax_rule))]
fn relax<'a>(at: Lexer<'a>) -> Result<(Relax, Lexer<'a>), Stop<'a>>
    ensures { Reads result (relax_rule.read kept (left at.entry)) }
{
    let (level, rest) = number(at, 0, 128)?;
    let rest = symbol(rest, COLON)?;
    let (value, rest) = number(rest, 0, u64::MAX)?;
    Ok((
        Relax {
            level: level as u32,
            value,
        },
        rest,
    ))
}

/// The constants of a condition for coarser levels.
struct RelaxItems;

impl Commas for RelaxItems {
    type Item = Relax;

    ghost limit = { 4 };

    ghost begun = { past_number 0 128 };

    ghost rule = { λ taken. relax_rule };

    ghost laws = { relax_listed };

    fn is_full(count: usize) -> bool {
        is_full_at(count, 4)
    }

    fn past(piece: Piece<'_>) -> Flaw {
        past_number_of(piece, 0, 128)
    }

    fn item<'a>(
        _alloc: Global,
        _taken: &[Relax],
        at: Lexer<'a>,
    ) -> Result<(Relax, Lexer<'a>), Stop<'a>> {
        relax(at)
    }
}

#[tactic(auto, unfolding(sn_query_grammar::specs::Grammar::relaxes_rule), using(sn_text::proofs::Tokens::there, sn_text::proofs::Tokens::not_there))]
fn relaxes<'a>(alloc: Global, at: Lexer<'a>) -> Result<(Seq<Relax>, Lexer<'a>), Stop<'a>>
    ensures { Reads result (relaxes_rule.read kept (left at.entry)) }
{
    if !next_is_word(at, b"at") {
        return Ok((Seq::new(alloc), at));
    }
    let rest = word(at, b"at")?;
    let rest = symbol(rest, OPEN)?;
    let (relaxed, rest) = list::<RelaxItems>(alloc, rest)?;
    let rest = symbol(rest, CLOSE)?;
    Ok((relaxed, rest))
}

#[tactic(auto, using(sn_text::proofs::Tokens::there, sn_text::proofs::Tokens::not_there))]
fn and_number<'a>(at: Lexer<'a>) -> Result<(Option<u64>, Lexer<'a>), Stop<'a>>
    ensures { Reads result (and_rule.read kept (left at.entry)) }
{
    if !next_is_symbol(at, AND) {
        return Ok((None, at));
    }
    let rest = symbol(at, AND)?;
    let (number, rest) = number(rest, 0, u64::MAX)?;
    Ok((Some(number), rest))
}

#[tactic(auto, unfolding(sn_query_grammar::specs::Grammar::cond_rule))]
fn cond<'a>(alloc: Global, at: Lexer<'a>) -> Result<(Cond, Lexer<'a>), Stop<'a>>
    ensures { Reads result (cond_rule.read kept (left at.entry)) }
{
    let (name, rest) = match name(at) {
        Ok(found) => found,
        Err(stop) => return Err(stop),
    };
    let (and, rest) = and_number(rest)?;
    let (cmp, rest) = cmp(rest)?;
    let (own, rest) = number(rest, 0, u64::MAX)?;
    let (relaxed, rest) = relaxes(alloc, rest)?;
    Ok((
        Cond {
            name,
            and,
            cmp,
            own,
            relaxed,
        },
        rest,
    ))
}

/// The conditions of a filter.
struct CondItems;

impl Commas for CondItems {
    type Item = Cond;

    ghost limit = { 8 };

    ghost begun = { past_name };

    ghost rule = { λ taken. cond_rule };

    ghost laws = { cond_listed };

    fn is_full(count: usize) -> bool {
        is_full_at(count, 8)
    }

    fn past(piece: Piece<'_>) -> Flaw {
        past_name_of(piece)
    }

    fn item<'a>(
        alloc: Global,
        _taken: &[Cond],
        at: Lexer<'a>,
    ) -> Result<(Cond, Lexer<'a>), Stop<'a>> {
        cond(alloc, at)
    }
}

/// A filter, and the place after it.
#[tactic(auto, unfolding(sn_query_grammar::specs::Grammar::filter_rule))]
pub(crate) fn filter<'a>(alloc: Global, at: Lexer<'a>) -> Result<(Seq<Cond>, Lexer<'a>), Stop<'a>>
    ensures { Reads result (filter_rule.read kept (left at.entry)) }
{
    let rest = word(at, b"filter")?;
    let (conds, rest) = list::<CondItems>(alloc, rest)?;
    Ok((conds, rest))
}
