//! Operators.
ghost use Rattle.std.specs.Prelude.{◌≡◌, List};
ghost use Rattle.sn_text_rules.specs.declared.symbols.TheConstants.{BAR};
ghost use Rattle.sn_text_rules.specs.declared.Flaw.{Flaw};
ghost use Rattle.sn_text_rules.specs.declared.Flaw.TheVariants.{TooMany};
ghost use Rattle.sn_text_rules.specs.Rules.{kept};
ghost use Rattle.sn_text_rules.specs.Words.{is_symbol, full};
ghost use Rattle.sn_text.specs.Lexing.{left};
ghost use Rattle.sn_text.specs.Reading.{Reads, Peeked};
ghost use Rattle.sn_query_grammar.specs.Grammar.{what_rule, op_rule, post_what_rule, post_op_rule};
ghost use Rattle.sn_query_grammar.proofs.Queries.{ops_alike, post_ops_alike};
ghost use Rattle.sn_query.specs.Parts.{ops_rule, post_rule};

use crate::conditions::filter;
use crate::folds::reduce;
use crate::maps::{map, post_map};
use crate::words::is_full_at;
use sn_base::seq::Seq;
use sn_query_grammar::ast::{Op, What};
use sn_text::list::{Items, further};
use sn_text::place::Lexer;
use sn_text::stop::Stop;
use sn_text::words::{next_is_symbol, next_is_word, symbol_line, word};
use sn_text_rules::Flaw;
use sn_text_rules::symbols::BAR;
use std::alloc::Global;

#[tactic(auto, using(crate::proofs::Picks::what_cases))]
fn what<'a>(alloc: Global, at: Lexer<'a>) -> Result<(What, Lexer<'a>), Stop<'a>>
    ensures { Reads result (what_rule.read kept (left at.entry)) }
{
    if next_is_word(at, b"filter") {
        let (conds, rest) = filter(alloc, at)?;
        return Ok((What::Filter(conds), rest));
    }
    if next_is_word(at, b"map") {
        let (cols, rest) = map(alloc, at)?;
        return Ok((What::Map(cols), rest));
    }
    if next_is_word(at, b"distinct") {
        let rest = word(at, b"distinct")?;
        return Ok((What::Distinct, rest));
    }
    let (reduce, rest) = reduce(alloc, at)?;
    Ok((What::Reduce(reduce), rest))
}

#[tactic(auto, unfolding(sn_query_grammar::specs::Grammar::op_rule))]
fn op<'a>(alloc: Global, at: Lexer<'a>) -> Result<(Op, Lexer<'a>), Stop<'a>>
    ensures { Reads result (op_rule.read kept (left at.entry)) }
{
    let (line, rest) = symbol_line(at, BAR)?;
    let (what, rest) = what(alloc, rest)?;
    Ok((Op { line, what }, rest))
}

/// The operators of a branch after its first one.
struct OpItems;

impl Items for OpItems {
    type Item = Op;

    ghost goes = { λ items. is_symbol BAR };

    ghost shut = { λ items. full 12 TooMany };

    ghost rule = { λ items taken. op_rule };

    ghost laws = { λ items. ops_alike };

    fn begins(&self, at: Lexer<'_>) -> bool {
        next_is_symbol(at, BAR)
    }

    fn shut_by(&self, taken: &[Op]) -> Option<Flaw> {
        if is_full_at(taken.len(), 12) {
            Some(Flaw::TooMany)
        } else {
            None
        }
    }

    fn item<'a>(
        &self,
        alloc: Global,
        _taken: &[Op],
        at: Lexer<'a>,
    ) -> Result<(Op, Lexer<'a>), Stop<'a>> {
        op(alloc, at)
    }
}

/// The operators of a branch, and the place after them.
pub(crate) fn ops<'a>(alloc: Global, at: Lexer<'a>) -> Result<(Seq<Op>, Lexer<'a>), Stop<'a>>
    ensures { Reads result (ops_rule.read kept (left at.entry)) }
{
    let (first, rest) = op(alloc, at)?;
    let mut items = Seq::new(alloc);
    items.push(first)?;
    further(alloc, &OpItems, items, rest)
}

#[tactic(auto, using(crate::proofs::Picks::post_what_cases))]
fn post_what<'a>(alloc: Global, at: Lexer<'a>) -> Result<(What, Lexer<'a>), Stop<'a>>
    ensures { Reads result (post_what_rule.read kept (left at.entry)) }
{
    if next_is_word(at, b"filter") {
        let (conds, rest) = filter(alloc, at)?;
        return Ok((What::Filter(conds), rest));
    }
    let (cols, rest) = post_map(alloc, at)?;
    Ok((What::Map(cols), rest))
}

#[tactic(auto, unfolding(sn_query_grammar::specs::Grammar::post_op_rule))]
fn post_op<'a>(alloc: Global, at: Lexer<'a>) -> Result<(Op, Lexer<'a>), Stop<'a>>
    ensures { Reads result (post_op_rule.read kept (left at.entry)) }
{
    let (line, rest) = symbol_line(at, BAR)?;
    let (what, rest) = post_what(alloc, rest)?;
    Ok((Op { line, what }, rest))
}

/// The operators after a join.
struct PostItems;

impl Items for PostItems {
    type Item = Op;

    ghost goes = { λ items. is_symbol BAR };

    ghost shut = { λ items. full 12 TooMany };

    ghost rule = { λ items taken. post_op_rule };

    ghost laws = { λ items. post_ops_alike };

    fn begins(&self, at: Lexer<'_>) -> bool {
        next_is_symbol(at, BAR)
    }

    fn shut_by(&self, taken: &[Op]) -> Option<Flaw> {
        if is_full_at(taken.len(), 12) {
            Some(Flaw::TooMany)
        } else {
            None
        }
    }

    fn item<'a>(
        &self,
        alloc: Global,
        _taken: &[Op],
        at: Lexer<'a>,
    ) -> Result<(Op, Lexer<'a>), Stop<'a>> {
        post_op(alloc, at)
    }
}

/// The operators after a join, and the place after them.
pub(crate) fn post<'a>(alloc: Global, at: Lexer<'a>) -> Result<(Seq<Op>, Lexer<'a>), Stop<'a>>
    ensures { Reads result (post_rule.read kept (left at.entry)) }
{
    further(alloc, &PostItems, Seq::new(alloc), at)
}
