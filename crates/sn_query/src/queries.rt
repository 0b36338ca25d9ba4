//! Queries and their parts.
ghost use Rattle.std.specs.Prelude.{◌≡◌, List, IfOk};
ghost use Rattle.sn_text_rules.specs.declared.Flaw.{Flaw};
ghost use Rattle.sn_text_rules.specs.declared.Flaw.TheVariants.{TooMany};
ghost use Rattle.std.specs.Prelude.{codes};
ghost use Rattle.sn_text_rules.specs.Rules.{kept};
ghost use Rattle.sn_text_rules.specs.Words.{is_word, full};
ghost use Rattle.sn_text.specs.Lexing.{left};
ghost use Rattle.sn_text.specs.Reading.{Reads, Peeked};
ghost use Rattle.sn_query_grammar.specs.Names.{past_number};
ghost use Rattle.sn_query_grammar.specs.Grammar.{levels_rule, refine_rule, branch_rule, join_rule, body_rule, with_body, query_rule, query_names};
ghost use Rattle.sn_query_grammar.proofs.Queries.{levels_listed, queries_alike};
ghost use Rattle.sn_query.specs.Parts.{refined_rule, joined_rule, second_rule, queries_rule, level_rule};

use crate::folds::keys;
use crate::ops::{ops, post};
use crate::words::{is_full_at, name, new_query_name, past_number_of};
use sn_base::memory::Memory;
use sn_base::name::Name;
use sn_base::seq::Seq;
use sn_query_grammar::ast::{Branch, Join, Query, Refine};
use sn_text::commas::{Commas, list};
use sn_text::list::{Items, further};
use sn_text::place::{Lexer, Piece};
use sn_text::stop::Stop;
use sn_text::words::{next_is_word, number, symbol, word, word_line};
use sn_text_rules::Flaw;
use sn_text_rules::symbols::{CLOSE_BRACE, COLON, OPEN_BRACE, SEMICOLON};
use std::alloc::Global;

fn level<'a>(at: Lexer<'a>) -> Result<(u32, Lexer<'a>), Stop<'a>>
    ensures { Reads result (level_rule.read kept (left at.entry)) }
{
    let (level, rest) = number(at, 0, 128)?;
    Ok((level as u32, rest))
}

/// The levels of a refinement.
struct LevelItems;

impl Commas for LevelItems {
    type Item = u32;

    ghost limit = { 4 };

    ghost begun = { past_number 0 128 };

    ghost rule = { λ taken. level_rule };

    ghost laws = { levels_listed };

    fn is_full(count: usize) -> bool {
        is_full_at(count, 4)
    }

    fn past(piece: Piece<'_>) -> Flaw {
        past_number_of(piece, 0, 128)
    }

    fn item<'a>(
        _alloc: Global,
        _taken: &[u32],
        at: Lexer<'a>,
    ) -> Result<(u32, Lexer<'a>), Stop<'a>> {
        level(at)
    }
}

#[tactic(auto, unfolding(sn_query_grammar::specs::Grammar::levels_rule))]
fn levels<'a>(alloc: Global, at: Lexer<'a>) -> Result<(Seq<u32>, Lexer<'a>), Stop<'a>>
    ensures { Reads result (levels_rule.read kept (left at.entry)) }
{
    list::<LevelItems>(alloc, at)
}

#[tactic(auto, unfolding(sn_query_grammar::specs::Grammar::refine_rule))]
fn refine<'a>(alloc: Global, at: Lexer<'a>) -> Result<(Refine, Lexer<'a>), Stop<'a>>
    ensures { Reads result (refine_rule.read kept (left at.entry)) }
{
    let (line, rest) = word_line(at, b"refine")?;
    let (field, rest) = match name(rest) {
        Ok(found) => found,
        Err(stop) => return Err(stop),
    };
    let rest = symbol(rest, COLON)?;
    let (levels, rest) = levels(alloc, rest)?;
    let rest = symbol(rest, SEMICOLON)?;
    Ok((
        Refine {
            line,
            field,
            levels,
        },
        rest,
    ))
}

#[tactic(auto, using(crate::proofs::BodyParts::refined, crate::proofs::BodyParts::refined_halts, crate::proofs::BodyParts::not_refined))]
fn maybe_refine<'a>(alloc: Global, at: Lexer<'a>) -> Result<(Option<Refine>, Lexer<'a>), Stop<'a>>
    ensures { Reads result (refined_rule.read kept (left at.entry)) }
{
    if !next_is_word(at, b"refine") {
        return Ok((None, at));
    }
    let (refine, rest) = refine(alloc, at)?;
    Ok((Some(refine), rest))
}

#[tactic(auto, unfolding(sn_query_grammar::specs::Grammar::branch_rule))]
fn branch<'a>(alloc: Global, at: Lexer<'a>) -> Result<(Branch, Lexer<'a>), Stop<'a>>
    ensures { Reads result (branch_rule.read kept (left at.entry)) }
{
    let rest = word(at, b"packets")?;
    let (ops, rest) = ops(alloc, rest)?;
    let rest = symbol(rest, SEMICOLON)?;
    Ok((Branch { ops }, rest))
}

#[tactic(auto, unfolding(sn_query_grammar::specs::Grammar::join_rule))]
fn join<'a>(alloc: Global, at: Lexer<'a>) -> Result<(Join, Lexer<'a>), Stop<'a>>
    ensures { Reads result (join_rule.read kept (left at.entry)) }
{
    let (line, rest) = word_line(at, b"join")?;
    let (keys, rest) = keys(alloc, rest)?;
    let (post, rest) = post(alloc, rest)?;
    let rest = symbol(rest, SEMICOLON)?;
    Ok((Join { line, keys, post }, rest))
}

/// The second branch and the join.
fn joined<'a>(alloc: Global, at: Lexer<'a>) -> Result<((Branch, Join), Lexer<'a>), Stop<'a>>
    ensures { Reads result (joined_rule.read kept (left at.entry)) }
{
    let (branch, rest) = branch(alloc, at)?;
    let (join, rest) = join(alloc, rest)?;
    Ok(((branch, join), rest))
}

#[tactic(auto, using(crate::proofs::BodyParts::second, crate::proofs::BodyParts::second_halts, crate::proofs::BodyParts::no_second))]
fn maybe_joined<'a>(
    alloc: Global,
    at: Lexer<'a>,
) -> Result<(Option<(Branch, Join)>, Lexer<'a>), Stop<'a>>
    ensures { Reads result (second_rule.read kept (left at.entry)) }
{
    if !next_is_word(at, b"packets") {
        return Ok((None, at));
    }
    let (second, rest) = joined(alloc, at)?;
    Ok((Some(second), rest))
}

/// The query of these parts.
fn query_of(
    alloc: Global,
    name: Name,
    refine: Option<Refine>,
    first: Branch,
    second: Option<(Branch, Join)>,
) -> Result<Query, Memory>
    ensures { IfOk result (λ query. query ≡ with_body name refine first second) }
{
    let mut branches = Seq::new(alloc);
    branches.push(first)?;
    match second {
        None => Ok(Query {
            name,
            refine,
            branches,
            join: None,
        }),
        Some((branch, join)) => {
            branches.push(branch)?;
            Ok(Query {
                name,
                refine,
                branches,
                join: Some(join),
            })
        }
    }
}

#[tactic(auto, unfolding(sn_query_grammar::specs::Grammar::query_rule, sn_query_grammar::specs::Grammar::body_rule))]
fn query<'a>(alloc: Global, taken: &[Query], at: Lexer<'a>) -> Result<(Query, Lexer<'a>), Stop<'a>>
    ensures { Reads result ((query_rule (query_names taken.now)).read kept (left at.entry)) }
{
    let rest = word(at, b"query")?;
    let (name, rest) = match new_query_name(rest, taken) {
        Ok(found) => found,
        Err(stop) => return Err(stop),
    };
    let rest = symbol(rest, OPEN_BRACE)?;
    let (refine, rest) = match maybe_refine(alloc, rest) {
        Ok(found) => found,
        Err(stop) => return Err(stop),
    };
    let (first, rest) = match branch(alloc, rest) {
        Ok(found) => found,
        Err(stop) => return Err(stop),
    };
    let (second, rest) = match maybe_joined(alloc, rest) {
        Ok(found) => found,
        Err(stop) => return Err(stop),
    };
    let rest = symbol(rest, CLOSE_BRACE)?;
    match query_of(alloc, name, refine, first, second) {
        Ok(query) => Ok((query, rest)),
        Err(_) => Err(Stop::NoMemory),
    }
}

/// The queries of a file after its first one.
struct QueryItems;

impl Items for QueryItems {
    type Item = Query;

    ghost goes = { λ items. is_word (codes "query") };

    ghost shut = { λ items. full 8 TooMany };

    ghost rule = { λ items taken. query_rule (query_names taken) };

    ghost laws = { λ items. queries_alike };

    fn begins(&self, at: Lexer<'_>) -> bool {
        next_is_word(at, b"query")
    }

    fn shut_by(&self, taken: &[Query]) -> Option<Flaw> {
        if is_full_at(taken.len(), 8) {
            Some(Flaw::TooMany)
        } else {
            None
        }
    }

    fn item<'a>(
        &self,
        alloc: Global,
        taken: &[Query],
        at: Lexer<'a>,
    ) -> Result<(Query, Lexer<'a>), Stop<'a>> {
        query(alloc, taken, at)
    }
}

/// The queries of a file, and the place after them.
pub(crate) fn queries<'a>(alloc: Global, at: Lexer<'a>) -> Result<(Seq<Query>, Lexer<'a>), Stop<'a>>
    ensures { Reads result (queries_rule.read kept (left at.entry)) }
{
    let mut items: Seq<Query> = Seq::new(alloc);
    let (first, rest) = query(alloc, items.as_slice(), at)?;
    items.push(first)?;
    further(alloc, &QueryItems, items, rest)
}
