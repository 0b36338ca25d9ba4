//! Queries and their parts.
ghost use Rattle.std.specs.Prelude.{◌≡◌, [], OnOk};
ghost use Rattle.sn_text_rules.specs.Words.{number_in};
ghost use Rattle.sn_query_grammar.specs.Grammar.{levels_rule, refine_rule, branch_rule, join_rule, query_rule};
ghost use Rattle.sn_query_print.specs.Printing.{state, puts, refined_spelled, head_spelled, queries_spelled};

use crate::lists::{Shown, put_each, put_list};
use crate::maps::put_keys;
use crate::ops::{PostOpText, put_ops};
use crate::printer::Printer;
use sn_base::memory::Memory;
use sn_base::name::Name;
use sn_query_grammar::ast::{Branch, Join, Query, Refine};
use std::alloc::Global;

/// A level.
struct LevelText;

impl Shown for LevelText {
    type Item = u32;

    ghost spell = { (number_in 0 128).spell };

    fn put(alloc: Global, item: &u32, out: &mut Printer) -> Result<(), Memory> {
        out.number(alloc, u64::from(*item))
    }
}

#[tactic(auto, unfolding(sn_query_grammar::specs::Grammar::levels_rule))]
fn put_levels(alloc: Global, levels: &[u32], out: &mut Printer) -> Result<(), Memory>
    ensures { OnOk result (state out.new ≡ puts (state out.old) (levels_rule.spell levels.now)) }
{
    put_list::<LevelText>(alloc, levels, out)
}

#[tactic(auto, unfolding(sn_query_grammar::specs::Grammar::refine_rule))]
fn put_refine(alloc: Global, refine: &Refine, out: &mut Printer) -> Result<(), Memory>
    ensures { OnOk result (state out.new ≡ puts (state out.old) (refine_rule.spell refine.now)) }
{
    out.word(b"refine")?;
    out.word(refine.field.as_bytes())?;
    out.symbol(7)?;
    put_levels(alloc, refine.levels.as_slice(), out)?;
    out.symbol(2)?;
    Ok(())
}

fn put_refined(alloc: Global, refine: &Option<Refine>, out: &mut Printer) -> Result<(), Memory>
    ensures { OnOk result (state out.new ≡ puts (state out.old) (refined_spelled refine.now)) }
{
    match refine {
        None => Ok(()),
        Some(refine) => put_refine(alloc, refine, out),
    }
}

#[tactic(auto, unfolding(sn_query_grammar::specs::Grammar::branch_rule))]
fn put_branch(alloc: Global, branch: &Branch, out: &mut Printer) -> Result<(), Memory>
    ensures { OnOk result (state out.new ≡ puts (state out.old) (branch_rule.spell branch.now)) }
{
    out.word(b"packets")?;
    put_ops(alloc, branch.ops.as_slice(), out)?;
    out.symbol(2)?;
    Ok(())
}

#[tactic(auto, unfolding(sn_query_grammar::specs::Grammar::join_rule))]
fn put_join(alloc: Global, join: &Join, out: &mut Printer) -> Result<(), Memory>
    ensures { OnOk result (state out.new ≡ puts (state out.old) (join_rule.spell join.now)) }
{
    out.word(b"join")?;
    put_keys(alloc, join.keys.as_slice(), out)?;
    put_each::<PostOpText>(alloc, join.post.as_slice(), out)?;
    out.symbol(2)?;
    Ok(())
}

/// Writes a query up to its first branch.
fn put_head(
    alloc: Global,
    name: &Name,
    refine: &Option<Refine>,
    branch: &Branch,
    out: &mut Printer,
) -> Result<(), Memory>
    ensures { OnOk result (state out.new ≡ puts (state out.old) (head_spelled name.now refine.now branch.now)) }
{
    out.word(b"query")?;
    out.word(name.as_bytes())?;
    out.symbol(0)?;
    put_refined(alloc, refine, out)?;
    put_branch(alloc, branch, out)?;
    Ok(())
}

/// A query.
struct QueryText;

impl Shown for QueryText {
    type Item = Query;

    ghost spell = { (query_rule []).spell };

    #[tactic(auto, unfolding(sn_query_grammar::specs::Grammar::query_rule, sn_query_grammar::specs::Grammar::body_rule))]
    fn put(alloc: Global, item: &Query, out: &mut Printer) -> Result<(), Memory> {
        match (item.branches.as_slice(), &item.join) {
            ([first], None) => {
                put_head(alloc, &item.name, &item.refine, first, out)?;
                out.symbol(1)?;
                Ok(())
            }
            ([first, second], Some(join)) => {
                put_head(alloc, &item.name, &item.refine, first, out)?;
                put_branch(alloc, second, out)?;
                put_join(alloc, join, out)?;
                out.symbol(1)?;
                Ok(())
            }
            _ => Ok(()),
        }
    }
}

/// Writes queries.
pub(crate) fn put_queries(alloc: Global, queries: &[Query], out: &mut Printer) -> Result<(), Memory>
    ensures { OnOk result (state out.new ≡ puts (state out.old) (queries_spelled queries.now)) }
{
    match queries {
        [] => Ok(()),
        [first, rest @ ..] => {
            QueryText::put(alloc, first, out)?;
            put_each::<QueryText>(alloc, rest, out)?;
            Ok(())
        }
    }
}
