//! Operators.
ghost use Rattle.std.specs.Prelude.{◌≡◌, OnOk};
ghost use Rattle.sn_query_grammar.specs.Grammar.{what_rule, op_rule, post_what_rule, post_op_rule};
ghost use Rattle.sn_query_print.specs.Printing.{state, puts, ops_spelled};

use crate::conditions::put_filter;
use crate::lists::{Shown, put_each};
use crate::maps::{put_map, put_post_map, put_reduce};
use crate::printer::Printer;
use sn_base::memory::Memory;
use sn_query_grammar::ast::{Op, What};
use std::alloc::Global;

#[tactic(auto, unfolding(sn_query_grammar::specs::Grammar::what_rule))]
fn put_what(alloc: Global, what: &What, out: &mut Printer) -> Result<(), Memory>
    ensures { OnOk result (state out.new ≡ puts (state out.old) (what_rule.spell what.now)) }
{
    match what {
        What::Filter(conds) => put_filter(alloc, conds.as_slice(), out),
        What::Map(cols) => put_map(alloc, cols.as_slice(), out),
        What::Distinct => out.word(b"distinct"),
        What::Reduce(reduce) => put_reduce(alloc, reduce, out),
    }
}

/// An operator of a branch.
pub(crate) struct OpText;

impl Shown for OpText {
    type Item = Op;

    ghost spell = { op_rule.spell };

    #[tactic(auto, unfolding(sn_query_grammar::specs::Grammar::op_rule))]
    fn put(alloc: Global, item: &Op, out: &mut Printer) -> Result<(), Memory> {
        out.symbol(4)?;
        put_what(alloc, &item.what, out)?;
        Ok(())
    }
}

/// Writes the operators of a branch.
pub(crate) fn put_ops(alloc: Global, ops: &[Op], out: &mut Printer) -> Result<(), Memory>
    ensures { OnOk result (state out.new ≡ puts (state out.old) (ops_spelled ops.now)) }
{
    match ops {
        [] => Ok(()),
        [first, rest @ ..] => {
            OpText::put(alloc, first, out)?;
            put_each::<OpText>(alloc, rest, out)?;
            Ok(())
        }
    }
}

#[tactic(auto, unfolding(sn_query_grammar::specs::Grammar::post_what_rule))]
fn put_post_what(alloc: Global, what: &What, out: &mut Printer) -> Result<(), Memory>
    ensures { OnOk result (state out.new ≡ puts (state out.old) (post_what_rule.spell what.now)) }
{
    match what {
        What::Filter(conds) => put_filter(alloc, conds.as_slice(), out),
        What::Map(cols) => put_post_map(alloc, cols.as_slice(), out),
        What::Distinct => Ok(()),
        What::Reduce(_) => Ok(()),
    }
}

/// An operator after a join.
pub(crate) struct PostOpText;

impl Shown for PostOpText {
    type Item = Op;

    ghost spell = { post_op_rule.spell };

    #[tactic(auto, unfolding(sn_query_grammar::specs::Grammar::post_op_rule))]
    fn put(alloc: Global, item: &Op, out: &mut Printer) -> Result<(), Memory> {
        out.symbol(4)?;
        put_post_what(alloc, &item.what, out)?;
        Ok(())
    }
}
