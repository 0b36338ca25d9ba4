//! Filters and their conditions.
ghost use Rattle.std.specs.Prelude.{◌≡◌, OnOk};
ghost use Rattle.sn_query_grammar.specs.Names.{cmp_sign, name};
ghost use Rattle.sn_query_grammar.specs.Grammar.{relax_rule, relaxes_rule, cond_rule, filter_rule};
ghost use Rattle.sn_query_print.specs.Printing.{state, puts, and_spelled};

use crate::lists::{Shown, put_list};
use crate::printer::Printer;
use sn_base::memory::Memory;
use sn_query_grammar::ast::{Cmp, Cond, Relax};
use std::alloc::Global;

/// A constant for a coarser level.
struct RelaxText;

impl Shown for RelaxText {
    type Item = Relax;

    ghost spell = { relax_rule.spell };

    #[tactic(auto, unfolding(sn_query_grammar::specs::Grammar::relax_rule))]
    fn put(alloc: Global, item: &Relax, out: &mut Printer) -> Result<(), Memory> {
        out.number(alloc, u64::from(item.level))?;
        out.symbol(7)?;
        out.number(alloc, item.value)?;
        Ok(())
    }
}

#[tactic(auto, unfolding(sn_query_grammar::specs::Grammar::relaxes_rule))]
fn put_relaxes(alloc: Global, relaxed: &[Relax], out: &mut Printer) -> Result<(), Memory>
    ensures { OnOk result (state out.new ≡ puts (state out.old) (relaxes_rule.spell relaxed.now)) }
{
    match relaxed {
        [] => Ok(()),
        [_, ..] => {
            out.word(b"at")?;
            out.symbol(5)?;
            put_list::<RelaxText>(alloc, relaxed, out)?;
            out.symbol(6)?;
            Ok(())
        }
    }
}

fn sign_of(cmp: Cmp) -> u8
    ensures { result ≡ cmp_sign cmp }
{
    match cmp {
        Cmp::Eq => 12,
        Cmp::Ne => 13,
        Cmp::Lt => 14,
        Cmp::Le => 15,
        Cmp::Gt => 16,
        Cmp::Ge => 17,
    }
}

fn put_and(alloc: Global, and: Option<u64>, out: &mut Printer) -> Result<(), Memory>
    ensures { OnOk result (state out.new ≡ puts (state out.old) (and_spelled and)) }
{
    if let Some(mask) = and {
        out.symbol(8)?;
        out.number(alloc, mask)?;
    }
    Ok(())
}

/// A condition.
struct CondText;

impl Shown for CondText {
    type Item = Cond;

    ghost spell = { cond_rule.spell };

    #[tactic(auto, unfolding(sn_query_grammar::specs::Grammar::cond_rule))]
    fn put(alloc: Global, item: &Cond, out: &mut Printer) -> Result<(), Memory> {
        out.word(item.name.as_bytes())?;
        put_and(alloc, item.and, out)?;
        out.symbol(sign_of(item.cmp))?;
        out.number(alloc, item.own)?;
        put_relaxes(alloc, item.relaxed.as_slice(), out)?;
        Ok(())
    }
}

/// Writes a filter.
#[tactic(auto, unfolding(sn_query_grammar::specs::Grammar::filter_rule))]
pub(crate) fn put_filter(alloc: Global, conds: &[Cond], out: &mut Printer) -> Result<(), Memory>
    ensures { OnOk result (state out.new ≡ puts (state out.old) (filter_rule.spell conds.now)) }
{
    out.word(b"filter")?;
    put_list::<CondText>(alloc, conds, out)?;
    Ok(())
}
