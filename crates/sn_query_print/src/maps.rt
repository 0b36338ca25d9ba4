//! Maps and folds.
ghost use Rattle.std.specs.Prelude.{◌≡◌, [], OnOk, codes};
ghost use Rattle.sn_query_grammar.specs.Names.{name};
ghost use Rattle.sn_query_grammar.specs.Grammar.{expr_rule, post_expr_rule, col_rule, post_col_rule, map_rule, post_map_rule, keys_rule, reduce_rule};
ghost use Rattle.sn_query_print.specs.Printing.{state, puts, folded_spelled, plain_spelled, sum_spelled, summed_spelled, reduction_spelled};

use crate::lists::{Shown, put_list};
use crate::printer::Printer;
use sn_base::memory::Memory;
use sn_base::name::Name;
use sn_query_grammar::ast::{Expr, FoldWord, MapCol, Reduce};
use std::alloc::Global;

/// Writes what a column holds before a join.
#[tactic(auto, unfolding(sn_query_grammar::specs::Grammar::expr_rule))]
fn put_expr(alloc: Global, expr: &Expr, out: &mut Printer) -> Result<(), Memory>
    ensures { OnOk result (state out.new ≡ puts (state out.old) (expr_rule.spell expr.now)) }
{
    match expr {
        Expr::Const(number) => out.number(alloc, *number),
        Expr::Copy(name) => out.word(name.as_bytes()),
        Expr::Mask(name, mask) => {
            out.word(name.as_bytes())?;
            out.symbol(8)?;
            out.number(alloc, *mask)
        }
        Expr::Shift(name, bits) => {
            out.word(name.as_bytes())?;
            out.symbol(18)?;
            out.number(alloc, u64::from(*bits))
        }
        Expr::Sum(_, _) => Ok(()),
        Expr::Ratio(_, _, _) => Ok(()),
    }
}

/// Writes what a column holds after a join.
#[tactic(auto, unfolding(sn_query_grammar::specs::Grammar::post_expr_rule))]
fn put_post_expr(alloc: Global, expr: &Expr, out: &mut Printer) -> Result<(), Memory>
    ensures { OnOk result (state out.new ≡ puts (state out.old) (post_expr_rule.spell expr.now)) }
{
    match expr {
        Expr::Const(number) => out.number(alloc, *number),
        Expr::Copy(name) => out.word(name.as_bytes()),
        Expr::Mask(name, mask) => {
            out.word(name.as_bytes())?;
            out.symbol(8)?;
            out.number(alloc, *mask)
        }
        Expr::Shift(name, bits) => {
            out.word(name.as_bytes())?;
            out.symbol(18)?;
            out.number(alloc, u64::from(*bits))
        }
        Expr::Sum(first, second) => {
            out.word(first.as_bytes())?;
            out.symbol(9)?;
            out.word(second.as_bytes())
        }
        Expr::Ratio(first, factor, second) => {
            out.word(first.as_bytes())?;
            out.symbol(10)?;
            out.number(alloc, *factor)?;
            out.symbol(11)?;
            out.word(second.as_bytes())
        }
    }
}

/// A column before a join.
struct ColText;

impl Shown for ColText {
    type Item = MapCol;

    ghost spell = { (col_rule []).spell };

    #[tactic(auto, unfolding(sn_query_grammar::specs::Grammar::col_rule))]
    fn put(alloc: Global, item: &MapCol, out: &mut Printer) -> Result<(), Memory> {
        put_expr(alloc, &item.expr, out)?;
        out.word(b"as")?;
        out.word(item.name.as_bytes())?;
        Ok(())
    }
}

/// A column after a join.
struct PostColText;

impl Shown for PostColText {
    type Item = MapCol;

    ghost spell = { (post_col_rule []).spell };

    #[tactic(auto, unfolding(sn_query_grammar::specs::Grammar::post_col_rule))]
    fn put(alloc: Global, item: &MapCol, out: &mut Printer) -> Result<(), Memory> {
        put_post_expr(alloc, &item.expr, out)?;
        out.word(b"as")?;
        out.word(item.name.as_bytes())?;
        Ok(())
    }
}

/// Writes a map before a join.
#[tactic(auto, unfolding(sn_query_grammar::specs::Grammar::map_rule))]
pub(crate) fn put_map(alloc: Global, cols: &[MapCol], out: &mut Printer) -> Result<(), Memory>
    ensures { OnOk result (state out.new ≡ puts (state out.old) (map_rule.spell cols.now)) }
{
    out.word(b"map")?;
    put_list::<ColText>(alloc, cols, out)?;
    Ok(())
}

/// Writes a map after a join.
#[tactic(auto, unfolding(sn_query_grammar::specs::Grammar::post_map_rule))]
pub(crate) fn put_post_map(alloc: Global, cols: &[MapCol], out: &mut Printer) -> Result<(), Memory>
    ensures { OnOk result (state out.new ≡ puts (state out.old) (post_map_rule.spell cols.now)) }
{
    out.word(b"map")?;
    put_list::<PostColText>(alloc, cols, out)?;
    Ok(())
}

/// A key.
struct KeyText;

impl Shown for KeyText {
    type Item = Name;

    ghost spell = { name.spell };

    fn put(_alloc: Global, item: &Name, out: &mut Printer) -> Result<(), Memory> {
        out.word(item.as_bytes())
    }
}

/// Writes keys.
#[tactic(auto, unfolding(sn_query_grammar::specs::Grammar::keys_rule))]
pub(crate) fn put_keys(alloc: Global, keys: &[Name], out: &mut Printer) -> Result<(), Memory>
    ensures { OnOk result (state out.new ≡ puts (state out.old) (keys_rule.spell keys.now)) }
{
    put_list::<KeyText>(alloc, keys, out)
}

/// Writes the word of a fold, and its column in brackets.
fn put_folded(word: &[u8], value: &Name, out: &mut Printer) -> Result<(), Memory>
    ensures { OnOk result (state out.new ≡ puts (state out.old) (folded_spelled word.now value.now)) }
{
    out.word(word)?;
    out.symbol(5)?;
    out.word(value.as_bytes())?;
    out.symbol(6)?;
    Ok(())
}

/// Writes a fold that has no width.
#[tactic(auto, unfolding(sn_query_grammar::specs::Grammar::fold_rule))]
fn put_plain(alloc: Global, reduce: &Reduce, word: &[u8], out: &mut Printer) -> Result<(), Memory>
    ensures { OnOk result (state out.new ≡ puts (state out.old) (plain_spelled reduce.now.keys word.now reduce.now.value reduce.now.width)) }
{
    if reduce.width == 0 {
        put_keys(alloc, reduce.keys.as_slice(), out)?;
        out.symbol(7)?;
        put_folded(word, &reduce.value, out)?;
    }
    Ok(())
}

/// Writes the column of a sum and the width.
fn put_summed(alloc: Global, value: &Name, width: u32, out: &mut Printer) -> Result<(), Memory>
    ensures { OnOk result (state out.new ≡ puts (state out.old) (summed_spelled value.now width)) }
{
    out.word(b"sum")?;
    out.symbol(5)?;
    out.word(value.as_bytes())?;
    out.symbol(6)?;
    out.word(b"width")?;
    out.number(alloc, u64::from(width))?;
    Ok(())
}

/// Writes the keys, the column and the width of a sum.
fn put_sum(alloc: Global, reduce: &Reduce, out: &mut Printer) -> Result<(), Memory>
    ensures { OnOk result (state out.new ≡ puts (state out.old) (sum_spelled reduce.now.keys reduce.now.value reduce.now.width)) }
{
    put_keys(alloc, reduce.keys.as_slice(), out)?;
    out.symbol(7)?;
    put_summed(alloc, &reduce.value, reduce.width, out)?;
    Ok(())
}

fn put_fold(alloc: Global, reduce: &Reduce, out: &mut Printer) -> Result<(), Memory>
    ensures { OnOk result (state out.new ≡ puts (state out.old) (reduction_spelled reduce.now.fold reduce.now.keys reduce.now.value reduce.now.width)) }
{
    match reduce.fold {
        FoldWord::Sum => put_sum(alloc, reduce, out),
        FoldWord::Max => put_plain(alloc, reduce, b"max", out),
        FoldWord::Min => put_plain(alloc, reduce, b"min", out),
        FoldWord::Or => put_plain(alloc, reduce, b"or", out),
    }
}

/// Writes a fold over the rows with equal keys.
#[tactic(auto, using(crate::proofs::Reductions::reduce_spelled))]
pub(crate) fn put_reduce(alloc: Global, reduce: &Reduce, out: &mut Printer) -> Result<(), Memory>
    ensures { OnOk result (state out.new ≡ puts (state out.old) (reduce_rule.spell reduce.now)) }
{
    out.word(b"reduce")?;
    put_fold(alloc, reduce, out)?;
    Ok(())
}
