//! Operators with places for their names.
ghost use Rattle.std.specs.Prelude.{◌≡◌, IfOk, map, unwrap_or};
ghost use Rattle.sn_types_faults.specs.Columns.{place_of};
ghost use Rattle.sn_types.specs.Typing.{typed_cond, typed_expr, typed_reduce, typed_op, join_key};
ghost use Rattle.sn_types.specs.Values.{all_bits};

use crate::typed_op::{JoinKey, TCond, TExpr, TOp, TReduce};
use sn_base::memory::Memory;
use sn_base::name::Name;
use sn_base::schema::Schema;
use sn_base::seq::Seq;
use sn_query_grammar::ast::{Cond, Expr, MapCol, Reduce, What};
use sn_types_faults::columns::{column_named, place_of};
use sn_types_faults::widths::{fold_of, folded_width};
use std::alloc::Global;

/// The number with which a column is and-ed.
fn and_of(and: Option<u64>) -> u128
    ensures { result ≡ unwrap_or and all_bits }
{
    match and {
        Some(bits) => u128::from(bits),
        None => u128::MAX,
    }
}

fn typed_cond(alloc: Global, columns: &Schema, cond: &Cond) -> Result<TCond, Memory>
    ensures { IfOk result (λ typed. typed ≡ typed_cond columns.now cond.now) }
{
    let relaxed = Seq::from_slice(alloc, cond.relaxed.as_slice())?;
    Ok(TCond {
        col: place_of(columns, &cond.name),
        and: and_of(cond.and),
        cmp: cond.cmp,
        own: cond.own,
        relaxed,
    })
}

fn typed_conds(alloc: Global, columns: &Schema, conds: &[Cond]) -> Result<Seq<TCond>, Memory>
    ensures { IfOk result (λ typed. typed ≡ map (typed_cond columns.now) conds.now) }
{
    let mut typed = Seq::new(alloc);
    for cond in conds {
        typed.push(typed_cond(alloc, columns, cond)?)?;
    }
    Ok(typed)
}

fn typed_expr(columns: &Schema, expr: &Expr) -> TExpr
    ensures { result ≡ typed_expr columns.now expr.now }
{
    match expr {
        Expr::Const(number) => TExpr::Const(*number),
        Expr::Copy(a) => TExpr::Copy(place_of(columns, a)),
        Expr::Mask(a, bits) => TExpr::Mask(place_of(columns, a), *bits),
        Expr::Shift(a, places) => TExpr::Shift(place_of(columns, a), *places),
        Expr::Sum(a, b) => TExpr::Sum(place_of(columns, a), place_of(columns, b)),
        Expr::Ratio(a, times, b) => {
            TExpr::Ratio(place_of(columns, a), *times, place_of(columns, b))
        }
    }
}

fn typed_exprs(alloc: Global, columns: &Schema, cols: &[MapCol]) -> Result<Seq<TExpr>, Memory>
    ensures { IfOk result (λ typed. typed ≡ map (λ c. typed_expr columns.now c.expr) cols.now) }
{
    let mut typed = Seq::new(alloc);
    for col in cols {
        typed.push(typed_expr(columns, &col.expr))?;
    }
    Ok(typed)
}

fn places_of(alloc: Global, columns: &Schema, names: &[Name]) -> Result<Seq<u32>, Memory>
    ensures { IfOk result (λ places. places ≡ map (place_of columns.now) names.now) }
{
    let mut places = Seq::new(alloc);
    for name in names {
        places.push(place_of(columns, name))?;
    }
    Ok(places)
}

fn typed_reduce(alloc: Global, columns: &Schema, reduce: &Reduce) -> Result<TReduce, Memory>
    ensures { IfOk result (λ typed. typed ≡ typed_reduce columns.now reduce.now) }
{
    let keys = places_of(alloc, columns, reduce.keys.as_slice())?;
    let column = column_named(columns.as_slice(), &reduce.value);
    let width = folded_width(reduce.fold, reduce.width, column.width);
    Ok(TReduce {
        keys,
        value: place_of(columns, &reduce.value),
        fold: fold_of(reduce.fold, width),
    })
}

/// An operator on rows of these columns.
pub fn typed_op(alloc: Global, columns: &Schema, what: &What) -> Result<TOp, Memory>
    ensures { IfOk result (λ typed. typed ≡ typed_op columns.now what.now) }
{
    match what {
        What::Filter(conds) => {
            let conds = typed_conds(alloc, columns, conds.as_slice())?;
            Ok(TOp::Filter(conds))
        }
        What::Map(cols) => {
            let exprs = typed_exprs(alloc, columns, cols.as_slice())?;
            Ok(TOp::Map(exprs))
        }
        What::Distinct => Ok(TOp::Distinct),
        What::Reduce(reduce) => {
            let reduce = typed_reduce(alloc, columns, reduce)?;
            Ok(TOp::Reduce(reduce))
        }
    }
}

fn join_key(left: &Schema, right: &Schema, key: &Name) -> JoinKey
    ensures { result ≡ join_key left.now right.now key.now }
{
    JoinKey {
        left: place_of(left, key),
        right: place_of(right, key),
    }
}

/// The places of a join's keys in rows of the left and of the right columns.
pub fn typed_keys(
    alloc: Global,
    left: &Schema,
    right: &Schema,
    keys: &[Name],
) -> Result<Seq<JoinKey>, Memory>
    ensures { IfOk result (λ places. places ≡ map (join_key left.now right.now) keys.now) }
{
    let mut places = Seq::new(alloc);
    for key in keys {
        places.push(join_key(left, right, key))?;
    }
    Ok(places)
}
