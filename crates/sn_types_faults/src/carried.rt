//! The refinement field, and the column that carries it.
ghost use Rattle.std.specs.Prelude.{◌≡◌, ◌<◌, nat_lt, not, ◌&&◌, ◌||◌};
ghost use Rattle.std.specs.List.{list_any, count_by};
ghost use Rattle.sn_types_faults.specs.Names.{same_name, is_in, names_in};
ghost use Rattle.sn_types_faults.specs.Columns.{is_copy, copy_name, carried_after};
ghost use Rattle.sn_types_faults.specs.Faults.{loses, reads_otherwise, filters};

use crate::names::is_in;
use sn_base::name::Name;
use sn_query_grammar::ast::{Cond, Expr, MapCol, What};

/// Whether an expression is a copy of the column or field of this name.
fn is_copy(name: &Name, expr: &Expr) -> bool
    ensures { result ≡ is_copy name.now expr.now }
{
    match expr {
        Expr::Copy(copied) => *copied == *name,
        Expr::Const(_)
        | Expr::Mask(_, _)
        | Expr::Shift(_, _)
        | Expr::Sum(_, _)
        | Expr::Ratio(_, _, _) => false,
    }
}

fn copy_name(name: &Name, cols: &[MapCol]) -> Option<Name>
    ensures { result ≡ copy_name name.now cols.now }
{
    for col in cols {
        if is_copy(name, &col.expr) {
            return Some(col.name);
        }
    }
    None
}

/// The name of the carried column after an operator. `None` where a map has no copy of it.
pub fn carried_after(name: &Name, what: &What) -> Option<Name>
    ensures { result ≡ carried_after name.now what.now }
{
    match what {
        What::Map(cols) => copy_name(name, cols.as_slice()),
        What::Filter(_) | What::Distinct | What::Reduce(_) => Some(*name),
    }
}

fn copies_any(name: &Name, cols: &[MapCol]) -> bool
    ensures { result ≡ list_any (λ c. is_copy name.now c.expr) cols.now }
{
    cols.iter().any(|col| is_copy(name, &col.expr))
}

/// Whether a map has no copy of the carried column, or a reduce hasn't it among its keys.
pub fn loses(carried: &Name, what: &What) -> bool
    ensures { result ≡ loses carried.now what.now }
{
    match what {
        What::Map(cols) => !copies_any(carried, cols.as_slice()),
        What::Reduce(reduce) => !is_in(carried, reduce.keys.as_slice()),
        What::Filter(_) | What::Distinct => false,
    }
}

fn reads(carried: &Name, expr: &Expr) -> bool
    ensures { result ≡ is_in carried.now (names_in expr.now) }
{
    match expr {
        Expr::Const(_) => false,
        Expr::Copy(a) | Expr::Mask(a, _) | Expr::Shift(a, _) => *a == *carried,
        Expr::Sum(a, b) | Expr::Ratio(a, _, b) => *a == *carried || *b == *carried,
    }
}

fn reads_otherwise(carried: &Name, col: &MapCol) -> bool
    ensures { result ≡ reads_otherwise carried.now col.now }
{
    !is_copy(carried, &col.expr) && reads(carried, &col.expr)
}

fn any_reads_otherwise(carried: &Name, cols: &[MapCol]) -> bool
    ensures { result ≡ list_any (reads_otherwise carried.now) cols.now }
{
    cols.iter().any(|col| reads_otherwise(carried, col))
}

fn copies_twice(carried: &Name, cols: &[MapCol]) -> bool
    ensures { result ≡ nat_lt 1 (count_by (λ c. is_copy carried.now c.expr) cols.now) }
{
    cols.iter()
        .filter(|col| is_copy(carried, &col.expr))
        .count()
        > 1
}

fn any_filters(carried: &Name, conds: &[Cond]) -> bool
    ensures { result ≡ list_any (λ c. same_name c.name carried.now) conds.now }
{
    conds.iter().any(|cond| cond.name == *carried)
}

/// Whether the carried column is read other than as the one copy of a map or as a key.
pub fn filters(carried: &Name, what: &What) -> bool
    ensures { result ≡ filters carried.now what.now }
{
    match what {
        What::Filter(conds) => any_filters(carried, conds.as_slice()),
        What::Map(cols) => {
            copies_twice(carried, cols.as_slice()) || any_reads_otherwise(carried, cols.as_slice())
        }
        What::Distinct => false,
        What::Reduce(reduce) => reduce.value == *carried,
    }
}
