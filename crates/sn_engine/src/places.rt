//! Where the refinement field stands in the rows that come to an operator.
ghost use Rattle.std.specs.Prelude.{◌≡◌, ◌==◌, position, take, unwrap_or};
ghost use Rattle.sn_fields.specs.Fields.{number_of};
ghost use Rattle.sn_types.specs.Places.{copies, field_place, place_after, place_along};

use sn_fields::field::Field;
use sn_types::typed_op::{TExpr, TOp};
use sn_types::typed_query::TypedBranch;

fn copies(place: usize, e: &TExpr) -> bool
    ensures { result ≡ copies place e.now }
{
    match e {
        TExpr::Copy(a) => *a as usize == place,
        TExpr::Const(_)
        | TExpr::Mask(_, _)
        | TExpr::Shift(_, _)
        | TExpr::Sum(_, _)
        | TExpr::Ratio(_, _, _) => false,
    }
}

fn copy_in(exprs: &[TExpr], place: usize) -> Option<usize>
    ensures { result ≡ position (copies place) exprs.now }
{
    exprs.iter().position(|e| copies(place, e))
}

fn key_in(keys: &[u32], place: usize) -> Option<usize>
    ensures { result ≡ position (λ k. k == place) keys.now }
{
    keys.iter().position(|k| *k as usize == place)
}

fn or_first(place: Option<usize>) -> usize
    ensures { result ≡ unwrap_or place 0 }
{
    match place {
        Some(at) => at,
        None => 0,
    }
}

/// Where a column at a place stands after an operator.
fn place_after(op: &TOp, place: usize) -> usize
    ensures { result ≡ place_after op.now place }
{
    match op {
        TOp::Map(exprs) => or_first(copy_in(exprs.as_slice(), place)),
        TOp::Reduce(r) => or_first(key_in(r.keys.as_slice(), place)),
        TOp::Filter(_) | TOp::Distinct => place,
    }
}

/// Where it stands after the first so many operators.
fn place_along(ops: &[TOp], count: usize, place: usize) -> usize
    ensures { result ≡ place_along (take count ops.now) place }
{
    if count == 0 {
        return place;
    }
    match ops.split_first() {
        Some((op, rest)) => place_along(rest, count - 1, place_after(op, place)),
        None => place,
    }
}

fn field_in(fields: &[Field], field: Field) -> Option<usize>
    ensures { result ≡ position (λ g. number_of g == number_of field) fields.now }
{
    fields.iter().position(|g| g.number() == field.number())
}

/// The place of a field, or of the column that carries it, in the rows that come to an operator of a branch.
pub(crate) fn place_at(branch: &TypedBranch, op: usize, field: Field) -> usize
    ensures { result ≡ place_along (take op branch.now.ops) (field_place field branch.now.fields) }
{
    let first = or_first(field_in(branch.fields.as_slice(), field));
    place_along(branch.ops.as_slice(), op, first)
}
