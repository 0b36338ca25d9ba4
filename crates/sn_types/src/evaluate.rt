//! What conditions and expressions say of one row, and its columns at places.
ghost use Rattle.std.specs.Prelude.{◌≡◌, ◌==◌, ◌<◌, ◌≤◌, ◌+◌, min, All, length, map, slice_index};
ghost use Rattle.std.specs.List.{find, list_all};
ghost use Rattle.sn_base.specs.AnyFold.{any_has};
ghost use Rattle.sn_base.specs.Groups.{columns_at};
ghost use Rattle.sn_types.specs.Values.{compared, constant_at, greatest, holds, ratio, value_of, ReadsWithin};

use crate::typed_op::{TCond, TExpr};
use sn_base::any_fold::AnyFold;
use sn_base::any_row::AnyRow;
use sn_base::columns::Columns;
use sn_base::number::Number;
use sn_query_grammar::ast::{Cmp, Relax};

/// Whether two numbers compare so.
pub fn compares(cmp: Cmp, left: u128, right: u128) -> bool
    ensures { result ≡ compared cmp left right }
{
    match cmp {
        Cmp::Eq => left == right,
        Cmp::Ne => left != right,
        Cmp::Lt => left < right,
        Cmp::Le => left <= right,
        Cmp::Gt => left > right,
        Cmp::Ge => left >= right,
    }
}

fn relaxed_at(level: u32, relaxed: &[Relax]) -> Option<Relax>
    ensures { result ≡ find (λ r. r.level == level) relaxed.now }
{
    relaxed.iter().copied().find(|relax| relax.level == level)
}

/// A condition's constant for a level: the one that it names for it, or else its own.
pub fn constant_at(level: u32, relaxed: &[Relax], own: u64) -> u64
    ensures { result ≡ constant_at level relaxed.now own }
{
    match relaxed_at(level, relaxed) {
        Some(relax) => relax.value,
        None => own,
    }
}

/// Whether a condition holds at a row. Its constant is the one for this level, or else its own. It stands apart from the loop over
/// conditions, where the compiler would work out for each row what a column might be, whichever is asked for.
#[inline(never)]
pub fn cond<C: Columns>(c: &TCond, level: u32, row: &C) -> bool
    requires { c.now.col < length (C.columns row.now) }
    ensures { result ≡ holds level c.now (C.columns row.now) }
{
    compares(
        c.cmp,
        row.column(c.col).whole() & c.and,
        u128::from(constant_at(level, c.relaxed.as_slice(), c.own)),
    )
}

fn ratio(a: u64, times: u64, b: u64) -> u64
    ensures { result ≡ ratio a times b }
{
    if b == 0 {
        return 0;
    }
    let whole = u128::from(a) * u128::from(times) / u128::from(b);
    u64::try_from(whole).unwrap_or(u64::MAX)
}

/// The sum of two columns, each cut off at 2^64 - 1 as the sum is.
fn sum<N: Number>(a: N, b: N) -> N
    ensures { N.value result ≡ min (N.value a + N.value b) greatest }
{
    N::of_word(a.word().saturating_add(b.word()))
}

/// The value of an expression at a row.
pub fn expr<C: Columns>(e: &TExpr, row: &C) -> C::Number
    requires { ReadsWithin (length (C.columns row.now)) e.now }
    ensures { C.Number.value result ≡ value_of e.now (C.columns row.now) }
{
    match *e {
        TExpr::Const(number) => C::Number::of_word(number),
        TExpr::Copy(a) => row.column(a),
        TExpr::Mask(a, bits) => row.column(a).masked(u128::from(bits)),
        TExpr::Shift(a, places) => row.column(a).shifted(places),
        TExpr::Sum(a, b) => sum(row.column(a), row.column(b)),
        TExpr::Ratio(a, times, b) => {
            C::Number::of_word(ratio(row.column(a).word(), times, row.column(b).word()))
        }
    }
}

/// The column at a place, as a fold that has it takes it.
pub fn folded_at<R: AnyRow>(fold: AnyFold, row: &R, place: u32) -> u64
    requires place { place < length (R.columns row.now) }
    requires had { any_has fold (slice_index (R.columns row.now) place) }
    ensures { result ≡ slice_index (R.columns row.now) place }
{
    row.column(place).word()
}

/// Whether all conditions hold at a row, with their constants for this level.
pub fn passes<C: Columns>(conds: &[TCond], level: u32, row: &C) -> bool
    requires { All (λ c. c.col < length (C.columns row.now)) conds.now }
    ensures { result ≡ list_all (λ c. holds level c (C.columns row.now)) conds.now }
{
    for c in conds {
        if !cond(c, level, row) {
            return false;
        }
    }
    true
}

/// Makes `out` the row of these values at a row, whatever it was before. It is made in its place: a copy of a row whose columns have
/// just been written would wait until the memory has them, since it reads several of them at once.
pub fn map_into<C: Columns, R: AnyRow + Columns<Number = C::Number>>(
    row: &C,
    cols: &[TExpr],
    out: &mut R,
)
    requires few { length cols.now ≤ 8 }
    requires reads { All (λ e. ReadsWithin (length (C.columns row.now)) e) cols.now }
    ensures { R.columns out.new ≡ map (λ e. value_of e (C.columns row.now)) cols.now }
{
    out.resize(cols.len());
    for (place, col) in cols.iter().enumerate() {
        out.set(place, expr(col, row));
    }
}

/// Makes `key` the columns of a row at these places, whatever it was before. It is made in its place, as by `map_into`.
pub fn columns_into<C: Columns, R: AnyRow + Columns<Number = C::Number>>(
    row: &C,
    places: &[u32],
    key: &mut R,
)
    requires places { All (λ place. place < length (C.columns row.now)) places.now }
    requires few { length places.now ≤ 8 }
    ensures { R.columns key.new ≡ columns_at places.now (C.columns row.now) }
{
    key.resize(places.len());
    for (at, place) in places.iter().enumerate() {
        key.set(at, row.column(*place));
    }
}

/// The columns of a row at these places.
pub fn columns_of<R: AnyRow>(row: &R, places: &[u32]) -> R
    requires places { All (λ place. place < length (R.columns row.now)) places.now }
    requires few { length places.now ≤ 8 }
    ensures { R.columns result ≡ columns_at places.now (R.columns row.now) }
{
    let mut key = R::empty();
    columns_into(row, places, &mut key);
    key
}
