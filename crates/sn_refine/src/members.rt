//! The prefixes that answers hold.
ghost use Rattle.std.specs.Prelude.{◌≡◌, ◌<◌, ℕ, length, map, nat_eq, slice_index, unwrap_or, IfOk};
ghost use Rattle.std.specs.List.{list_any};
ghost use Rattle.std.specs.FinSet as set;
ghost use Rattle.sn_refine.specs.Refined.{column_of};
ghost use Rattle.sn_refine.specs.Steps.{prefixes_of};
ghost use Rattle.sn_types.specs.Typed.{query_at};

use sn_base::any_row::AnyRow;
use sn_base::members::Members;
use sn_base::memory::Memory;
use sn_base::number::Number;
use sn_types::answers::{AnswerRows, EitherRows};
use sn_types::typed::Typed;
use std::alloc::Global;

/// The number of a row in the column at a place, and 0 where there is none.
pub fn column<R: AnyRow>(row: &R, place: u32) -> R::Number
    ensures { R.Number.value result ≡ slice_index (R.columns row.now) place }
{
    if (place as usize) < row.len() {
        row.column(place)
    } else {
        R::Number::of_word(0)
    }
}

/// The place of a query's refinement column, and the first where the query isn't refined.
pub fn place_of(t: &Typed, q: u32) -> u32
    requires { q < length t.now.queries }
    ensures { result ≡ unwrap_or (query_at t.now.queries q).column 0 }
{
    match t.refine_column(q) {
        Some(place) => place,
        None => 0,
    }
}

/// The numbers in the refinement column of rows of one kind.
fn numbers_of<R: AnyRow>(alloc: Global, t: &Typed, q: u32, rows: &[R]) -> Result<Members, Memory>
    requires { q < length t.now.queries }
    ensures { IfOk result (λ members. members ≡
        set.from_list (map (λ row. slice_index (R.columns row) (unwrap_or (query_at t.now.queries q).column 0)) rows.now)) }
{
    let place = place_of(t, q);
    let mut members = Members::new(alloc);
    for row in rows {
        members.add(column(row, place).whole())?;
    }
    Ok(members)
}

/// The prefixes that answers of a query hold: exactly the numbers in their refinement column. The kind of the answers is asked once.
pub fn members(alloc: Global, t: &Typed, q: u32, rows: &AnswerRows) -> Result<Members, Memory>
    requires { q < length t.now.queries }
    ensures set { IfOk result (λ members. members ≡ prefixes_of (query_at t.now.queries q) rows.now) }
    ensures exactly { IfOk result (λ members. (prefix : ℕ) →
        set.contains members prefix ≡ list_any (λ n. nat_eq n prefix) (column_of (query_at t.now.queries q) rows.now)) }
{
    match rows.either() {
        EitherRows::Short(rows) => numbers_of(alloc, t, q, rows.as_slice()),
        EitherRows::Wide(rows) => numbers_of(alloc, t, q, rows.as_slice()),
    }
}
