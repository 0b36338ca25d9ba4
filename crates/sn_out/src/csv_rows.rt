//! Rows as comma-separated values.
ghost use Rattle.std.specs.Prelude.{◌≡◌, [], ◌∷◌, ◌++◌, ◌<◌, length, OnOk, IfOk};
ghost use Rattle.std.specs.Fmt.{decimal};
ghost use Rattle.std.specs.List.{flat_map, AllByRecursion};
ghost use Rattle.sn_base.specs.Columns.{IsOf};
ghost use Rattle.sn_types.specs.Typed.{final_columns, query_at};
ghost use Rattle.sn_out.specs.Text.{IsPartOf};
ghost use Rattle.sn_out.specs.Records.{eight_fields, heading_line, number_fields, part_records, record_fields, record_text, window_records};

use crate::fields::{Fields, with_empty_fields, with_number, with_values};
use sn_base::any_row::AnyRow;
use sn_base::bytes::push_bytes;
use sn_base::column::Column;
use sn_base::memory::Memory;
use sn_base::name::Name;
use sn_base::seq::Seq;
use sn_types::answers::{Answers, EitherRows, Part};
use sn_types::typed::Typed;
use std::alloc::Global;

/// How many columns a record has fields for.
const COLUMNS: usize = 8;

const HEADING: &[u8] = b"window,query,level,c1,c2,c3,c4,c5,c6,c7,c8\n";

/// The line above all records, which names their fields.
#[tactic(auto, unfolding(crate::specs::Records::heading_line))]
pub fn heading() -> &'static [u8]
    ensures { result.now ≡ heading_line }
{
    HEADING
}

fn start_fields(alloc: Global, window: u64, name: &Name, level: u32) -> Result<Fields, Memory>
    ensures { IfOk result (λ fields. fields ≡ decimal window ∷ name.now ∷ decimal level ∷ []) }
{
    let numbered = with_number(alloc, Fields::new(alloc), window)?;
    let named = numbered.with(name.as_bytes())?;
    with_number(alloc, named, level as u64)
}

#[tactic(auto, using(crate::proofs::RowLemmas::as_many_numbers))]
fn with_columns<R: AnyRow>(
    alloc: Global,
    fields: Fields,
    columns: &[Column],
    row: &R,
) -> Result<Fields, Memory>
    requires { IsOf columns.now (R.columns row.now) }
    ensures { IfOk result (λ longer. longer ≡ fields ++ eight_fields (number_fields columns.now (R.columns row.now))) }
{
    let longer = with_values(alloc, fields, columns, row)?;
    with_empty_fields(longer, COLUMNS - row.len())
}

/// Adds the record of a row of either kind.
fn push_record<R: AnyRow>(
    alloc: Global,
    text: &mut Vec<u8>,
    t: &Typed,
    window: u64,
    part: &Part,
    row: &R,
) -> Result<(), Memory>
    requires query { part.now.query < length t.now.queries }
    requires row { IsOf (final_columns (query_at t.now.queries part.now.query)) (R.columns row.now) }
    ensures { OnOk result (text.new.items ≡ text.old.items
        ++ record_text window (query_at t.now.queries part.now.query) part.now.level (R.columns row.now)) }
{
    let start = start_fields(alloc, window, &t.name(part.query), part.level)?;
    let fields = with_columns(alloc, start, t.final_schema(part.query).as_slice(), row)?;
    push_bytes(text, &fields.text(alloc)?)
}

/// Adds the records of rows of either kind.
fn push_records<R: AnyRow>(
    alloc: Global,
    text: &mut Vec<u8>,
    t: &Typed,
    window: u64,
    part: &Part,
    rows: &[R],
) -> Result<(), Memory>
    requires query { part.now.query < length t.now.queries }
    requires rows { AllByRecursion (λ row. IsOf (final_columns (query_at t.now.queries part.now.query)) (R.columns row)) rows.now }
    ensures { OnOk result (text.new.items ≡ text.old.items
        ++ flat_map (λ row. record_text window (query_at t.now.queries part.now.query) part.now.level (R.columns row)) rows.now) }
{
    for row in rows {
        push_record(alloc, text, t, window, part, row)?;
    }
    Ok(())
}

fn push_part_records(
    alloc: Global,
    text: &mut Vec<u8>,
    t: &Typed,
    window: u64,
    part: &Part,
) -> Result<(), Memory>
    requires { IsPartOf t.now.queries part.now }
    ensures { OnOk result (text.new.items ≡ text.old.items ++ part_records window t.now.queries part.now) }
{
    match part.rows.either() {
        EitherRows::Short(rows) => push_records(alloc, text, t, window, part, rows.as_slice()),
        EitherRows::Wide(rows) => push_records(alloc, text, t, window, part, rows.as_slice()),
    }
}

/// The records of a window as comma-separated values, without the heading: a record of eleven fields for each row, the
/// window's number, the query's name, the level, and the row's columns, of which those that the row hasn't are empty.
pub fn csv_rows(alloc: Global, t: &Typed, a: &Answers) -> Result<Seq<u8>, Memory>
    requires { AllByRecursion (IsPartOf t.now.queries) a.now.parts }
    ensures { IfOk result (λ text. text ≡ window_records t.now.queries a.now) }
{
    let mut text = Vec::new(alloc);
    for part in a.parts.as_slice() {
        push_part_records(alloc, &mut text, t, a.window, part)?;
    }
    Ok(Seq::from_vec(text))
}
