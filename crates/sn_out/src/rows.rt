//! Rows on lines.
ghost use Rattle.std.specs.Prelude.{◌≡◌, ◌++◌, drop, length, OnOk};
ghost use Rattle.std.specs.List.{flat_map, AllByRecursion};
ghost use Rattle.sn_base.specs.Columns.{IsOf};
ghost use Rattle.sn_out.specs.Text.{number_text, spaced_text, spaced_texts, numbers_text, row_line};

use crate::pieces::{push_address, push_whole};
use sn_base::any_row::AnyRow;
use sn_base::bytes::push_bytes;
use sn_base::column::Column;
use sn_base::memory::Memory;
use sn_base::number::Number;
use sn_types::answers::{AnswerRows, EitherRows};

/// Adds a number of a column, of 64 or of 128 bits: an address dotted or in groups, another number in decimal.
pub(crate) fn push_value<N: Number>(
    text: &mut Vec<u8>,
    column: &Column,
    number: N,
) -> Result<(), Memory>
    ensures { OnOk result (text.new.items ≡ text.old.items ++ number_text column.now (N.value number)) }
{
    if column.address {
        push_address(text, column.width, number.whole())
    } else {
        push_whole(text, number.whole())
    }
}

fn push_spaced<N: Number>(text: &mut Vec<u8>, column: &Column, number: N) -> Result<(), Memory>
    ensures { OnOk result (text.new.items ≡ text.old.items ++ spaced_text column.now (N.value number)) }
{
    push_bytes(text, b" ")?;
    push_value(text, column, number)
}

/// Adds the numbers of a row after the first, each after one space.
fn push_more<R: AnyRow>(text: &mut Vec<u8>, columns: &[Column], row: &R) -> Result<(), Memory>
    requires { length columns.now ≡ length (R.columns row.now) }
    ensures { OnOk result (text.new.items ≡ text.old.items ++ spaced_texts (drop 1 columns.now) (drop 1 (R.columns row.now))) }
{
    for place in 1..row.len() {
        push_spaced(text, &columns[place], row.column(place as u32))?;
    }
    Ok(())
}

fn push_numbers<R: AnyRow>(text: &mut Vec<u8>, columns: &[Column], row: &R) -> Result<(), Memory>
    requires { length columns.now ≡ length (R.columns row.now) }
    ensures { OnOk result (text.new.items ≡ text.old.items ++ numbers_text columns.now (R.columns row.now)) }
{
    if row.len() == 0 {
        return Ok(());
    }
    push_value(text, &columns[0], row.column(0))?;
    push_more(text, columns, row)
}

/// Adds a row of either kind on a line of its own.
#[tactic(auto, using(crate::proofs::RowLemmas::as_many_numbers))]
fn push_row<R: AnyRow>(text: &mut Vec<u8>, columns: &[Column], row: &R) -> Result<(), Memory>
    requires { IsOf columns.now (R.columns row.now) }
    ensures { OnOk result (text.new.items ≡ text.old.items ++ row_line columns.now (R.columns row.now)) }
{
    push_numbers(text, columns, row)?;
    push_bytes(text, b"\n")
}

/// Adds the rows, of either kind, each on a line of its own.
fn push_rows<R: AnyRow>(text: &mut Vec<u8>, columns: &[Column], rows: &[R]) -> Result<(), Memory>
    requires { AllByRecursion (λ row. IsOf columns.now (R.columns row)) rows.now }
    ensures { OnOk result (text.new.items ≡ text.old.items ++ flat_map (λ row. row_line columns.now (R.columns row)) rows.now) }
{
    for row in rows {
        push_row(text, columns, row)?;
    }
    Ok(())
}

/// Adds the rows of an answer, each on a line of its own. Their kind is asked once.
pub fn push_answer(text: &mut Vec<u8>, columns: &[Column], rows: &AnswerRows) -> Result<(), Memory>
    requires { AllByRecursion (IsOf columns.now) rows.now }
    ensures { OnOk result (text.new.items ≡ text.old.items ++ flat_map (row_line columns.now) rows.now) }
{
    match rows.either() {
        EitherRows::Short(rows) => push_rows(text, columns, rows.as_slice()),
        EitherRows::Wide(rows) => push_rows(text, columns, rows.as_slice()),
    }
}
