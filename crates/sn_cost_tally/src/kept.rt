//! Rows by their marks.
ghost use Rattle.std.specs.Prelude.{◌≡◌, filter, length, IfOk};
ghost use Rattle.sn_cost_seats.specs.Tallies.{marked};

use sn_base::any_row::AnyRow;
use sn_base::memory::Memory;
use sn_base::row_seq::RowSeq;
use std::alloc::Global;

/// The rows whose mark is set, in order.
///
/// # Errors
/// Out of memory.
pub fn kept<R: AnyRow>(alloc: Global, rows: &RowSeq<R>, marks: &[bool]) -> Result<RowSeq<R>, Memory>
    ensures { IfOk result (λ out. out ≡ marked marks.now rows.now) }
{
    let mut out = RowSeq::with_room(alloc, rows.len())?;
    for place in 0..marks.len().min(rows.len()) {
        if marks[place] {
            out.push(rows.at(place))?;
        }
    }
    Ok(out)
}

/// How many marks are set.
pub(crate) fn set_count(marks: &[bool]) -> usize
    ensures { result ≡ length (filter (λ mark. mark) marks.now) }
{
    marks.iter().filter(|mark| **mark).count()
}

/// How many rows have their mark set.
pub(crate) fn kept_count<R: AnyRow>(rows: &RowSeq<R>, marks: &[bool]) -> usize
    ensures { result ≡ length (marked marks.now rows.now) }
{
    set_count(&marks[..marks.len().min(rows.len())])
}

/// The marks of the rows whose mark in `stay` is set, in order.
///
/// # Errors
/// Out of memory.
pub fn kept_marks(alloc: Global, marks: &[bool], stay: &[bool]) -> Result<Vec<bool>, Memory>
    ensures { IfOk result (λ out. out.items ≡ marked stay.now marks.now) }
{
    let mut out = Vec::with_capacity(alloc, marks.len())?;
    for place in 0..stay.len().min(marks.len()) {
        if stay[place] {
            out.push(marks[place])?;
        }
    }
    Ok(out)
}
