//! Distinct keys of the marked ones of rows whose keys have numbers.
ghost use Rattle.std.specs.Prelude.{◌≡◌, ◌≤◌, ◌<◌, ◌++◌, ◌∷◌, [], All, length, map, slice_index, IfOk};
ghost use Rattle.std.specs.List.{AllByRecursion};
ghost use Rattle.sn_base.specs.AnyFold.{any_has, any_step, any_unit};
ghost use Rattle.sn_base.specs.Groups.{Apart, folded, once, same_row};
ghost use Rattle.sn_base.specs.Operators.{grouped};
ghost use Rattle.sn_cost_seats.specs.Seats.{rows_at};
ghost use Rattle.sn_cost_seats.specs.Tallies.{marked, tallied};
ghost use Rattle.sn_cost_tally.specs.Counts.{counted};
ghost use Rattle.sn_cost_tally.specs.Numbered.{zipped};

use crate::folds::{COUNT, fold_in};
use crate::groups::{Folded, Groups, rows_of};
use crate::numbered::Numbered;
use crate::renumbered::Renumbered;
use crate::tally::Tally;
use sn_base::any_fold::AnyFold;
use sn_base::any_row::AnyRow;
use sn_base::memory::Memory;
use sn_base::number::Number;
use sn_base::row_seq::RowSeq;
use std::alloc::Global;

/// The distinct keys of the rows whose mark is set, how often each comes, and the fold of its values.
fn fold_marked<R: AnyRow>(
    alloc: Global,
    all: &Numbered<R>,
    rows: &RowSeq<R>,
    marks: &[bool],
    value: u32,
    fold: AnyFold,
) -> Result<Folded<R>, Memory>
    requires apart { Apart same_row all.now.keys }
    requires within { AllByRecursion (λ number. number < length all.now.keys) all.now.of_rows.items }
    requires long { length all.now.of_rows.items ≡ length rows.now }
    requires value { All (λ row. value < length row) rows.now }
    requires had { All (λ row. any_has fold (slice_index row value)) rows.now }
    ensures times { IfOk result (λ found. zipped found.tally.keys found.tally.times.items ≡
        counted (marked marks.now (rows_at all.now.keys all.now.of_rows.items))) }
    ensures totals { IfOk result (λ found. zipped found.tally.keys found.totals.items ≡
        folded same_row (any_step fold) (any_unit fold) (marked marks.now (zipped (rows_at all.now.keys all.now.of_rows.items) (map (λ row. slice_index row value) rows.now)))) }
    ensures times_long { IfOk result (λ found. length found.tally.times.items ≡ length found.tally.keys) }
    ensures totals_long { IfOk result (λ found. length found.totals.items ≡ length found.tally.keys) }
{
    let mut own = Renumbered::new(alloc, all)?;
    let mut times = Vec::new(alloc);
    let mut totals = Vec::new(alloc);
    for place in 0..marks.len().min(rows.len()) {
        if marks[place] {
            let number = own.number(all, all.of_rows[place])?;
            fold_in(COUNT, &mut times, number, 1)?;
            let amount = rows.at(place).column(value).word();
            fold_in(fold, &mut totals, number, amount)?;
        }
    }
    let tally = Tally {
        keys: own.keys,
        times,
        slots: own.slots,
    };
    Ok(Folded { tally, totals })
}

/// Groups the rows whose mark is set, at most 4,194,304, by their keys of at most 7 columns, with the fold of the values at a place. The
/// keys have numbers, and none is hashed.
///
/// # Errors
/// Out of memory.
pub fn group_marked<R: AnyRow>(
    alloc: Global,
    all: &Numbered<R>,
    rows: &RowSeq<R>,
    marks: &[bool],
    value: u32,
    fold: AnyFold,
) -> Result<Groups<R>, Memory>
    requires apart { Apart same_row all.now.keys }
    requires within { AllByRecursion (λ number. number < length all.now.keys) all.now.of_rows.items }
    requires long { length all.now.of_rows.items ≡ length rows.now }
    requires short { AllByRecursion (λ key. length key < 8) (rows_at all.now.keys all.now.of_rows.items) }
    requires few { length (marked marks.now (rows_at all.now.keys all.now.of_rows.items)) ≤ 4194304 }
    requires value { All (λ row. value < length row) rows.now }
    requires had { All (λ row. any_has fold (slice_index row value)) rows.now }
    ensures keys { IfOk result (λ groups. groups.tally.keys ≡ once same_row (marked marks.now (rows_at all.now.keys all.now.of_rows.items))) }
    ensures times { IfOk result (λ groups. groups.tally.times.items ≡ tallied (marked marks.now (rows_at all.now.keys all.now.of_rows.items))) }
    ensures rows { IfOk result (λ groups. groups.rows ≡ grouped (record { places = []; value = value; by = fold })
        (marked marks.now (zipped (rows_at all.now.keys all.now.of_rows.items) (map (λ row. slice_index row value) rows.now)))) }
{
    let found = fold_marked(alloc, all, rows, marks, value, fold)?;
    let rows = rows_of(alloc, &found.tally.keys, found.totals.as_slice())?;
    Ok(Groups {
        tally: found.tally,
        rows,
    })
}
