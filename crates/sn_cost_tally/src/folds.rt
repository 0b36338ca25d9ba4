//! Numbers by place, into which values are folded.
ghost use Rattle.std.specs.Prelude.{◌≡◌, slice_index_or, OnOk};
ghost use Rattle.sn_base.specs.AnyFold.{any_has, any_step, any_unit};
ghost use Rattle.sn_cost_tally.specs.Numbered.{folded_into, folded_times};

use sn_base::any_fold::AnyFold;
use sn_base::fold::{Fold, SatSum};
use sn_base::memory::Memory;

/// The fold that counts: each comes with the value 1.
pub(crate) const COUNT: AnyFold = AnyFold::SatSum(SatSum { v: 64 });

/// The most distinct keys for which room is made before any of them comes. With the table that finds them they still fit the
/// processor's near memory; a window has often far fewer keys than rows, and room for all rows would push out what is read next.
const MOST_AHEAD: usize = 4096;

/// For how many distinct keys of this many rows room is made before any of them comes. No answer depends on it.
pub(crate) fn room_ahead(rows: usize) -> usize {
    rows.min(MOST_AHEAD)
}

/// Folds a value into the number at a place, or, after the last one, into one more.
pub(crate) fn fold_in(
    fold: AnyFold,
    numbers: &mut Vec<u64>,
    place: usize,
    value: u64,
) -> Result<(), Memory>
    requires so_far { any_has fold (slice_index_or numbers.old.items place (any_unit fold)) }
    requires value { any_has fold value }
    ensures { OnOk result (numbers.new.items ≡ folded_into (any_step fold) (any_unit fold) numbers.old.items place value) }
{
    if place < numbers.len() {
        numbers[place] = fold.step(numbers[place], value);
    } else {
        numbers.push(fold.step(fold.unit(), value))?;
    }
    Ok(())
}

/// The fold of a value that comes this often. Each time takes a step.
pub(crate) fn fold_times(fold: AnyFold, value: u64, times: u64) -> u64
    requires { any_has fold value }
    ensures value { result ≡ folded_times (any_step fold) (any_unit fold) value times }
    ensures had { any_has fold result }
{
    let mut total = fold.unit();
    for _ in 0..times {
        total = fold.step(total, value);
    }
    total
}
