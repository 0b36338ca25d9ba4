//! Groups of rows: distinct keys, how often each comes, and the fold of its values.
ghost use Rattle.std.specs.Prelude.{◌≡◌, ◌≤◌, ◌<◌, ◌++◌, ◌∷◌, [], All, length, map, slice_index, option_copied, IfOk};
ghost use Rattle.sn_base.specs.AnyFold.{any_has, any_step, any_unit};
ghost use Rattle.sn_base.specs.Groups.{columns_at, folded, keyed, once, same_row};
ghost use Rattle.sn_base.specs.Operators.{grouped};
ghost use Rattle.sn_cost_seats.specs.Tallies.{tallied};
ghost use Rattle.sn_cost_tally.specs.Counts.{counted};
ghost use Rattle.sn_cost_tally.specs.Numbered.{zipped};
ghost use Rattle.sn_cost_tally.specs.Weighed.{AreWeights, weighed};

use crate::folds::{COUNT, fold_in, fold_times, room_ahead};
use crate::largest::of_keys;
use crate::tally::Tally;
use crate::weights::weight_at;
use sn_base::any_fold::AnyFold;
use sn_base::any_row::AnyRow;
use sn_base::columns::Columns;
use sn_base::fold::Fold;
use sn_base::memory::Memory;
use sn_base::number::Number;
use sn_base::row_seq::RowSeq;
use sn_base::seed::Seed;
use sn_table::numbers::Numbers;
use sn_types::evaluate::columns_into;
use std::alloc::Global;

/// Distinct keys in the order of first places, how often each comes, and beside them their rows: each key, and the fold of its
/// values after it.
#[derive(Drop)]
pub struct Groups<R: AnyRow> {
    pub tally: Tally<R>,
    pub rows: RowSeq<R>,
}

/// Distinct keys, how often each comes, and the fold of its values.
#[derive(Drop)]
pub(crate) struct Folded<R: AnyRow> {
    pub(crate) tally: Tally<R>,
    pub(crate) totals: Vec<u64>,
}

/// The distinct keys of rows, where each row stands for as many as its weight says. Each row's key is looked up once.
fn fold_keys<R: AnyRow>(
    alloc: Global,
    seed: Seed,
    rows: &RowSeq<R>,
    weights: Option<&[u64]>,
    places: &[u32],
    value: u32,
    fold: AnyFold,
) -> Result<Folded<R>, Memory>
    requires weights { AreWeights rows.now (option_copied weights) }
    requires short { length places.now ≤ 8 }
    requires places { All (λ row. All (λ place. place < length row) places.now) rows.now }
    requires value { All (λ row. value < length row) rows.now }
    requires had { All (λ row. any_has fold (slice_index row value)) rows.now }
    ensures times { IfOk result (λ found. zipped found.tally.keys found.tally.times.items ≡
        counted (map (columns_at places.now) (weighed rows.now (option_copied weights.entry)))) }
    ensures totals { IfOk result (λ found. zipped found.tally.keys found.totals.items ≡
        folded same_row (any_step fold) (any_unit fold) (map (keyed places.now value) (weighed rows.now (option_copied weights.entry)))) }
    ensures times_long { IfOk result (λ found. length found.tally.times.items ≡ length found.tally.keys) }
    ensures totals_long { IfOk result (λ found. length found.totals.items ≡ length found.tally.keys) }
{
    let room = room_ahead(rows.len());
    let mut numbers = Numbers::with_room(alloc, seed, room)?;
    let mut keys = RowSeq::new(alloc);
    let mut times = Vec::with_capacity(alloc, room)?;
    let mut totals = Vec::with_capacity(alloc, room)?;
    let mut key = R::empty();
    for place in 0..rows.len() {
        let row = rows.at(place);
        columns_into(row, places, &mut key);
        let number = numbers.number(&key)?;
        if number == keys.len() {
            keys.push(&key)?;
        }
        let weight = weight_at(weights, place);
        fold_in(COUNT, &mut times, number, weight)?;
        let amount = fold_times(fold, row.column(value).word(), weight);
        fold_in(fold, &mut totals, number, amount)?;
    }
    let slots = of_keys(alloc, keys.as_slice())?;
    let tally = Tally { keys, times, slots };
    Ok(Folded { tally, totals })
}

/// Rows of keys, each with its number after it.
pub(crate) fn rows_of<R: AnyRow>(
    alloc: Global,
    keys: &RowSeq<R>,
    numbers: &[u64],
) -> Result<RowSeq<R>, Memory>
    requires short { All (λ key. length key < 8) keys.now }
    requires long { length numbers.now ≡ length keys.now }
    ensures { IfOk result (λ out. out ≡ map (λ e. e.0 ++ e.1 ∷ []) (zipped keys.now numbers.now)) }
{
    let mut out = RowSeq::with_room(alloc, keys.len())?;
    for place in 0..keys.len() {
        let mut row = *keys.at(place);
        row.push(R::Number::of_word(numbers[place]));
        out.push(&row)?;
    }
    Ok(out)
}

/// Groups at most 4,194,304 rows by keys of at most 7 columns, which stand at these places of a row, with the fold of the values at
/// another. Where there are weights, each row stands for as many as its weight says, at least 1. The keys are numbered by hashes from
/// this seed, and each row's key is looked up once.
///
/// # Errors
/// Out of memory.
pub fn group_rows<R: AnyRow>(
    alloc: Global,
    seed: Seed,
    rows: &RowSeq<R>,
    weights: Option<&[u64]>,
    places: &[u32],
    value: u32,
    fold: AnyFold,
) -> Result<Groups<R>, Memory>
    requires weights { AreWeights rows.now (option_copied weights) }
    requires few { length (weighed rows.now (option_copied weights)) ≤ 4194304 }
    requires short { length places.now < 8 }
    requires places { All (λ row. All (λ place. place < length row) places.now) rows.now }
    requires value { All (λ row. value < length row) rows.now }
    requires had { All (λ row. any_has fold (slice_index row value)) rows.now }
    ensures keys { IfOk result (λ groups. groups.tally.keys ≡
        once same_row (map (columns_at places.now) (weighed rows.now (option_copied weights.entry)))) }
    ensures times { IfOk result (λ groups. groups.tally.times.items ≡
        tallied (map (columns_at places.now) (weighed rows.now (option_copied weights.entry)))) }
    ensures rows { IfOk result (λ groups. groups.rows ≡
        grouped (record { places = places.now; value = value; by = fold }) (map (keyed places.now value) (weighed rows.now (option_copied weights.entry)))) }
{
    let found = fold_keys(alloc, seed, rows, weights, places, value, fold)?;
    let rows = rows_of(alloc, &found.tally.keys, found.totals.as_slice())?;
    Ok(Groups {
        tally: found.tally,
        rows,
    })
}
