//! Distinct keys, and how often each comes.
ghost use Rattle.std.specs.Prelude.{◌≡◌, ◌≤◌, length, map, option_copied, IfOk};
ghost use Rattle.sn_base.specs.Groups.{once, same_row};
ghost use Rattle.sn_cost_seats.specs.Tallies.{tallied};
ghost use Rattle.sn_cost_tally.specs.Largest.{largest_slots};
ghost use Rattle.sn_cost_tally.specs.Weighed.{AreWeights, weighed};

use crate::folds::{COUNT, fold_in, room_ahead};
use crate::largest::of_keys;
use crate::weights::weight_at;
use sn_base::any_row::AnyRow;
use sn_base::memory::Memory;
use sn_base::row_seq::RowSeq;
use sn_base::seed::Seed;
use sn_table::numbers::Numbers;
use std::alloc::Global;

/// Distinct keys in the order of first places, and beside them how often each comes.
#[derive(Drop)]
pub struct Tally<R: AnyRow> {
    pub keys: RowSeq<R>,
    pub times: Vec<u64>,
    /// The keys' slots in the first two registers, if these had the largest size.
    pub slots: Vec<[u32; 2]>,
    ghost known: { slots.items ≡ map largest_slots keys },
}

/// The distinct rows of at most 4,194,304, in the order of first places, and how often each comes. Where there are weights, each row stands
/// for as many as its weight says, at least 1. Rows are numbered by hashes from this seed, and each is looked up once.
///
/// # Errors
/// Out of memory.
pub fn tally_rows<R: AnyRow>(
    alloc: Global,
    seed: Seed,
    rows: &RowSeq<R>,
    weights: Option<&[u64]>,
) -> Result<Tally<R>, Memory>
    requires weights { AreWeights rows.now (option_copied weights) }
    requires few { length (weighed rows.now (option_copied weights)) ≤ 4194304 }
    ensures keys { IfOk result (λ tally. tally.keys ≡ once same_row (weighed rows.now (option_copied weights.entry))) }
    ensures times { IfOk result (λ tally. tally.times.items ≡ tallied (weighed rows.now (option_copied weights.entry))) }
{
    let room = room_ahead(rows.len());
    let mut numbers = Numbers::with_room(alloc, seed, room)?;
    let mut keys = RowSeq::with_room(alloc, rows.len())?;
    let mut times = Vec::with_capacity(alloc, room)?;
    for place in 0..rows.len() {
        let row = rows.at(place);
        let number = numbers.number(row)?;
        if number == keys.len() {
            keys.push(row)?;
        }
        let weight = weight_at(weights, place);
        fold_in(COUNT, &mut times, number, weight)?;
    }
    let slots = of_keys(alloc, keys.as_slice())?;
    Ok(Tally { keys, times, slots })
}
