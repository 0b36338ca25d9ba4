//! The keys of rows that are held once for several sizes: each is looked up once.
ghost use Rattle.std.specs.Prelude.{◌≡◌, ◌<◌, ◌≤◌, List, ◌∷◌, ◌++◌, [], All, length, map, IfOk, OnOk};
ghost use Rattle.sn_base.specs.Groups.{Apart, Row, columns_at, same_row};
ghost use Rattle.sn_cost_tally.specs.Largest.{largest_slots};
ghost use Rattle.sn_cost_tally.specs.Renumbered.{AreNumbered};

use crate::largest::of_keys;
use sn_base::any_row::AnyRow;
use sn_base::memory::Memory;
use sn_base::row_seq::RowSeq;
use sn_base::seed::Seed;
use sn_table::numbers::Numbers;
use sn_types::evaluate::columns_into;
use std::alloc::Global;

/// Distinct keys by number, and of each of some rows the number of its key.
#[derive(Drop)]
pub struct Numbered<R: AnyRow> {
    /// Of each row the number of its key.
    pub of_rows: Vec<usize>,
    /// The keys, no two the same.
    pub keys: RowSeq<R>,
    /// The keys' slots in the first two registers, if these had the largest size.
    pub slots: Vec<[u32; 2]>,
    ghost known: { slots.items ≡ map largest_slots keys },
}

/// Adds the number of one key more.
fn add_number<R: AnyRow>(
    numbers: &mut Numbers<R>,
    key: &R,
    of_rows: &mut Vec<usize>,
) -> Result<(), Memory>
    ensures { (rows : List Row) → AreNumbered numbers.old.keys rows of_rows.old.items →
        OnOk result (AreNumbered numbers.new.keys (rows ++ R.columns key.now ∷ []) of_rows.new.items) }
{
    let number = numbers.number(key)?;
    of_rows.push(number)?;
    Ok(())
}

/// A copy of the rows that have numbers, in their order.
fn keys_in<R: AnyRow>(alloc: Global, numbers: &Numbers<R>) -> Result<RowSeq<R>, Memory>
    ensures keys { IfOk result (λ keys. keys ≡ numbers.now.keys) }
    ensures apart { Apart same_row numbers.now.keys }
{
    let count = numbers.len();
    let mut keys = RowSeq::with_room(alloc, count)?;
    let mut key = R::empty();
    for number in 0..count {
        if numbers.get_into(number, &mut key) {
            keys.push(&key)?;
        }
    }
    Ok(keys)
}

/// Numbered keys with their slots.
fn with_slots<R: AnyRow>(
    alloc: Global,
    numbers: &Numbers<R>,
    of_rows: Vec<usize>,
) -> Result<Numbered<R>, Memory>
    ensures keys { IfOk result (λ found. found.keys ≡ numbers.now.keys) }
    ensures of_rows { IfOk result (λ found. found.of_rows.items ≡ of_rows.items) }
    ensures apart { IfOk result (λ found. Apart same_row found.keys) }
{
    let keys = keys_in(alloc, numbers)?;
    let slots = of_keys(alloc, keys.as_slice())?;
    Ok(Numbered {
        of_rows,
        keys,
        slots,
    })
}

/// The numbers of rows' keys of at most 8 columns, which stand at these places of a row. Keys are numbered by hashes from this seed, and
/// each row's is looked up once.
///
/// # Errors
/// Out of memory.
pub fn number_keys<R: AnyRow>(
    alloc: Global,
    seed: Seed,
    rows: &RowSeq<R>,
    places: &[u32],
) -> Result<Numbered<R>, Memory>
    requires short { length places.now ≤ 8 }
    requires places { All (λ row. All (λ place. place < length row) places.now) rows.now }
    ensures numbered { IfOk result (λ found. AreNumbered found.keys (map (columns_at places.now) rows.now) found.of_rows.items) }
    ensures apart { IfOk result (λ found. Apart same_row found.keys) }
{
    let mut numbers = Numbers::new(alloc, seed);
    let mut of_rows = Vec::with_capacity(alloc, rows.len())?;
    let mut key = R::empty();
    for place in 0..rows.len() {
        columns_into(rows.at(place), places, &mut key);
        add_number(&mut numbers, &key, &mut of_rows)?;
    }
    with_slots(alloc, &numbers, of_rows)
}
