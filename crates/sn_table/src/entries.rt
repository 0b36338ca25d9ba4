//! The entries of a table, as numbers or as rows.
ghost use Rattle.std.specs.Prelude.{◌≡◌, ◌≤◌, ◌<◌, ℕ, All, length, map, unwrap_or, IfNone, IfOk, OnOk, OnErr, nat_eq, slice_get, true, if◌then◌else◌};
ghost use Rattle.std.specs.Map.{lookup};
ghost use Rattle.std.specs.Option.{option_map};
ghost use Rattle.indexmap.specs.IndexMap.{insert_entry};
ghost use Rattle.sn_base.specs.AnyFold.{any_has, any_step, any_unit};
ghost use Rattle.sn_base.specs.Groups.{columns_at, same_row};
ghost use Rattle.sn_table.specs.HeldEntries.{IsSound, IsWide, entries_of, row_entry};
ghost use Rattle.sn_table.specs.Narrow.{AreShort};

use crate::narrow::{columns_into, number_at, number_of};
use crate::number_key::NumberKey;
use indexmap::IndexMap;
use sn_base::any_fold::AnyFold;
use sn_base::any_row::AnyRow;
use sn_base::fold::Fold;
use sn_base::memory::Memory;
use sn_base::seed::Seed;

/// The entries of a table, in the order of first places.
#[derive(Drop)]
pub(crate) enum Entries<R: AnyRow> {
    /// Keys of n columns, each as a number.
    Narrow(usize, IndexMap<NumberKey, u64, Seed>),
    /// Keys as they are.
    Wide(IndexMap<R, u64, Seed>),
}

/// Adds a value to the fold of a key that is a number. The key is looked up once.
fn add_number(
    fold: AnyFold,
    numbers: &mut IndexMap<NumberKey, u64, Seed>,
    number: u128,
    value: u64,
) -> Result<(), Memory>
    requires so_far { any_has fold (unwrap_or (lookup (nat_eq number) numbers.old.entries) (any_unit fold)) }
    requires value { any_has fold value }
    ensures ok { OnOk result (numbers.new.entries ≡
        insert_entry nat_eq numbers.old.entries number (any_step fold (unwrap_or (lookup (nat_eq number) numbers.old.entries) (any_unit fold)) value)) }
    ensures err { OnErr result (numbers.new.entries ≡ numbers.old.entries) }
{
    let Ok(entry) = numbers.entry(NumberKey::new(number)) else {
        return Err(Memory);
    };
    let total = entry.or_insert(fold.unit());
    *total = fold.step(*total, value);
    Ok(())
}

/// Adds a value to the fold of a key that is a row. The key is looked up once.
fn add_row<R: AnyRow>(
    fold: AnyFold,
    rows: &mut IndexMap<R, u64, Seed>,
    key: &R,
    value: u64,
) -> Result<(), Memory>
    requires so_far { any_has fold (unwrap_or (lookup (R.eq key.now) rows.old.entries) (any_unit fold)) }
    requires value { any_has fold value }
    ensures ok { OnOk result (rows.new.entries ≡
        insert_entry R.eq rows.old.entries key.now (any_step fold (unwrap_or (lookup (R.eq key.now) rows.old.entries) (any_unit fold)) value)) }
    ensures err { OnErr result (rows.new.entries ≡ rows.old.entries) }
{
    let Ok(entry) = rows.entry(*key) else {
        return Err(Memory);
    };
    let total = entry.or_insert(fold.unit());
    *total = fold.step(*total, value);
    Ok(())
}

/// Adds a value to its key's fold, where the key can be held as the others are. Says whether it can: else nothing changes.
pub(crate) fn put<R: AnyRow>(
    held: &mut Entries<R>,
    fold: AnyFold,
    key: &R,
    value: u64,
) -> Result<bool, Memory>
    requires sound { IsSound R.Number.limit held.old }
    requires so_far { any_has fold (unwrap_or (lookup (same_row (R.columns key.now)) (entries_of R.columns held.old)) (any_unit fold)) }
    requires value { any_has fold value }
    ensures sound { IsSound R.Number.limit held.new }
    ensures ok { IfOk result (λ can. entries_of R.columns held.new ≡
        (if can then insert_entry same_row (entries_of R.columns held.old) (R.columns key.now)
        (any_step fold (unwrap_or (lookup (same_row (R.columns key.now)) (entries_of R.columns held.old)) (any_unit fold)) value)
        else entries_of R.columns held.old)) }
    ensures wide { IsWide held.old → IfOk result (λ can. can ≡ true) }
    ensures err { OnErr result (entries_of R.columns held.new ≡ entries_of R.columns held.old) }
{
    match held {
        Entries::Narrow(columns, numbers) => {
            if numbers.is_empty() {
                *columns = key.len();
            }
            let Some(number) = number_of(key, *columns) else {
                return Ok(false);
            };
            add_number(fold, numbers, number, value)?;
        }
        Entries::Wide(rows) => add_row(fold, rows, key, value)?,
    }
    Ok(true)
}

/// Makes room for more keys, where they are numbers.
pub(crate) fn reserve<R: AnyRow>(held: &mut Entries<R>, more: usize) -> Result<(), Memory>
    requires { IsSound R.Number.limit held.old }
    ensures sound { IsSound R.Number.limit held.new }
    ensures entries { entries_of R.columns held.new ≡ entries_of R.columns held.old }
{
    match held {
        Entries::Narrow(_, numbers) => numbers.reserve(more)?,
        Entries::Wide(_) => {}
    }
    Ok(())
}

/// Adds a value to the fold of the key that stands at these places of a row, where keys are numbers and that of this key is
/// built straight from the row. Says whether it is: else nothing changes.
pub(crate) fn put_at<R: AnyRow>(
    held: &mut Entries<R>,
    fold: AnyFold,
    row: &R,
    places: &[u32],
    value: u64,
) -> Result<bool, Memory>
    requires sound { IsSound R.Number.limit held.old }
    requires places { All (λ place. place < length (R.columns row.now)) places.now }
    requires few { length places.now ≤ 8 }
    requires so_far { any_has fold (unwrap_or (lookup (same_row (columns_at places.now (R.columns row.now))) (entries_of R.columns held.old)) (any_unit fold)) }
    requires value { any_has fold value }
    ensures sound { IsSound R.Number.limit held.new }
    ensures ok { let key = columns_at places.now (R.columns row.now) in IfOk result
        (λ can. entries_of R.columns held.new ≡ (if can then insert_entry same_row (entries_of R.columns held.old) key
        (any_step fold (unwrap_or (lookup (same_row key) (entries_of R.columns held.old)) (any_unit fold)) value) else entries_of R.columns held.old)) }
    ensures err { OnErr result (entries_of R.columns held.new ≡ entries_of R.columns held.old) }
{
    match held {
        Entries::Narrow(columns, numbers) => {
            if numbers.is_empty() {
                *columns = places.len();
            }
            let Some(number) = number_at(row, places, *columns) else {
                return Ok(false);
            };
            add_number(fold, numbers, number, value)?;
            Ok(true)
        }
        Entries::Wide(_) => Ok(false),
    }
}

/// The entries, with their keys as rows.
fn rows_of<R: AnyRow>(
    columns: usize,
    numbers: &IndexMap<NumberKey, u64, Seed>,
) -> Result<IndexMap<R, u64, Seed>, Memory>
    requires { AreShort R.Number.limit columns (map (λ e. e.0) numbers.now.entries) }
    ensures { IfOk result (λ rows. map (λ e. (R.columns e.0, e.1)) rows.entries ≡ map (row_entry columns) numbers.now.entries) }
{
    let mut rows = IndexMap::with_hasher(*numbers.allocator(), *numbers.hasher());
    let mut key = R::empty();
    for place in 0..numbers.len() {
        let Some((number, value)) = numbers.get_index(place) else {
            unreachable!();
        };
        columns_into(number.get(), columns, &mut key);
        if let Err(_) = rows.insert(key, *value) {
            return Err(Memory);
        }
    }
    Ok(rows)
}

/// Holds keys as rows from now on. The entries stay.
pub(crate) fn widen<R: AnyRow>(held: &mut Entries<R>) -> Result<(), Memory>
    requires { IsSound R.Number.limit held.old }
    ensures sound { IsSound R.Number.limit held.new }
    ensures entries { entries_of R.columns held.new ≡ entries_of R.columns held.old }
    ensures wide { OnOk result (IsWide held.new) }
{
    let rows = match held {
        Entries::Narrow(columns, numbers) => rows_of(*columns, numbers)?,
        Entries::Wide(_) => return Ok(()),
    };
    *held = Entries::Wide(rows);
    Ok(())
}

/// How many there are.
pub(crate) fn count<R: AnyRow>(held: &Entries<R>) -> usize
    ensures { result ≡ length (entries_of R.columns held.now) }
{
    match held {
        Entries::Narrow(_, numbers) => numbers.len(),
        Entries::Wide(rows) => rows.len(),
    }
}

/// Writes the key at a place to `row`, and gives its value.
pub(crate) fn read<R: AnyRow>(held: &Entries<R>, place: usize, row: &mut R) -> Option<u64>
    requires { IsSound R.Number.limit held.now }
    ensures entry { slice_get (entries_of R.columns held.now) place ≡ option_map (λ value. (R.columns row.new, value)) result }
    ensures past { IfNone result (row.new ≡ row.old) }
{
    match held {
        Entries::Narrow(columns, numbers) => {
            let (number, value) = numbers.get_index(place)?;
            columns_into(number.get(), *columns, row);
            Some(*value)
        }
        Entries::Wide(rows) => {
            let (key, value) = rows.get_index(place)?;
            *row = *key;
            Some(*value)
        }
    }
}
