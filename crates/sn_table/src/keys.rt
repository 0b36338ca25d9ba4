//! The rows of a set, as numbers or as they are.
ghost use Rattle.std.specs.Prelude.{◌≡◌, [], map, length, not, nat_eq, slice_get, is_some, Some, None, IsSome, IfOk, IfSome, OnOk, OnErr, false, if◌then◌else◌};
ghost use Rattle.std.specs.List.{list_any, position_or_len};
ghost use Rattle.indexmap.specs.IndexSet.{insert_key};
ghost use Rattle.sn_base.specs.Groups.{Apart, same_row};
ghost use Rattle.sn_table.specs.HeldKeys.{IsSound, IsWide, keys_of};
ghost use Rattle.sn_table.specs.Narrow.{AreShort, columns_of};

use crate::narrow::{columns_into, number_of};
use crate::number_key::NumberKey;
use indexmap::IndexSet;
use sn_base::any_row::AnyRow;
use sn_base::memory::Memory;
use sn_base::seed::Seed;

/// The rows of a set, in the order of first places.
#[derive(Drop)]
pub(crate) enum Keys<R: AnyRow> {
    /// Rows of n columns, each as a number.
    Narrow(usize, IndexSet<NumberKey, Seed>),
    /// Rows as they are.
    Wide(IndexSet<R, Seed>),
}

/// Adds a number. Gives its place, and says whether it is new.
fn insert_number(
    numbers: &mut IndexSet<NumberKey, Seed>,
    number: u128,
) -> Result<(usize, bool), Memory>
    ensures place { IfOk result (λ reported. reported.0 ≡ position_or_len (nat_eq number) numbers.old.keys) }
    ensures new { IfOk result (λ reported. reported.1 ≡ not (list_any (nat_eq number) numbers.old.keys)) }
    ensures keys { OnOk result (numbers.new.keys ≡ insert_key nat_eq numbers.old.keys number) }
    ensures err { OnErr result (numbers.new.keys ≡ numbers.old.keys) }
{
    Ok(numbers.insert_full(NumberKey::new(number))?)
}

/// Adds a row. Gives its place, and says whether it is new.
fn insert_row<R: AnyRow>(rows: &mut IndexSet<R, Seed>, row: &R) -> Result<(usize, bool), Memory>
    ensures place { IfOk result (λ reported. reported.0 ≡ position_or_len (R.eq row.now) rows.old.keys) }
    ensures new { IfOk result (λ reported. reported.1 ≡ not (list_any (R.eq row.now) rows.old.keys)) }
    ensures keys { OnOk result (rows.new.keys ≡ insert_key R.eq rows.old.keys row.now) }
    ensures err { OnErr result (rows.new.keys ≡ rows.old.keys) }
{
    Ok(rows.insert_full(*row)?)
}

/// Adds a row, where it can be held as the others are. Gives its place, and says whether it is new. `None` where it can't:
/// then nothing changes.
#[inline(always)]
pub(crate) fn put<R: AnyRow>(held: &mut Keys<R>, row: &R) -> Result<Option<(usize, bool)>, Memory>
    requires { IsSound R.Number.limit held.old }
    ensures sound { IsSound R.Number.limit held.new }
    ensures place { IfOk result (λ reported. IfSome reported (λ p. p.0 ≡ position_or_len (same_row (R.columns row.now)) (keys_of R.columns held.old))) }
    ensures new { IfOk result (λ reported. IfSome reported (λ p. p.1 ≡ not (list_any (same_row (R.columns row.now)) (keys_of R.columns held.old)))) }
    ensures keys { IfOk result (λ reported. keys_of R.columns held.new ≡
        (if is_some reported then insert_key same_row (keys_of R.columns held.old) (R.columns row.now) else keys_of R.columns held.old)) }
    ensures wide { IsWide held.old → IfOk result (λ reported. IsSome reported) }
    ensures err { OnErr result (keys_of R.columns held.new ≡ keys_of R.columns held.old) }
{
    match held {
        Keys::Narrow(columns, numbers) => {
            if numbers.is_empty() {
                *columns = row.len();
            }
            let Some(number) = number_of(row, *columns) else {
                return Ok(None);
            };
            Ok(Some(insert_number(numbers, number)?))
        }
        Keys::Wide(rows) => Ok(Some(insert_row(rows, row)?)),
    }
}

/// Makes room for more rows, where they are held as numbers.
pub(crate) fn reserve<R: AnyRow>(held: &mut Keys<R>, more: usize) -> Result<(), Memory>
    requires { IsSound R.Number.limit held.old }
    ensures sound { IsSound R.Number.limit held.new }
    ensures keys { keys_of R.columns held.new ≡ keys_of R.columns held.old }
{
    match held {
        Keys::Narrow(_, numbers) => numbers.reserve(more)?,
        Keys::Wide(_) => {}
    }
    Ok(())
}

/// The rows as they are.
fn rows_of<R: AnyRow>(
    columns: usize,
    numbers: &IndexSet<NumberKey, Seed>,
) -> Result<IndexSet<R, Seed>, Memory>
    requires { AreShort R.Number.limit columns numbers.now.keys }
    ensures { IfOk result (λ rows. map R.columns rows.keys ≡ map (columns_of columns) numbers.now.keys) }
{
    let mut rows = IndexSet::with_hasher(*numbers.allocator(), *numbers.hasher());
    let mut row = R::empty();
    for place in 0..numbers.len() {
        let Some(number) = numbers.get_index(place) else {
            unreachable!();
        };
        columns_into(number.get(), columns, &mut row);
        insert_row(&mut rows, &row)?;
    }
    Ok(rows)
}

/// Holds rows as they are from now on. The set stays.
pub(crate) fn widen<R: AnyRow>(held: &mut Keys<R>) -> Result<(), Memory>
    requires { IsSound R.Number.limit held.old }
    ensures sound { IsSound R.Number.limit held.new }
    ensures keys { keys_of R.columns held.new ≡ keys_of R.columns held.old }
    ensures wide { OnOk result (IsWide held.new) }
{
    let rows = match held {
        Keys::Narrow(columns, numbers) => rows_of(*columns, numbers)?,
        Keys::Wide(_) => return Ok(()),
    };
    *held = Keys::Wide(rows);
    Ok(())
}

/// How many there are.
pub(crate) fn count<R: AnyRow>(held: &Keys<R>) -> usize
    requires { IsSound R.Number.limit held.now }
    ensures value { result ≡ length (keys_of R.columns held.now) }
    ensures apart { Apart same_row (keys_of R.columns held.now) }
{
    match held {
        Keys::Narrow(_, numbers) => numbers.len(),
        Keys::Wide(rows) => rows.len(),
    }
}

/// Writes the row at a place to `row`, and says whether there is one.
pub(crate) fn read<R: AnyRow>(held: &Keys<R>, place: usize, row: &mut R) -> bool
    requires { IsSound R.Number.limit held.now }
    ensures row { slice_get (keys_of R.columns held.now) place ≡ (if result then Some (R.columns row.new) else None) }
    ensures past { result ≡ false → row.new ≡ row.old }
{
    match held {
        Keys::Narrow(columns, numbers) => {
            let Some(number) = numbers.get_index(place) else {
                return false;
            };
            columns_into(number.get(), *columns, row);
        }
        Keys::Wide(rows) => {
            let Some(key) = rows.get_index(place) else {
                return false;
            };
            *row = *key;
        }
    }
    true
}

/// Removes all rows, and keeps the memory.
pub(crate) fn clear<R: AnyRow>(held: &mut Keys<R>)
    requires { IsSound R.Number.limit held.old }
    ensures sound { IsSound R.Number.limit held.new }
    ensures keys { keys_of R.columns held.new ≡ [] }
{
    match held {
        Keys::Narrow(_, numbers) => numbers.clear(),
        Keys::Wide(rows) => rows.clear(),
    }
}
