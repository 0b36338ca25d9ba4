//! A table of rows.
ghost use Rattle.std.specs.Prelude.{◌≡◌, ◌≤◌, ◌<◌, [], All, length, unwrap_or, IfNone, OnOk, OnErr, slice_get};
ghost use Rattle.std.specs.Map.{lookup};
ghost use Rattle.std.specs.Option.{option_map};
ghost use Rattle.indexmap.specs.IndexMap.{insert_entry};
ghost use Rattle.sn_base.specs.AnyFold.{any_has, any_step, any_unit};
ghost use Rattle.sn_base.specs.Groups.{columns_at, same_row};

use crate::entries::{Entries, count, put, put_at, read, reserve, widen};
use indexmap::IndexMap;
use sn_base::any_fold::AnyFold;
use sn_base::any_row::AnyRow;
use sn_base::memory::Memory;
use sn_base::seed::Seed;
use std::alloc::Global;
use std::marker::Model;

/// A table from rows to numbers, in the order of first places. It takes as many keys as there is memory.
///
/// While all keys have one number of columns, and each column fits its share of 128 bits, a key is held as one number:
/// it is found in a fourth of the memory that a row takes. The first key that doesn't fit turns all into rows.
#[derive(Drop)]
pub struct Table<R: AnyRow> {
    held: Entries<R>,
    /// How many keys are expected, until room is made for them.
    expected: usize,
}

impl<R: AnyRow> Model for Table<R> {
    ghost use Rattle.sn_table.specs.States.{TableState, table_code};
    ghost use Rattle.sn_table.specs.HeldEntries.{IsSound, entries_of};

    ghost Value = { TableState };

    ghost coded = { table_code };

    ghost view = { λ t. record { entries = entries_of R.columns t.held } };

    ghost invariant = { λ t. IsSound R.Number.limit t.held };
}

/// The key that stands at these places of a row.
fn key_at<R: AnyRow>(row: &R, places: &[u32]) -> R
    requires places { All (λ place. place < length (R.columns row.now)) places.now }
    requires few { length places.now ≤ 8 }
    ensures { R.columns result ≡ columns_at places.now (R.columns row.now) }
{
    let mut key = R::empty();
    for place in places {
        key.push(row.column(*place));
    }
    key
}

impl<R: AnyRow> Table<R> {
    /// A table with no key. Keys are found by hashes from this seed.
    pub fn new(alloc: Global, seed: Seed) -> Table<R>
        ensures { result.entries ≡ [] }
    {
        Table {
            held: Entries::Narrow(0, IndexMap::with_hasher(alloc, seed)),
            expected: 0,
        }
    }

    /// Tells how many keys will come, so that with the first of them that `add_at` adds room is made for all. No answer depends on it.
    pub fn expect(&mut self, keys: usize)
        ensures { self.new ≡ self.old }
    {
        self.expected = keys;
    }

    /// Makes room for the keys that are expected.
    #[inline(never)]
    fn make_room(&mut self) -> Result<(), Memory>
        ensures { self.new ≡ self.old }
    {
        reserve(&mut self.held, self.expected)?;
        self.expected = 0;
        Ok(())
    }

    /// Adds a value to its key's fold. The key is looked up once. An `Err` changes nothing.
    pub fn add(&mut self, fold: AnyFold, key: &R, value: u64) -> Result<(), Memory>
        requires so_far { any_has fold (unwrap_or (lookup (same_row (R.columns key.now)) self.old.entries) (any_unit fold)) }
        requires value { any_has fold value }
        ensures ok { OnOk result (self.new.entries ≡
            insert_entry same_row self.old.entries (R.columns key.now)
            (any_step fold (unwrap_or (lookup (same_row (R.columns key.now)) self.old.entries) (any_unit fold)) value)) }
        ensures err { OnErr result (self.new.entries ≡ self.old.entries) }
    {
        if !put(&mut self.held, fold, key, value)? {
            widen(&mut self.held)?;
            put(&mut self.held, fold, key, value)?;
        }
        Ok(())
    }

    /// Adds a value to the fold of the key that stands at these places of a row, as `add` does. No row is made of a key of
    /// one or two columns that is held as a number.
    #[inline(always)]
    pub fn add_at(
        &mut self,
        fold: AnyFold,
        row: &R,
        places: &[u32],
        value: u64,
    ) -> Result<(), Memory>
        requires places { All (λ place. place < length (R.columns row.now)) places.now }
        requires few { length places.now ≤ 8 }
        requires so_far { any_has fold (unwrap_or (lookup (same_row (columns_at places.now (R.columns row.now))) self.old.entries) (any_unit fold)) }
        requires value { any_has fold value }
        ensures ok { let key = columns_at places.now (R.columns row.now) in OnOk result
            (self.new.entries ≡ insert_entry same_row self.old.entries key
            (any_step fold (unwrap_or (lookup (same_row key) self.old.entries) (any_unit fold)) value)) }
        ensures err { OnErr result (self.new.entries ≡ self.old.entries) }
    {
        if self.expected > 0 {
            self.make_room()?;
        }
        if put_at(&mut self.held, fold, row, places, value)? {
            return Ok(());
        }
        self.add(fold, &key_at(row, places), value)
    }

    /// Whether the keys are held as numbers. No answer depends on it.
    pub fn is_narrow(&self) -> bool {
        matches!(&self.held, Entries::Narrow(_, _))
    }

    /// How many keys there are.
    pub fn len(&self) -> usize
        ensures { result ≡ length self.now.entries }
    {
        count(&self.held)
    }

    /// Writes the key at a place to `row`, and gives its value. `None` exactly past the end; `row` stays then.
    pub fn get_into(&self, place: usize, row: &mut R) -> Option<u64>
        ensures entry { slice_get self.now.entries place ≡ option_map (λ value. (R.columns row.new, value)) result }
        ensures past { IfNone result (row.new ≡ row.old) }
    {
        read(&self.held, place, row)
    }
}
