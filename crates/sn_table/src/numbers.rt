//! Rows with numbers.
ghost use Rattle.std.specs.Prelude.{◌≡◌, ◌<◌, [], length, slice_get, Some, None, IfOk, OnOk, OnErr, false, if◌then◌else◌};
ghost use Rattle.std.specs.List.{position_or_len};
ghost use Rattle.indexmap.specs.IndexSet.{insert_key};
ghost use Rattle.sn_base.specs.Groups.{Apart, same_row};

use crate::keys::{Keys, clear, count, put, read, reserve, widen};
use indexmap::IndexSet;
use sn_base::any_row::AnyRow;
use sn_base::memory::Memory;
use sn_base::seed::Seed;
use std::alloc::Global;
use std::marker::Model;

/// Distinct rows, each with its number. Rows are numbered from 0 on, in the order of first places. It takes as many as there
/// is memory.
///
/// Rows are held as the keys of a `Table` are: as numbers of 128 bits, until one doesn't fit.
#[derive(Drop)]
pub struct Numbers<R: AnyRow> {
    held: Keys<R>,
}

impl<R: AnyRow> Model for Numbers<R> {
    ghost use Rattle.sn_table.specs.States.{RowsState, rows_code};
    ghost use Rattle.sn_table.specs.HeldKeys.{IsSound, keys_of};

    ghost Value = { RowsState };

    ghost coded = { rows_code };

    ghost view = { λ s. record { keys = keys_of R.columns s.held } };

    ghost invariant = { λ s. IsSound R.Number.limit s.held };
}

impl<R: AnyRow> Numbers<R> {
    /// Numbers of no row. Rows are found by hashes from this seed.
    pub fn new(alloc: Global, seed: Seed) -> Numbers<R>
        ensures { result.keys ≡ [] }
    {
        Numbers {
            held: Keys::Narrow(0, IndexSet::with_hasher(alloc, seed)),
        }
    }

    /// Numbers of no row, with room for this many rows, as long as they are held as numbers of 128 bits. Rows are found by hashes
    /// from this seed.
    ///
    /// # Errors
    /// Out of memory.
    pub fn with_room(alloc: Global, seed: Seed, rows: usize) -> Result<Numbers<R>, Memory>
        ensures { IfOk result (λ numbers. numbers.keys ≡ []) }
    {
        let mut numbers = Numbers::new(alloc, seed);
        reserve(&mut numbers.held, rows)?;
        Ok(numbers)
    }

    /// The number of a row, which takes the next one if it has none. The row is looked up once. An `Err` changes nothing.
    #[inline(always)]
    pub fn number(&mut self, row: &R) -> Result<usize, Memory>
        ensures number { IfOk result (λ number. number ≡ position_or_len (same_row (R.columns row.now)) self.old.keys) }
        ensures keys { OnOk result (self.new.keys ≡ insert_key same_row self.old.keys (R.columns row.now)) }
        ensures within { IfOk result (λ number. number < length self.new.keys) }
        ensures row { IfOk result (λ number. slice_get self.new.keys number ≡ Some (R.columns row.now)) }
        ensures err { OnErr result (self.new.keys ≡ self.old.keys) }
    {
        if let Some((number, _)) = put(&mut self.held, row)? {
            return Ok(number);
        }
        widen(&mut self.held)?;
        match put(&mut self.held, row)? {
            Some((number, _)) => Ok(number),
            None => unreachable!(),
        }
    }

    /// Whether the rows are held as numbers of 128 bits. No answer depends on it.
    pub fn is_narrow(&self) -> bool {
        matches!(&self.held, Keys::Narrow(_, _))
    }

    /// How many rows there are. No two of them are the same.
    pub fn len(&self) -> usize
        ensures value { result ≡ length self.now.keys }
        ensures apart { Apart same_row self.now.keys }
    {
        count(&self.held)
    }

    /// Writes the row with a number to `row`, and says whether there is one. `false` exactly past the end; `row` stays then.
    pub fn get_into(&self, number: usize, row: &mut R) -> bool
        ensures row { slice_get self.now.keys number ≡ (if result then Some (R.columns row.new) else None) }
        ensures past { result ≡ false → row.new ≡ row.old }
    {
        read(&self.held, number, row)
    }

    /// Removes all rows, and keeps the memory that they took.
    pub fn clear(&mut self)
        ensures { self.new.keys ≡ [] }
    {
        clear(&mut self.held);
    }
}
