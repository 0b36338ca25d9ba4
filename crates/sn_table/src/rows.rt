//! A set of rows.
ghost use Rattle.std.specs.Prelude.{◌≡◌, [], length, not, IfOk, OnOk, OnErr};
ghost use Rattle.std.specs.List.{list_any};
ghost use Rattle.indexmap.specs.IndexSet.{insert_key};
ghost use Rattle.sn_base.specs.Groups.{same_row};

use crate::keys::{Keys, count, put, reserve, widen};
use indexmap::IndexSet;
use sn_base::any_row::AnyRow;
use sn_base::memory::Memory;
use sn_base::seed::Seed;
use std::alloc::Global;
use std::marker::Model;

/// A set of rows, in the order of first places. It takes as many as there is memory.
///
/// Rows are held as the keys of a `Table` are: as numbers, until one doesn't fit.
#[derive(Drop)]
pub struct Rows<R: AnyRow> {
    held: Keys<R>,
    /// How many rows are expected, until room is made for them.
    expected: usize,
}

impl<R: AnyRow> Model for Rows<R> {
    ghost use Rattle.sn_table.specs.States.{RowsState, rows_code};
    ghost use Rattle.sn_table.specs.HeldKeys.{IsSound, keys_of};

    ghost Value = { RowsState };

    ghost coded = { rows_code };

    ghost view = { λ s. record { keys = keys_of R.columns s.held } };

    ghost invariant = { λ s. IsSound R.Number.limit s.held };
}

impl<R: AnyRow> Rows<R> {
    /// A set of no row. Rows are found by hashes from this seed.
    pub fn new(alloc: Global, seed: Seed) -> Rows<R>
        ensures { result.keys ≡ [] }
    {
        Rows {
            held: Keys::Narrow(0, IndexSet::with_hasher(alloc, seed)),
            expected: 0,
        }
    }

    /// How many rows there are.
    pub fn len(&self) -> usize
        ensures { result ≡ length self.now.keys }
    {
        count(&self.held)
    }

    /// Tells how many rows will come, so that with the first of them room is made for all. No answer depends on it.
    pub fn expect(&mut self, rows: usize)
        ensures { self.new ≡ self.old }
    {
        self.expected = rows;
    }

    /// Makes room for the rows that are expected.
    #[inline(never)]
    fn make_room(&mut self) -> Result<(), Memory>
        ensures { self.new ≡ self.old }
    {
        reserve(&mut self.held, self.expected)?;
        self.expected = 0;
        Ok(())
    }

    /// Adds a row that can't be held as the others are.
    #[inline(never)]
    fn insert_wide(&mut self, row: &R) -> Result<bool, Memory>
        ensures new { IfOk result (λ new. new ≡ not (list_any (same_row (R.columns row.now)) self.old.keys)) }
        ensures keys { OnOk result (self.new.keys ≡ insert_key same_row self.old.keys (R.columns row.now)) }
        ensures err { OnErr result (self.new.keys ≡ self.old.keys) }
    {
        widen(&mut self.held)?;
        match put(&mut self.held, row)? {
            Some((_, new)) => Ok(new),
            None => unreachable!(),
        }
    }

    /// Whether the rows are held as numbers. No answer depends on it.
    pub fn is_narrow(&self) -> bool {
        matches!(&self.held, Keys::Narrow(_, _))
    }

    /// Adds a row, and says whether it is new. The row is looked up once. An `Err` changes nothing.
    #[inline(always)]
    pub fn insert(&mut self, row: &R) -> Result<bool, Memory>
        ensures new { IfOk result (λ new. new ≡ not (list_any (same_row (R.columns row.now)) self.old.keys)) }
        ensures keys { OnOk result (self.new.keys ≡ insert_key same_row self.old.keys (R.columns row.now)) }
        ensures err { OnErr result (self.new.keys ≡ self.old.keys) }
    {
        if self.expected > 0 {
            self.make_room()?;
        }
        if let Some((_, new)) = put(&mut self.held, row)? {
            return Ok(new);
        }
        self.insert_wide(row)
    }
}
