//! A growing list of rows of one kind.
ghost use Rattle.std.specs.Prelude.{◌≡◌, ◌<◌, ◌++◌, ◌∷◌, [], Some, map, length, slice_get, IfOk, OnOk, OnErr};

use crate::any_row::AnyRow;
use crate::memory::Memory;
use crate::seq::Seq;
use std::alloc::Global;
use std::marker::Model;

/// A growing list of rows of one kind, which contracts see as lists of numbers.
#[derive(Drop)]
pub struct RowSeq<R: AnyRow> {
    held: Vec<R>,
}

impl<R: AnyRow> Model for RowSeq<R> {
    ghost use Rattle.std.specs.Prelude.{List, ℕ, map};
    ghost use Rattle.std.specs.Coded.{coded_ℕ, coded_list};

    ghost Value = { List (List ℕ) };

    ghost coded = { coded_list (coded_list coded_ℕ) };

    ghost view = { λ a. map R.columns a.held.items };
}

impl<R: AnyRow> RowSeq<R> {
    /// An empty list.
    pub fn new(alloc: Global) -> RowSeq<R>
        ensures { result ≡ [] }
    {
        RowSeq {
            held: Vec::new(alloc),
        }
    }

    /// An empty list with room for this many rows, so that none is moved while it grows to them.
    pub fn with_room(alloc: Global, count: usize) -> Result<RowSeq<R>, Memory>
        ensures { IfOk result (λ list. list ≡ []) }
    {
        let held = Vec::with_capacity(alloc, count)?;
        Ok(RowSeq { held })
    }

    /// A copy of these rows.
    pub fn from_slice(alloc: Global, rows: &[R]) -> Result<RowSeq<R>, Memory>
        ensures { IfOk result (λ list. list ≡ map R.columns rows.now) }
    {
        let held = Vec::from_slice(alloc, rows)?;
        Ok(RowSeq { held })
    }

    /// Adds a row at the end. An `Err` changes nothing.
    pub fn push(&mut self, row: &R) -> Result<(), Memory>
        ensures ok { OnOk result (self.new ≡ self.old ++ R.columns row.now ∷ []) }
        ensures err { OnErr result (self.new ≡ self.old) }
    {
        self.held.push(*row)?;
        Ok(())
    }

    /// Drops all rows, and keeps their room.
    pub fn clear(&mut self)
        ensures { self.new ≡ [] }
    {
        self.held.clear();
    }

    /// The row at a place.
    pub fn at(&self, place: usize) -> &R
        requires { place < length self.now }
        ensures { slice_get self.now place ≡ Some (R.columns result.now) }
    {
        &self.held[place]
    }

    /// How many there are.
    pub fn len(&self) -> usize
        ensures { result ≡ length self.now }
    {
        self.held.len()
    }

    /// The rows, in order.
    pub fn as_slice(&self) -> &[R]
        ensures { map R.columns result.now ≡ self.now }
    {
        self.held.as_slice()
    }

    /// The rows as a list.
    pub fn into_seq(self) -> Seq<R>
        ensures { map R.columns result ≡ self }
    {
        Seq::from_vec(self.held)
    }

    /// The rows as a vector.
    pub fn into_vec(self) -> Vec<R>
        ensures { map R.columns result.items ≡ self }
    {
        self.held
    }
}
