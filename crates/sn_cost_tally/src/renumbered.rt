//! Numbered keys that come one after another, by numbers in the order in which they come.
ghost use Rattle.std.specs.Prelude.{◌≡◌, ◌<◌, [], length, map, IfOk, OnOk};
ghost use Rattle.std.specs.List.{position_or_len};
ghost use Rattle.indexmap.specs.IndexSet.{insert_key};
ghost use Rattle.sn_base.specs.Groups.{Apart, same_row};
ghost use Rattle.sn_cost_seats.specs.Seats.{row_at};
ghost use Rattle.sn_cost_tally.specs.Renumbered.{AreRenumbered};

use crate::numbered::Numbered;
use sn_base::any_row::AnyRow;
use sn_base::memory::Memory;
use sn_base::row_seq::RowSeq;
use std::alloc::Global;

/// The keys that came so far, in the order in which they came first. No key is hashed.
#[derive(Drop)]
pub(crate) struct Renumbered<R: AnyRow> {
    /// Of each key with a number one more than its place among those that came, and 0 as long as it didn't come.
    pub(crate) places: Vec<usize>,
    pub(crate) keys: RowSeq<R>,
    /// Their slots in the first two registers, if these had the largest size.
    pub(crate) slots: Vec<[u32; 2]>,
}

impl<R: AnyRow> Renumbered<R> {
    /// No key of these came.
    pub(crate) fn new(alloc: Global, all: &Numbered<R>) -> Result<Renumbered<R>, Memory>
        ensures keys { IfOk result (λ own. own.keys ≡ []) }
        ensures so_far { IfOk result (λ own. AreRenumbered all.now.keys own.keys own.places.items own.slots.items) }
    {
        let places = vec![in alloc; 0; all.keys.len()]?;
        Ok(Renumbered {
            places,
            keys: RowSeq::new(alloc),
            slots: Vec::new(alloc),
        })
    }

    /// The place of the key with a number among those that came. It comes now if it didn't before.
    pub(crate) fn number(&mut self, all: &Numbered<R>, number: usize) -> Result<usize, Memory>
        requires within { number < length all.now.keys }
        requires apart { Apart same_row all.now.keys }
        requires so_far { AreRenumbered all.now.keys self.old.keys self.old.places.items self.old.slots.items }
        ensures place { IfOk result (λ place. place ≡ position_or_len (same_row (row_at all.now.keys number)) self.old.keys) }
        ensures keys { OnOk result (self.new.keys ≡ insert_key same_row self.old.keys (row_at all.now.keys number)) }
        ensures so_far { OnOk result (AreRenumbered all.now.keys self.new.keys self.new.places.items self.new.slots.items) }
    {
        let after = self.places[number];
        if after > 0 {
            return Ok(after - 1);
        }
        self.keys.push(all.keys.at(number))?;
        self.slots.push(all.slots[number])?;
        let count = self.keys.len();
        self.places[number] = count;
        Ok(count - 1)
    }
}
