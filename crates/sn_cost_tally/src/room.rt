//! Keys with their times, in registers of a size.
ghost use Rattle.std.specs.Prelude.{◌≡◌, ◌≤◌, ◌&&◌, ◌||◌, filter, length, nat_eq, nat_lt, IfOk};
ghost use Rattle.sn_base.specs.Groups.{Apart, same_row};
ghost use Rattle.sn_chain.specs.Limits.{largest_register};
ghost use Rattle.sn_cost_seats.specs.Tallies.{marked, sum_unmarked};
ghost use Rattle.sn_cost_tally.specs.Places.{homes_among};

use crate::kept::{kept_count, set_count};
use crate::marks::Marks;
use crate::seats::seat;
use crate::tally::Tally;
use sn_base::any_row::AnyRow;
use sn_base::memory::Memory;
use sn_base::row_seq::RowSeq;
use sn_base::seed::Seed;
use sn_cost_seats::tally::over;
use std::alloc::Global;

/// What the registers of one size after another, and the tables of their keys, share. One is made for a whole cost table, so
/// that what one window took serves the next.
#[derive(Drop)]
pub struct Room {
    /// Whence memory comes.
    pub alloc: Global,
    /// The seed from which tables of keys hash. No answer depends on it.
    pub seed: Seed,
    marks: Marks,
}

/// What registers make of keys.
#[derive(Drop)]
pub struct Homes {
    /// How often the keys without a home come, together.
    pub over: u64,
    /// Of each key, whether it has a home.
    pub marks: Vec<bool>,
    /// How many of the marks are set.
    pub kept: u64,
    ghost known: { kept ≡ length (filter (λ mark. mark) marks.items) },
}

impl Homes {
    /// Those with these marks, which are counted.
    pub fn new(over: u64, marks: Vec<bool>) -> Homes
        ensures over { result.over ≡ over }
        ensures marks { result.marks.items ≡ marks.items }
    {
        let kept = set_count(marks.as_slice()) as u64;
        Homes { over, marks, kept }
    }

    /// How many of these rows have their mark set. No mark is looked at where there are no more marks than rows.
    pub fn kept_of<R: AnyRow>(&self, rows: &RowSeq<R>) -> u64
        ensures { result ≡ length (marked self.now.marks.items rows.now) }
    {
        if self.marks.len() > rows.len() {
            return kept_count(rows, self.marks.as_slice()) as u64;
        }
        self.kept
    }

    /// A copy.
    ///
    /// # Errors
    /// Out of memory.
    pub fn copied(&self, alloc: Global) -> Result<Homes, Memory>
        ensures over { IfOk result (λ homes. homes.over ≡ self.now.over) }
        ensures marks { IfOk result (λ homes. homes.marks.items ≡ self.now.marks.items) }
    {
        let marks = Vec::from_slice(alloc, self.marks.as_slice())?;
        Ok(Homes {
            over: self.over,
            marks,
            kept: self.kept,
        })
    }
}

/// Whether keys have a home each, whatever their slots are: none has none to lose, and one alone takes the first register's.
fn are_alone<R: AnyRow>(depth: u32, keys: &RowSeq<R>) -> bool
    ensures { result ≡ (nat_eq (length keys.now) 0 || (nat_eq (length keys.now) 1 && nat_lt 0 depth)) }
{
    keys.len() == 0 || keys.len() == 1 && depth > 0
}

impl Room {
    /// Takes no memory yet.
    pub fn new(alloc: Global, seed: Seed) -> Room {
        Room {
            alloc,
            seed,
            marks: Marks::new(alloc),
        }
    }

    /// Puts keys, no two the same, into a chain of `depth` registers with `slots` slots each, at most 4 registers and 1 to
    /// 65536 slots. Where no key stands in another's way no register is touched.
    ///
    /// # Errors
    /// Out of memory.
    pub fn homes<R: AnyRow>(
        &mut self,
        depth: u32,
        slots: u32,
        tally: &Tally<R>,
    ) -> Result<Homes, Memory>
        requires most_depth { depth ≤ 4 }
        requires some_slots { 1 ≤ slots }
        requires most_slots { slots ≤ largest_register }
        requires apart { Apart same_row tally.now.keys }
        requires times { length tally.now.times.items ≡ length tally.now.keys }
        requires few { sum_unmarked (homes_among depth slots tally.now.keys) tally.now.times.items ≤ 4194304 }
        ensures over { IfOk result (λ homes. homes.over ≡ sum_unmarked (homes_among depth slots tally.now.keys) tally.now.times.items) }
        ensures marks { IfOk result (λ homes. homes.marks.items ≡ homes_among depth slots tally.now.keys) }
    {
        let keys = &tally.keys;
        if are_alone(depth, keys) {
            let marks = vec![in self.alloc; true; keys.len()]?;
            return Ok(Homes::new(0, marks));
        }
        let marks = seat(
            self.alloc,
            &mut self.marks,
            depth,
            slots,
            keys.as_slice(),
            tally.slots.as_slice(),
        )?;
        let over = over(marks.as_slice(), tally.times.as_slice());
        Ok(Homes::new(over, marks))
    }
}
