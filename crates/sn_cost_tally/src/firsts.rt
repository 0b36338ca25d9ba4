//! One of the rows that are the same, and how many there are.
ghost use Rattle.std.specs.Prelude.{◌≡◌, ℕ, List, ◌*◌, ◌<◌, ◌∷◌, ◌++◌, [], length, OnOk};
ghost use Rattle.sn_base.specs.Groups.{Row};
ghost use Rattle.sn_cost_tally.specs.Firsts.{AreFirsts};

use crate::folds::{COUNT, fold_in};
use sn_base::any_row::AnyRow;
use sn_base::memory::Memory;
use sn_table::numbers::Numbers;
use std::alloc::Global;

/// For each of some distinct rows, in the order of first places, the first place where it comes, and how often it comes.
#[derive(Drop)]
pub struct Firsts {
    /// The first place of one.
    pub places: Vec<u32>,
    /// How many there are.
    pub times: Vec<u64>,
}

impl Firsts {
    /// Of no row.
    pub fn new(alloc: Global) -> Firsts
        ensures places { result.places.items ≡ [] }
        ensures times { result.times.items ≡ [] }
    {
        Firsts {
            places: Vec::new(alloc),
            times: Vec::new(alloc),
        }
    }

    /// One row more, at a place: as many stand before it. There are at most 4,194,304. `numbers` holds the distinct ones, and each row is
    /// looked up once.
    ///
    /// # Errors
    /// Out of memory.
    pub fn add<R: AnyRow>(
        &mut self,
        numbers: &mut Numbers<R>,
        row: &R,
        place: u32,
    ) -> Result<(), Memory>
        requires { (rows : List Row) × AreFirsts rows numbers.old.keys self.old × (place ≡ length rows) × (length rows < 4194304) }
        ensures { (rows : List Row) → AreFirsts rows numbers.old.keys self.old → place ≡ length rows →
            OnOk result (AreFirsts (rows ++ R.columns row.now ∷ []) numbers.new.keys self.new) }
    {
        let number = numbers.number(row)?;
        if number == self.places.len() {
            self.places.push(place)?;
        }
        fold_in(COUNT, &mut self.times, number, 1)
    }
}
