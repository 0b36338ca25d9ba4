//! A chain of registers.
ghost use Rattle.std.specs.Prelude.{◌≡◌, ◌<◌, ◌≤◌, ℕ, None, false, is_none, length, max, IfOk, IfSome};
ghost use Rattle.std.specs.Option.{ForSome, option_map};
ghost use Rattle.sn_base.specs.Groups.{Row};
ghost use Rattle.sn_chain.specs.Chain.{AreSlots, KeysStand, empty_chain, after_offer, answer_at, holder, vacancy};
ghost use Rattle.sn_chain.specs.Limits.{largest_register};
ghost use Rattle.sn_chain.specs.Registers.{cell};

use crate::cells::Cells;
use crate::marks::{is_marked, mark, next_marked, unmark_all, unmarked};
use crate::offer::Offer;
use crate::register::{Found, look};
use sn_base::any_row::AnyRow;
use sn_base::fold::Fold;
use sn_base::memory::Memory;
use std::alloc::Global;
use std::marker::Model;

/// The most slots of a register.
pub const LARGEST_REGISTER: u64 = 65536;

/// A chain of one to four registers with equally many slots each, which folds values by key. A key takes
/// the first of its slots that is free, one in each register, and keeps it until the chain is cleared.
#[derive(Drop)]
pub struct Chain<F: Fold, R: AnyRow> {
    fold: F,
    depth: u32,
    slots: u32,
    cells: Cells<R>,
    /// A bit for each cell: 1 exactly where it is in use. So a chain is emptied without a write to any cell.
    marks: Vec<u64>,
}

impl<F: Fold, R: AnyRow> Model for Chain<F, R> {
    ghost use Rattle.sn_chain.specs.Chain.{ChainState, chain_code};
    ghost use Rattle.sn_chain.specs.Cells.{all_shown, AreCells};

    ghost Value = { ChainState F };

    ghost coded = { chain_code F.code };

    ghost view = { λ a. record { fold = a.fold; depth = a.depth; slots = a.slots; cells = all_shown a.marks.items a.cells } };

    ghost invariant = { λ a. AreCells (F.takes a.fold) a.depth a.slots a.cells a.marks.items };
}

impl<F: Fold, R: AnyRow> Chain<F, R> {
    /// An empty chain of `depth` registers with `slots` slots each, 1 to 4 and 1 to [`LARGEST_REGISTER`]. All memory that
    /// the chain ever needs is taken here.
    pub fn make(alloc: Global, fold: F, depth: u32, slots: u32) -> Result<Chain<F, R>, Memory>
        requires some_depth { 1 ≤ depth }
        requires most_depth { depth ≤ 4 }
        requires some_slots { 1 ≤ slots }
        requires most_slots { slots ≤ largest_register }
        ensures { IfOk result (λ chain. chain ≡ empty_chain fold depth slots) }
    {
        let value = fold.unit();
        let places = depth as usize * slots as usize;
        let cells = Cells::make(alloc, places, value)?;
        let marks = unmarked(alloc, places)?;
        Ok(Chain {
            fold,
            depth,
            slots,
            cells,
            marks,
        })
    }

    /// Offers a key with a value. `Held` exactly where the key is held, and its value becomes the fold's
    /// step from it to `v`. Else `New` exactly where one of the key's slots is free: the key takes the first,
    /// with value `v`. Else `Over`, and nothing changes. Takes no memory.
    pub fn offer(&mut self, key: &R, v: u64) -> Offer
        requires { F.takes self.old.fold v }
        ensures answer { result ≡ answer_at (holder self.old (R.columns key.now)) (vacancy self.old (R.columns key.now)) }
        ensures after { self.new ≡ after_offer F.join self.old (R.columns key.now) v }
    {
        self.offer_by(key, v, None)
    }

    /// Does what `offer` does, where the key's slots are known: slot `i` of `at` is that of register `i`, for
    /// each register of the chain. Takes no memory.
    pub fn offer_at(&mut self, key: &R, v: u64, at: &[u32; 4]) -> Offer
        requires had { F.takes self.old.fold v }
        requires slots { AreSlots self.old.depth self.old.slots (R.columns key.now) at.now }
        ensures answer { result ≡ answer_at (holder self.old (R.columns key.now)) (vacancy self.old (R.columns key.now)) }
        ensures after { self.new ≡ after_offer F.join self.old (R.columns key.now) v }
    {
        self.offer_by(key, v, Some(at))
    }

    fn offer_by(&mut self, key: &R, v: u64, known: Option<&[u32; 4]>) -> Offer
        requires had { F.takes self.old.fold v }
        requires slots { ForSome known (λ at. AreSlots self.old.depth self.old.slots (R.columns key.now) at.now) }
        ensures answer { result ≡ answer_at (holder self.old (R.columns key.now)) (vacancy self.old (R.columns key.now)) }
        ensures after { self.new ≡ after_offer F.join self.old (R.columns key.now) v }
    {
        match look(&self.cells, &self.marks, self.depth, self.slots, key, known) {
            Found::Held(at) => {
                let value = self.fold.step(self.cells.value(at), v);
                self.cells.set_value(at, value);
                Offer::Held
            }
            Found::Empty(at) => {
                self.cells.take(at, key, v);
                mark(&mut self.marks, at);
                Offer::New
            }
            Found::Full => Offer::Over,
        }
    }

    /// The key and the fold at a place: place `i * slots + s` is slot `s` of register `i`. `None` exactly
    /// where the place is empty or past the end. Takes no memory.
    pub fn get(&self, place: u32) -> Option<(R, u64)>
        ensures value { option_map (λ e. (R.columns e.0, e.1)) result ≡ cell self.now.cells place }
        ensures had { IfSome result (λ e. F.takes self.now.fold e.1) }
        ensures held { IfSome result (λ e. holder self.now (R.columns e.0) ≡ Some place) }
    {
        if place >= self.places() || !is_marked(&self.marks, place as usize) {
            return None;
        }
        Some(self.cells.at(place as usize))
    }

    /// The first place from this one on that holds a key. Where none does, the larger of this one and the number
    /// of places. So a walk from held place to held place passes over 64 empty cells at a time. Takes no memory.
    pub fn next_held(&self, from: u32) -> u32
        ensures no_less { from ≤ result }
        ensures empty { (p : ℕ) → from ≤ p → p < result → cell self.now.cells p ≡ None }
        ensures held { result < length self.now.cells → is_none (cell self.now.cells result) ≡ false }
        ensures end { length self.now.cells ≤ result → result ≡ max from (length self.now.cells) }
    {
        match next_marked(&self.marks, from as usize) {
            Some(place) => place as u32,
            None => from.max(self.places()),
        }
    }

    /// What holds of every chain, however it came to be: each key that it holds stands at one of its own places, at no
    /// other, where all its places in earlier registers are held, and it is found there. This says so, and does nothing.
    pub fn keys_stand(&self)
        ensures stand { KeysStand self.now.depth self.now.slots self.now.cells }
        ensures found { (p : ℕ) (e : Row × ℕ) → cell self.now.cells p ≡ Some e → holder self.now e.0 ≡ Some p }
    {
        let _ = &self.cells;
    }

    /// How many places there are: `slots` for each register. Takes no memory.
    pub fn places(&self) -> u32
        ensures { result ≡ length self.now.cells }
    {
        self.depth * self.slots
    }

    /// Empties the chain. It writes to no cell, only a word for each 64 of them. Takes no memory.
    pub fn clear(&mut self)
        ensures { self.new ≡ empty_chain self.old.fold self.old.depth self.old.slots }
    {
        unmark_all(&mut self.marks);
    }
}
