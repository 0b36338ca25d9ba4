//! How a query stands in a switch.

use crate::board::{Board, Stand};
use sn_base::memory::Memory;
use sn_base::seq::Seq;
use sn_prices_offers::offers::Offers;
use std::alloc::Global;

/// How a query stands in a switch.
#[derive(Drop)]
pub struct Choice {
    /// The number of its path.
    pub path: usize,
    /// What its pieces cost together, in items.
    pub cost: u64,
    /// What they cost with what they were asked, in parts of an item.
    pub key: u64,
    /// Its pieces, in order.
    pub stands: Seq<Stand>,
}

impl Choice {
    /// A path of which no piece stands.
    pub fn new(alloc: Global, path: usize) -> Choice {
        Choice {
            path,
            cost: 0,
            key: 0,
            stands: Seq::new(alloc),
        }
    }

    /// Adds a piece that costs this with what it was asked.
    ///
    /// # Errors
    /// Out of memory. Its cost is counted then all the same.
    pub fn add(&mut self, stand: Stand, key: u64) -> Result<(), Memory> {
        self.cost = self.cost.saturating_add(stand.offer.cost);
        self.key = self.key.saturating_add(key);
        self.stands.push(stand)
    }

    /// Takes the room of all pieces.
    pub fn take(&self, o: &Offers, prices: &[u64], board: &mut Board) {
        for stand in self.stands.as_slice() {
            board.take(o, prices, stand);
        }
    }

    /// Gives the room of all pieces back.
    pub fn give(&self, o: &Offers, prices: &[u64], board: &mut Board) {
        for stand in self.stands.as_slice() {
            board.give(o, prices, stand);
        }
    }
}

/// What queries cost together.
pub fn cost_of(choices: &[Choice]) -> u64 {
    let mut cost: u64 = 0;
    for choice in choices {
        cost = cost.saturating_add(choice.cost);
    }
    cost
}
