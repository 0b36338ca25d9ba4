//! What a switch has left while a plan is made.

use sn_base::memory::Memory;
use sn_prices_offers::numbers::{cell, number_at, put_at};
use sn_prices_offers::offers::{Offer, Offers, Shape};
use sn_prices_offers::walk::{NONE, walk_size};
use std::alloc::Global;

/// A piece in the switch.
#[derive(Clone, Copy)]
pub struct Stand {
    /// The way in which it is asked.
    pub offer: Offer,
    /// The stages of its registers, of which it has at most eight.
    pub stages: [usize; 8],
}

/// What a switch has left, and what is asked for it.
#[derive(Drop)]
pub struct Board {
    /// How many quarters of the prices are asked.
    pub quarters: u64,
    /// The registers that each stage may still have.
    actions: Vec<u64>,
    /// The bits that each stage has left.
    bits: Vec<u64>,
    /// The bits of metadata that are left.
    pub metadata: u64,
    /// What is asked of each kind of register in each stage, or [`NONE`] where the stage has no room.
    pub asked: Vec<u64>,
    /// Room for a walk.
    pub least: Vec<u64>,
}

/// A part of a price, in quarters.
pub fn part_of(price: u64, quarters: u64) -> u64 {
    price.saturating_mul(quarters) / 4
}

/// A switch in which nothing stands.
///
/// # Errors
/// Out of memory.
pub fn bare(alloc: Global, o: &Offers) -> Result<Board, Memory> {
    let asked = cell(o.kinds.as_slice().len(), o.stages, 0);
    Ok(Board {
        quarters: 4,
        actions: vec![in alloc; o.actions; o.stages]?,
        bits: vec![in alloc; o.bits; o.stages]?,
        metadata: o.metadata,
        asked: vec![in alloc; 0; asked]?,
        least: vec![in alloc; 0; walk_size(o)]?,
    })
}

impl Board {
    /// Works out what is asked in a stage, by these prices.
    fn ask_stage(&mut self, o: &Offers, prices: &[u64], stage: usize) {
        let actions = number_at(self.actions.as_slice(), stage);
        let bits = number_at(self.bits.as_slice(), stage);
        for (kind, own) in o.kinds.as_slice().iter().enumerate() {
            let place = cell(kind, o.stages, stage);
            let price = if actions == 0 || bits < *own {
                NONE
            } else {
                part_of(number_at(prices, place), self.quarters)
            };
            put_at(&mut self.asked, place, price);
        }
    }

    /// Works out what is asked in each stage, by so many quarters of these prices.
    pub fn ask(&mut self, o: &Offers, prices: &[u64], quarters: u64) {
        self.quarters = quarters;
        for stage in 0..o.stages {
            self.ask_stage(o, prices, stage);
        }
    }

    /// Takes a register's room in a stage.
    fn take_register(&mut self, stage: usize, bits: u64) {
        let actions = number_at(self.actions.as_slice(), stage);
        let left = number_at(self.bits.as_slice(), stage);
        put_at(&mut self.actions, stage, actions.saturating_sub(1));
        put_at(&mut self.bits, stage, left.saturating_sub(bits));
    }

    /// Gives a register's room in a stage back.
    fn give_register(&mut self, stage: usize, bits: u64) {
        let actions = number_at(self.actions.as_slice(), stage);
        let left = number_at(self.bits.as_slice(), stage);
        put_at(&mut self.actions, stage, actions.saturating_add(1));
        put_at(&mut self.bits, stage, left.saturating_add(bits));
    }

    /// Takes or gives back the registers of tables that stand in these stages.
    fn move_registers(
        &mut self,
        o: &Offers,
        prices: &[u64],
        shape: &Shape,
        stages: &[usize],
        taken: bool,
    ) {
        for (stay, stage) in shape.stays.as_slice().iter().zip(stages.iter()) {
            let bits = number_at(o.kinds.as_slice(), stay.kind);
            if taken {
                self.take_register(*stage, bits);
            } else {
                self.give_register(*stage, bits);
            }
            self.ask_stage(o, prices, *stage);
        }
    }

    /// Takes the room of a piece.
    pub fn take(&mut self, o: &Offers, prices: &[u64], stand: &Stand) {
        self.metadata = self.metadata.saturating_sub(stand.offer.metadata);
        if let Some(shape) = o.shapes.as_slice().get(stand.offer.shape) {
            self.move_registers(o, prices, shape, &stand.stages, true);
        }
    }

    /// Gives the room of a piece back.
    pub fn give(&mut self, o: &Offers, prices: &[u64], stand: &Stand) {
        self.metadata = self.metadata.saturating_add(stand.offer.metadata);
        if let Some(shape) = o.shapes.as_slice().get(stand.offer.shape) {
            self.move_registers(o, prices, shape, &stand.stages, false);
        }
    }
}
