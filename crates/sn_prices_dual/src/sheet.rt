//! Prices, with the tables that are worked out of them.
ghost use Rattle.std.specs.Prelude.{◌≡◌};

use sn_base::memory::Memory;
use sn_prices_offers::numbers::{cell, number_at, put_at};
use sn_prices_offers::offers::Offers;
use sn_prices_offers::walk::walk_size;
use std::alloc::Global;

/// The most parts of an item in which prices may be reported.
const FINEST: u64 = 65536;
/// The greatest price of a unit of a limit, in parts of an item.
pub const DEAREST: u64 = 4294967295;

/// What registers of a stage weigh: their bits times a number, and another for each register, over the divisor, rounded down.
#[derive(Clone, Copy, Debug, PartialEq, Eq)]
pub struct Form {
    /// What bits are multiplied by.
    pub times: u64,
    /// What is added for each register.
    pub plus: u64,
    /// What the sum is divided by; with 0 nothing weighs anything.
    pub divisor: u64,
}

/// A limit of each stage from the first to the last one, with the price of a unit of it.
#[derive(Clone, Copy, Debug, PartialEq, Eq)]
pub struct Line {
    /// The first stage, from 0.
    pub first: usize,
    /// The last stage.
    pub last: usize,
    /// What registers weigh by it.
    pub form: Form,
    /// In parts of an item, at most [`DEAREST`].
    pub price: u64,
}

/// A price that can be moved.
#[derive(Clone, Copy, Debug, PartialEq, Eq)]
pub enum Knob {
    /// That of a bit of metadata.
    Metadata,
    /// That of the limit of this number.
    Line(usize),
}

/// Prices, with the tables that are worked out of them.
#[derive(Drop)]
pub struct Sheet {
    /// How many parts make an item.
    pub scale: u64,
    /// The price of a bit of metadata, in parts of an item, at most [`DEAREST`].
    pub metadata: u64,
    /// The limits of stages, with their prices.
    pub lines: Vec<Line>,
    /// What all limits are worth.
    pub paid: u64,
    /// What is asked of each kind of register in each stage.
    pub asked: Vec<u64>,
    /// What each shape pays at least.
    pub placed: Vec<u64>,
    /// Room for a walk.
    pub least: Vec<u64>,
}

/// What registers of this many bits together weigh.
pub fn weight(form: Form, bits: u64, registers: u64) -> u64 {
    let whole = form
        .times
        .saturating_mul(bits)
        .saturating_add(form.plus.saturating_mul(registers));
    if form.divisor == 0 {
        0
    } else {
        whole / form.divisor
    }
}

/// In how many parts of an item prices are reported where a plan may cost this much: a price of all of it stays in its bounds.
fn scale_for(cost: u64) -> u64 {
    let mut scale = FINEST;
    for _ in 0..16 {
        if scale.saturating_mul(cost) <= DEAREST {
            return scale;
        }
        scale /= 2;
    }
    scale
}

/// Prices of 0 for what pieces may take, where a plan may cost this much.
///
/// # Errors
/// Out of memory.
pub fn blank(alloc: Global, o: &Offers, cost: u64) -> Result<Sheet, Memory> {
    let asked = cell(o.kinds.as_slice().len(), o.stages, 0);
    Ok(Sheet {
        scale: scale_for(cost),
        metadata: 0,
        lines: Vec::new(alloc),
        paid: 0,
        asked: vec![in alloc; 0; asked]?,
        placed: vec![in alloc; 0; o.shapes.as_slice().len()]?,
        least: vec![in alloc; 0; walk_size(o)]?,
    })
}

impl Sheet {
    /// The price of a knob. It is 0 where there is no such limit.
    pub fn price(&self, knob: Knob) -> u64 {
        match knob {
            Knob::Metadata => self.metadata,
            Knob::Line(n) => match self.lines.as_slice().get(n) {
                Some(line) => line.price,
                None => 0,
            },
        }
    }

    /// Sets the price of a knob, or to [`DEAREST`] where it is more. Nothing changes where there is no such limit.
    pub fn set_price(&mut self, knob: Knob, price: u64) {
        let price = price.min(DEAREST);
        match knob {
            Knob::Metadata => self.metadata = price,
            Knob::Line(n) => {
                if let Some(line) = self.lines.get_mut(n) {
                    line.price = price;
                }
            }
        }
    }

    /// Adds to what is asked in a place of the table.
    pub fn ask_more(&mut self, place: usize, price: u64) {
        let before = number_at(self.asked.as_slice(), place);
        put_at(&mut self.asked, place, before.saturating_add(price));
    }
}
