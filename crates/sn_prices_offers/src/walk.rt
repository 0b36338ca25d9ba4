//! The least that tables pay over the stages of a switch.

use crate::numbers::{cell, number_at, put_at};
use crate::offers::{Offers, Shape};

/// What is asked where nothing may stand.
pub const NONE: u64 = u64::MAX;

/// The width of the rows of what registers pay at least: a stage each, and one past the last.
fn width(o: &Offers) -> usize {
    o.stages.saturating_add(1)
}

/// How many numbers a walk needs: rows for at most eight registers.
pub fn walk_size(o: &Offers) -> usize {
    width(o).saturating_mul(8)
}

/// What the registers of a shape after this one pay at least, where this one stands in this stage.
fn after_it(o: &Offers, shape: &Shape, place: usize, stage: usize, least: &[u64]) -> u64 {
    let after = stage.saturating_add(1);
    let next = place.saturating_add(1);
    match shape.stays.as_slice().get(next) {
        Some(stay) => {
            let first = after.saturating_add(stay.gap).min(o.stages);
            number_at(least, cell(next, width(o), first))
        }
        None if after.saturating_add(shape.tail) <= o.stages => 0,
        None => NONE,
    }
}

/// What this register and those after it pay at least, where it stands in this stage.
fn standing(
    o: &Offers,
    shape: &Shape,
    place: usize,
    stage: usize,
    asked: &[u64],
    least: &[u64],
) -> u64 {
    match shape.stays.as_slice().get(place) {
        Some(stay) => number_at(asked, cell(stay.kind, o.stages, stage)).saturating_add(after_it(
            o, shape, place, stage, least,
        )),
        None => NONE,
    }
}

/// Works out what a register and those after it pay at least, for each stage from which it may stand.
fn walk_register(o: &Offers, shape: &Shape, place: usize, asked: &[u64], least: &mut Vec<u64>) {
    let mut lowest = NONE;
    put_at(least, cell(place, width(o), o.stages), NONE);
    for back in 0..o.stages {
        let stage = o.stages - 1 - back;
        lowest = lowest.min(standing(o, shape, place, stage, asked, least.as_slice()));
        put_at(least, cell(place, width(o), stage), lowest);
    }
}

/// The least that tables pay, where each kind of register is asked this much in each stage, or [`NONE`] where they have no
/// room. What each register and those after it pay at least is left in the table.
pub fn walk(o: &Offers, shape: &Shape, asked: &[u64], least: &mut Vec<u64>) -> u64 {
    let stays = shape.stays.as_slice();
    let count = stays.len();
    for back in 0..count {
        walk_register(o, shape, count - 1 - back, asked, least);
    }
    match stays {
        [first, ..] => number_at(least.as_slice(), first.gap.min(o.stages)),
        [] if shape.tail <= o.stages => 0,
        [] => NONE,
    }
}

/// The last stage from `first` on from which a register and those after it pay as little as from there, or else the first one.
fn resting(o: &Offers, place: usize, first: usize, least: &[u64]) -> usize {
    let lowest = number_at(least, cell(place, width(o), first));
    for stage in first..o.stages {
        if number_at(least, cell(place, width(o), stage.saturating_add(1))) != lowest {
            return stage;
        }
    }
    first
}

/// The first stage from `first` on in which a register pays as little, with those after it, as from there.
fn earliest(
    o: &Offers,
    shape: &Shape,
    place: usize,
    first: usize,
    asked: &[u64],
    least: &[u64],
) -> usize {
    let lowest = number_at(least, cell(place, width(o), first));
    for stage in first..o.stages {
        if standing(o, shape, place, stage, asked, least) == lowest {
            return stage;
        }
    }
    first
}

/// The stages of registers that pay the least by the table that a walk left: as late as can be, or as early.
pub fn stages_of(
    o: &Offers,
    shape: &Shape,
    asked: &[u64],
    least: &[u64],
    late: bool,
) -> [usize; 8] {
    let mut stages = [0; 8];
    let mut first: usize = 0;
    for (place, stay) in shape.stays.as_slice().iter().enumerate() {
        first = first.saturating_add(stay.gap);
        let stage = if late {
            resting(o, place, first, least)
        } else {
            earliest(o, shape, place, first, asked, least)
        };
        if let Some(held) = stages.get_mut(place) {
            *held = stage;
        }
        first = stage.saturating_add(1);
    }
    stages
}
