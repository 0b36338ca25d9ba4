//! Raising a bound by moving one price.

use crate::bound::bound;
use crate::sheet::{Knob, Sheet};
use sn_prices_offers::offers::Offers;

/// How often a price is moved in one direction at most: up by all its 32 bits, and back.
const MOVES: usize = 80;

/// A price that is moved by a step up or down.
fn moved(price: u64, step: u64, up: bool) -> u64 {
    if up {
        price.saturating_add(step)
    } else {
        price.saturating_sub(step)
    }
}

/// The bound where a price is moved by a step. It stays moved where the bound rises.
fn try_step(o: &Offers, sheet: &mut Sheet, knob: Knob, step: u64, up: bool, value: u64) -> u64 {
    let before = sheet.price(knob);
    sheet.set_price(knob, moved(before, step, up));
    let found = bound(o, sheet);
    if found > value {
        return found;
    }
    sheet.set_price(knob, before);
    value
}

/// Moves a price in one direction while the bound rises, by steps that double, and then by ever smaller ones. The bound that is
/// reached.
fn climb(o: &Offers, sheet: &mut Sheet, knob: Knob, up: bool, value: u64) -> u64 {
    let mut value = value;
    let mut step: u64 = 1;
    let mut growing = true;
    for _ in 0..MOVES {
        if step == 0 {
            return value;
        }
        let found = try_step(o, sheet, knob, step, up, value);
        growing = growing && found > value;
        step = if growing {
            step.saturating_mul(2)
        } else {
            step / 2
        };
        value = found;
    }
    value
}

/// Moves a price up, or down where that raises nothing, nearer to where the bound is greatest. The bound that is reached from this one.
pub fn raise(o: &Offers, sheet: &mut Sheet, knob: Knob, value: u64) -> u64 {
    let found = climb(o, sheet, knob, true, value);
    if found > value {
        return found;
    }
    climb(o, sheet, knob, false, value)
}

/// Moves the prices of metadata and of each limit once. The bound that is reached from this one.
pub fn raise_each(o: &Offers, sheet: &mut Sheet, value: u64) -> u64 {
    let mut value = raise(o, sheet, Knob::Metadata, value);
    for n in 0..sheet.lines.as_slice().len() {
        value = raise(o, sheet, Knob::Line(n), value);
    }
    value
}
