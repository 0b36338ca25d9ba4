//! Prices, limit by limit.

use crate::bound::bound;
use crate::forms::forms_of;
use crate::raise::{raise, raise_each};
use crate::sheet::{Form, Knob, Line, Sheet, blank};
use sn_base::memory::Memory;
use sn_prices_offers::offers::Offers;
use std::alloc::Global;

/// How many limits get a price at most.
const LIMITS: usize = 20;
/// A limit that raises the bound by less than this part of it is the last.
const PART: u64 = 100000;

/// What raises the bound most.
#[derive(Clone, Copy)]
enum Move {
    /// Nothing raises it.
    Nothing,
    /// This price of metadata.
    Metadata(u64),
    /// One limit more.
    Line(Line),
}

/// What raises the bound most, and the bound with it.
#[derive(Clone, Copy)]
struct Best {
    chosen: Move,
    value: u64,
}

/// The better one of the best limit so far and this one.
fn tried(
    o: &Offers,
    sheet: &mut Sheet,
    line: Line,
    value: u64,
    best: Best,
) -> Result<Best, Memory> {
    let number = sheet.lines.as_slice().len();
    sheet.lines.push(line)?;
    let found = raise(o, sheet, Knob::Line(number), value);
    match sheet.lines.pop() {
        Some(line) if found > best.value => Ok(Best {
            chosen: Move::Line(line),
            value: found,
        }),
        _ => Ok(best),
    }
}

/// The better one of the best limit so far and those of a form from this stage on.
fn best_from(
    o: &Offers,
    sheet: &mut Sheet,
    form: Form,
    first: usize,
    value: u64,
    best: Best,
) -> Result<Best, Memory> {
    let mut best = best;
    for last in first..o.stages {
        let line = Line {
            first,
            last,
            form,
            price: 0,
        };
        best = tried(o, sheet, line, value, best)?;
    }
    Ok(best)
}

/// The better one of the best limit so far and those of a form.
fn best_of(
    o: &Offers,
    sheet: &mut Sheet,
    form: Form,
    value: u64,
    best: Best,
) -> Result<Best, Memory> {
    let mut best = best;
    for first in 0..o.stages {
        best = best_from(o, sheet, form, first, value, best)?;
    }
    Ok(best)
}

/// How much metadata at another price raises the bound from this one. Its price stays.
fn best_metadata(o: &Offers, sheet: &mut Sheet, value: u64) -> Best {
    let before = sheet.metadata;
    let found = raise(o, sheet, Knob::Metadata, value);
    let price = sheet.metadata;
    sheet.metadata = before;
    let chosen = if found > value {
        Move::Metadata(price)
    } else {
        Move::Nothing
    };
    Best {
        chosen,
        value: found,
    }
}

/// What raises the bound most from this one: metadata at another price, or a limit of one of these forms.
fn best_move(o: &Offers, sheet: &mut Sheet, forms: &[Form], value: u64) -> Result<Best, Memory> {
    let mut best = best_metadata(o, sheet, value);
    for form in forms {
        best = best_of(o, sheet, *form, value, best)?;
    }
    Ok(best)
}

/// Raises the bound by what raises it most, and then by the prices of all limits. The bound that is reached from this one.
fn improve(o: &Offers, sheet: &mut Sheet, forms: &[Form], value: u64) -> Result<u64, Memory> {
    let best = best_move(o, sheet, forms, value)?;
    match best.chosen {
        Move::Nothing => return Ok(value),
        Move::Metadata(price) => sheet.metadata = price,
        Move::Line(line) => sheet.lines.push(line)?,
    }
    let once = raise_each(o, sheet, best.value);
    Ok(raise_each(o, sheet, once))
}

/// A price in whole items, rounded.
fn whole(price: u64, scale: u64) -> u64 {
    price.saturating_add(scale / 2) / scale.max(1)
}

/// Adds the limits of a sheet with their prices in whole items.
fn add_whole(plain: &mut Sheet, sheet: &Sheet) -> Result<(), Memory> {
    for line in sheet.lines.as_slice() {
        let price = whole(line.price, sheet.scale);
        plain.lines.push(Line { price, ..*line })?;
    }
    Ok(())
}

/// The prices of a sheet in whole items, where they show as much, and else as they are.
fn in_items(alloc: Global, o: &Offers, sheet: Sheet, value: u64) -> Result<Sheet, Memory> {
    let mut sheet = sheet;
    let mut plain = blank(alloc, o, 0)?;
    plain.scale = 1;
    plain.metadata = whole(sheet.metadata, sheet.scale);
    add_whole(&mut plain, &sheet)?;
    if bound(o, &mut plain) >= value.div_ceil(sheet.scale.max(1)) {
        return Ok(plain);
    }
    bound(o, &mut sheet);
    Ok(sheet)
}

/// Prices for what pieces may take, found limit by limit: each is the one that raises the bound most. The tables of the sheet
/// are those of its prices.
///
/// They are good ones in general and not the best: nothing is promised of them.
///
/// # Errors
/// Out of memory.
pub fn ascend(alloc: Global, o: &Offers) -> Result<Sheet, Memory> {
    let forms = forms_of(alloc, o)?;
    let mut flat = blank(alloc, o, 0)?;
    let cost = bound(o, &mut flat) / flat.scale.max(1);
    let mut sheet = blank(alloc, o, cost)?;
    let mut value = bound(o, &mut sheet);
    for _ in 0..LIMITS {
        let found = improve(o, &mut sheet, forms.as_slice(), value)?;
        if found <= value.saturating_add(value / PART) {
            break;
        }
        value = found;
    }
    in_items(alloc, o, sheet, value)
}
