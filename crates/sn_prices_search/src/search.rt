//! A plan that costs little, found step by step.

use crate::board::{Board, bare};
use crate::choice::{Choice, cost_of};
use crate::insert::insert;
use crate::step::{Making, step};
use crate::widen::widened;
use sn_base::memory::Memory;
use sn_gen::draws::Draws;
use sn_prices_dual::sheet::Sheet;
use sn_prices_offers::offers::Offers;
use std::alloc::Global;

/// The steps that may change nothing before it ends.
const IDLE: usize = 7000;
/// How often a plan is made anew, with other numbers drawn.
const ATTEMPTS: u64 = 3;

/// The queries put into the switch one after another, each the best way that those before it leave room for. `None` where one
/// finds no room.
fn first_choices(
    alloc: Global,
    o: &Offers,
    sheet: &Sheet,
    board: &mut Board,
) -> Result<Option<Vec<Choice>>, Memory> {
    let mut choices = Vec::new(alloc);
    for paths in o.queries.as_slice() {
        let found = insert(alloc, o, sheet, board, paths.as_slice(), false)?;
        let Some(choice) = found else {
            return Ok(None);
        };
        choices.push(choice)?;
    }
    Ok(Some(choices))
}

/// The numbers below this one, in order.
fn numbers_below(alloc: Global, count: usize) -> Result<Vec<usize>, Memory> {
    let mut numbers = Vec::new(alloc);
    for number in 0..count {
        numbers.push(number)?;
    }
    Ok(numbers)
}

/// Takes at most so many steps, until the plan costs no more than this, or long enough none made it cheaper.
fn improve(
    alloc: Global,
    o: &Offers,
    sheet: &Sheet,
    making: &mut Making,
    least: u64,
    most: u32,
) -> Result<(), Memory> {
    let mut idle: usize = 0;
    for _ in 0..most {
        if idle >= IDLE || cost_of(making.choices.as_slice()) <= least {
            return Ok(());
        }
        idle = if step(alloc, o, sheet, making)? {
            0
        } else {
            idle.saturating_add(1)
        };
    }
    Ok(())
}

/// The same plan with larger registers, where they cost no more and find room.
fn widen(
    alloc: Global,
    o: &Offers,
    sheet: &Sheet,
    making: &mut Making,
) -> Result<Vec<Choice>, Memory> {
    let prices = sheet.asked.as_slice();
    making.board.ask(o, prices, 0);
    let mut wide = Vec::new(alloc);
    for (choice, paths) in making
        .choices
        .as_slice()
        .iter()
        .zip(o.queries.as_slice().iter())
    {
        if let Some(pieces) = paths.as_slice().get(choice.path) {
            let board = &mut making.board;
            wide.push(widened(alloc, o, prices, board, pieces.as_slice(), choice)?)?;
        }
    }
    Ok(wide)
}

/// A plan that is made with the numbers that are drawn from this one on. Where not all queries find room there are no choices.
fn attempt(
    alloc: Global,
    o: &Offers,
    sheet: &Sheet,
    least: u64,
    most: u32,
    number: u64,
) -> Result<Making, Memory> {
    let mut board = bare(alloc, o)?;
    board.ask(o, sheet.asked.as_slice(), 4);
    let choices = match first_choices(alloc, o, sheet, &mut board)? {
        Some(choices) => choices,
        None => Vec::new(alloc),
    };
    let order = numbers_below(alloc, choices.as_slice().len())?;
    let mut making = Making {
        board,
        choices,
        order,
        draws: Draws { number },
    };
    improve(alloc, o, sheet, &mut making, least, most)?;
    Ok(making)
}

/// How each query stands in a plan that costs little, guided by prices. `least`: a number that no plan is known to cost less than;
/// the search ends there. Where the queries, put in one after another, don't all find room, there are no choices, and no other
/// attempt is made: each begins alike. Each of up to three attempts takes at most `most` steps.
///
/// That it is the least isn't promised, nor that it fits: whoever runs it has it tested.
///
/// # Errors
/// Out of memory.
pub fn search(
    alloc: Global,
    o: &Offers,
    sheet: &Sheet,
    least: u64,
    most: u32,
) -> Result<Vec<Choice>, Memory> {
    let mut best = attempt(alloc, o, sheet, least, most, 1)?;
    for number in 2..ATTEMPTS + 1 {
        let cost = cost_of(best.choices.as_slice());
        if cost <= least {
            break;
        }
        let other = attempt(alloc, o, sheet, least, most, number)?;
        if cost_of(other.choices.as_slice()) < cost {
            best = other;
        }
    }
    widen(alloc, o, sheet, &mut best)
}
