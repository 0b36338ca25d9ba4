//! A step of the search: some queries are taken out and put back.

use crate::board::Board;
use crate::choice::{Choice, cost_of};
use crate::draws::{below, one_of};
use crate::insert::insert;
use sn_base::memory::Memory;
use sn_gen::draws::Draws;
use sn_prices_dual::sheet::Sheet;
use sn_prices_offers::offers::Offers;
use std::alloc::Global;
use std::mem;

/// How many quarters of the prices a query that is put back is asked.
const QUARTERS: [u64; 6] = [0, 0, 1, 3, 4, 6];
/// How many queries are taken out.
const TAKEN: [u64; 6] = [1, 2, 2, 3, 3, 4];

/// A plan that is made better step by step.
#[derive(Drop)]
pub struct Making {
    /// What is left of the switch.
    pub board: Board,
    /// How each query stands.
    pub choices: Vec<Choice>,
    /// The numbers of the queries, of which the first ones are taken out next.
    pub order: Vec<usize>,
    /// What is drawn next.
    pub draws: Draws,
}

/// The number of a query in an order, or 0 past the last.
fn query_at(order: &[usize], place: usize) -> usize {
    match order.get(place) {
        Some(query) => *query,
        None => 0,
    }
}

/// Writes the number of a query in an order.
fn put_query(order: &mut Vec<usize>, place: usize, query: usize) {
    if let Some(held) = order.get_mut(place) {
        *held = query;
    }
}

/// Draws the queries that are taken out, as the first so many of the order.
fn draw_order(making: &mut Making, count: usize) {
    let known = making.order.as_slice().len();
    for place in 0..count {
        let other = place.saturating_add(below(&mut making.draws, known.saturating_sub(place)));
        let first = query_at(making.order.as_slice(), place);
        let second = query_at(making.order.as_slice(), other);
        put_query(&mut making.order, place, second);
        put_query(&mut making.order, other, first);
    }
}

/// Gives back the room of the first queries of the order, and says what they cost.
fn take_out(o: &Offers, sheet: &Sheet, making: &mut Making, count: usize) -> u64 {
    let mut cost: u64 = 0;
    for place in 0..count {
        let query = query_at(making.order.as_slice(), place);
        if let Some(choice) = making.choices.as_slice().get(query) {
            choice.give(o, sheet.asked.as_slice(), &mut making.board);
            cost = cost.saturating_add(choice.cost);
        }
    }
    cost
}

/// Takes the room of the first queries of the order again.
fn put_back(o: &Offers, sheet: &Sheet, making: &mut Making, count: usize) {
    for place in 0..count {
        let query = query_at(making.order.as_slice(), place);
        if let Some(choice) = making.choices.as_slice().get(query) {
            choice.take(o, sheet.asked.as_slice(), &mut making.board);
        }
    }
}

/// Puts a query in anew, at a part of the prices that is drawn. `None` where it finds no room.
fn put_anew(
    alloc: Global,
    o: &Offers,
    sheet: &Sheet,
    making: &mut Making,
    query: usize,
) -> Result<Option<Choice>, Memory> {
    let Some(paths) = o.queries.as_slice().get(query) else {
        return Ok(None);
    };
    let quarters = one_of(&mut making.draws, &QUARTERS);
    let late = below(&mut making.draws, 2) == 1;
    making.board.ask(o, sheet.asked.as_slice(), quarters);
    insert(alloc, o, sheet, &mut making.board, paths.as_slice(), late)
}

/// Puts the first queries of the order in anew, one after another, as long as they find room and cost no more than this.
fn put_all_anew(
    alloc: Global,
    o: &Offers,
    sheet: &Sheet,
    making: &mut Making,
    count: usize,
    most: u64,
) -> Result<Vec<Choice>, Memory> {
    let mut fresh = Vec::new(alloc);
    for place in 0..count {
        let query = query_at(making.order.as_slice(), place);
        let found = put_anew(alloc, o, sheet, making, query)?;
        let Some(choice) = found else {
            return Ok(fresh);
        };
        fresh.push(choice)?;
        if cost_of(fresh.as_slice()) > most {
            return Ok(fresh);
        }
    }
    Ok(fresh)
}

/// Takes the new places of the first queries of the order for theirs.
fn accept(making: &mut Making, fresh: &mut Vec<Choice>, count: usize) {
    for place in 0..count {
        let query = query_at(making.order.as_slice(), place);
        if let Some(held) = making.choices.get_mut(query) {
            if let Some(choice) = fresh.get_mut(place) {
                mem::swap(held, choice);
            }
        }
    }
}

/// Gives the room of these queries back.
fn give_all(o: &Offers, sheet: &Sheet, board: &mut Board, choices: &[Choice]) {
    for choice in choices {
        choice.give(o, sheet.asked.as_slice(), board);
    }
}

/// Takes some queries out and puts them back the best way that the others leave room for. Where that costs more, or one finds no
/// room, they stand as before. Whether the plan costs less than before.
///
/// # Errors
/// Out of memory.
pub fn step(alloc: Global, o: &Offers, sheet: &Sheet, making: &mut Making) -> Result<bool, Memory> {
    let count = (one_of(&mut making.draws, &TAKEN) as usize).min(making.choices.as_slice().len());
    draw_order(making, count);
    let before = take_out(o, sheet, making, count);
    let mut fresh = put_all_anew(alloc, o, sheet, making, count, before)?;
    let after = cost_of(fresh.as_slice());
    if fresh.as_slice().len() == count && after <= before {
        accept(making, &mut fresh, count);
        return Ok(after < before);
    }
    give_all(o, sheet, &mut making.board, fresh.as_slice());
    put_back(o, sheet, making, count);
    Ok(false)
}
