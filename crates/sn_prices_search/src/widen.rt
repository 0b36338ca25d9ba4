//! Larger registers at the same cost.

use crate::board::{Board, Stand};
use crate::choice::Choice;
use sn_base::memory::Memory;
use sn_base::seq::Seq;
use sn_prices_offers::numbers::number_at;
use sn_prices_offers::offers::{Offer, Offers, Shape};
use sn_prices_offers::walk::{NONE, stages_of, walk};
use std::alloc::Global;

/// The bits of the registers of a shape together.
fn shape_bits(o: &Offers, shape: &Shape) -> u64 {
    let mut bits: u64 = 0;
    for stay in shape.stays.as_slice() {
        bits = bits.saturating_add(number_at(o.kinds.as_slice(), stay.kind));
    }
    bits
}

/// The bits of the registers of a way to ask a piece.
fn offer_bits(o: &Offers, offer: &Offer) -> u64 {
    match o.shapes.as_slice().get(offer.shape) {
        Some(shape) => shape_bits(o, shape),
        None => 0,
    }
}

/// A place for a way to ask a piece in the room that is left, if it finds one.
fn room_for(o: &Offers, board: &mut Board, offer: &Offer) -> Option<Stand> {
    let shape = o.shapes.as_slice().get(offer.shape)?;
    if offer.metadata > board.metadata {
        return None;
    }
    if walk(o, shape, board.asked.as_slice(), &mut board.least) == NONE {
        return None;
    }
    let stages = stages_of(
        o,
        shape,
        board.asked.as_slice(),
        board.least.as_slice(),
        false,
    );
    Some(Stand {
        offer: *offer,
        stages,
    })
}

/// The way to ask a piece that has the largest registers of those that cost no more and find room, or else this one.
fn widest(o: &Offers, board: &mut Board, offers: &[Offer], own: &Stand) -> Stand {
    let mut best = *own;
    for offer in offers {
        if offer.cost <= best.offer.cost && offer_bits(o, offer) > offer_bits(o, &best.offer) {
            if let Some(stand) = room_for(o, board, offer) {
                best = stand;
            }
        }
    }
    best
}

/// A query with larger registers, where its pieces cost no more with them and find room. Larger registers stand on where the
/// traffic grows.
///
/// # Errors
/// Out of memory.
pub fn widened(
    alloc: Global,
    o: &Offers,
    prices: &[u64],
    board: &mut Board,
    pieces: &[Seq<Offer>],
    choice: &Choice,
) -> Result<Choice, Memory> {
    let mut wide = Choice::new(alloc, choice.path);
    for (stand, offers) in choice.stands.as_slice().iter().zip(pieces.iter()) {
        board.give(o, prices, stand);
        let best = widest(o, board, offers.as_slice(), stand);
        board.take(o, prices, &best);
        wide.add(best, 0)?;
    }
    Ok(wide)
}
