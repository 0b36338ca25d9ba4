//! Putting a query into the room that others leave.

use crate::board::{Board, Stand, part_of};
use crate::choice::Choice;
use sn_base::memory::Memory;
use sn_base::seq::Seq;
use sn_prices_dual::sheet::Sheet;
use sn_prices_offers::offers::{Offer, Offers, Shape};
use sn_prices_offers::walk::{NONE, stages_of, walk};
use std::alloc::Global;

/// A piece that found room, and what it costs with what it is asked, in parts of an item.
#[derive(Clone, Copy)]
struct Placed {
    stand: Stand,
    key: u64,
}

/// What a way to ask a piece costs without its registers, in parts of an item.
fn base_of(sheet: &Sheet, board: &Board, offer: &Offer) -> u64 {
    let metadata = sheet.metadata.saturating_mul(offer.metadata);
    sheet
        .scale
        .saturating_mul(offer.cost)
        .saturating_add(part_of(metadata, board.quarters))
}

/// The place of tables that are asked the least, if there is room and they are asked less than another way to ask the piece.
fn place_shape(
    o: &Offers,
    board: &mut Board,
    offer: &Offer,
    shape: &Shape,
    base: u64,
    other: u64,
    late: bool,
) -> Option<Placed> {
    let least = walk(o, shape, board.asked.as_slice(), &mut board.least);
    let key = base.saturating_add(least);
    if least == NONE || key >= other {
        return None;
    }
    let stages = stages_of(
        o,
        shape,
        board.asked.as_slice(),
        board.least.as_slice(),
        late,
    );
    let stand = Stand {
        offer: *offer,
        stages,
    };
    Some(Placed { stand, key })
}

/// A way to ask a piece in the room that is left, if it costs less than another one with what it is asked.
fn place(
    o: &Offers,
    sheet: &Sheet,
    board: &mut Board,
    offer: &Offer,
    other: u64,
    late: bool,
) -> Option<Placed> {
    let base = base_of(sheet, board, offer);
    if offer.beaten || offer.metadata > board.metadata || base >= other {
        return None;
    }
    match o.shapes.as_slice().get(offer.shape) {
        Some(shape) => place_shape(o, board, offer, shape, base, other, late),
        None => None,
    }
}

/// The way to ask a piece that costs least with what it is asked, if one finds room.
fn best_stand(
    o: &Offers,
    sheet: &Sheet,
    board: &mut Board,
    offers: &[Offer],
    late: bool,
) -> Option<Placed> {
    let mut best = None;
    let mut least = NONE;
    for offer in offers {
        if let Some(placed) = place(o, sheet, board, offer, least, late) {
            least = placed.key;
            best = Some(placed);
        }
    }
    best
}

/// Puts the pieces of a path into the room that is left, one after another, if they find it. `None` where one doesn't.
fn put_path(
    alloc: Global,
    o: &Offers,
    sheet: &Sheet,
    board: &mut Board,
    path: usize,
    pieces: &[Seq<Offer>],
    late: bool,
) -> Result<Option<Choice>, Memory> {
    let mut choice = Choice::new(alloc, path);
    for offers in pieces {
        let Some(placed) = best_stand(o, sheet, board, offers.as_slice(), late) else {
            choice.give(o, sheet.asked.as_slice(), board);
            return Ok(None);
        };
        board.take(o, sheet.asked.as_slice(), &placed.stand);
        choice.add(placed.stand, placed.key)?;
    }
    choice.give(o, sheet.asked.as_slice(), board);
    Ok(Some(choice))
}

/// The one of two that costs less with what it is asked, where there are two: the first where they cost the same.
fn better(a: Option<Choice>, b: Option<Choice>) -> Option<Choice> {
    match (a, b) {
        (Some(a), Some(b)) if b.key < a.key => Some(b),
        (Some(a), _) => Some(a),
        (None, b) => b,
    }
}

/// Puts a query into the room that others leave, along the path that costs least with what is asked. `None` where no path finds
/// room.
///
/// # Errors
/// Out of memory.
pub fn insert(
    alloc: Global,
    o: &Offers,
    sheet: &Sheet,
    board: &mut Board,
    paths: &[Seq<Seq<Offer>>],
    late: bool,
) -> Result<Option<Choice>, Memory> {
    let mut best = None;
    for (n, pieces) in paths.iter().enumerate() {
        let found = put_path(alloc, o, sheet, board, n, pieces.as_slice(), late)?;
        best = better(best, found);
    }
    if let Some(choice) = &best {
        choice.take(o, sheet.asked.as_slice(), board);
    }
    Ok(best)
}
