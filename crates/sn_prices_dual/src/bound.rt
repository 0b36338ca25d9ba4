//! What no plan costs less than, by prices.

use crate::sheet::{Line, Sheet, weight};
use sn_base::seq::Seq;
use sn_prices_offers::numbers::{cell, number_at, put_at};
use sn_prices_offers::offers::{Offer, Offers};
use sn_prices_offers::walk::{NONE, walk};

/// Asks nothing anywhere.
fn ask_nothing(sheet: &mut Sheet) {
    for place in 0..sheet.asked.as_slice().len() {
        put_at(&mut sheet.asked, place, 0);
    }
}

/// Asks for a kind of register in each stage of a limit what it costs there.
fn ask_kind(o: &Offers, sheet: &mut Sheet, line: &Line, kind: usize, bits: u64) {
    let price = weight(line.form, bits, 1).saturating_mul(line.price);
    if price == 0 {
        return;
    }
    for stage in line.first..line.last.saturating_add(1) {
        sheet.ask_more(cell(kind, o.stages, stage), price);
    }
}

/// Asks what a limit costs, and adds what it is worth.
fn ask_line(o: &Offers, sheet: &mut Sheet, line: &Line) {
    let stages = line.last.saturating_add(1).saturating_sub(line.first) as u64;
    let worth = weight(line.form, o.bits, o.actions)
        .saturating_mul(stages)
        .saturating_mul(line.price);
    sheet.paid = sheet.paid.saturating_add(worth);
    for (kind, bits) in o.kinds.as_slice().iter().enumerate() {
        ask_kind(o, sheet, line, kind, *bits);
    }
}

/// Asks what all limits cost.
fn ask_lines(o: &Offers, sheet: &mut Sheet) {
    ask_nothing(sheet);
    sheet.paid = sheet.metadata.saturating_mul(o.metadata);
    for n in 0..sheet.lines.as_slice().len() {
        if let Some(held) = sheet.lines.as_slice().get(n) {
            let line = *held;
            ask_line(o, sheet, &line);
        }
    }
}

/// Works out what each shape pays at least.
fn place_shapes(o: &Offers, sheet: &mut Sheet) {
    for (n, shape) in o.shapes.as_slice().iter().enumerate() {
        let least = walk(o, shape, sheet.asked.as_slice(), &mut sheet.least);
        put_at(&mut sheet.placed, n, least);
    }
}

/// What a way to ask a piece costs and pays at least, in parts of an item.
pub fn priced(sheet: &Sheet, offer: &Offer) -> u64 {
    sheet
        .scale
        .saturating_mul(offer.cost)
        .saturating_add(sheet.metadata.saturating_mul(offer.metadata))
        .saturating_add(number_at(sheet.placed.as_slice(), offer.shape))
}

/// The least that a piece costs and pays.
fn least_piece(sheet: &Sheet, offers: &[Offer]) -> u64 {
    let mut least = NONE;
    for offer in offers {
        if !offer.beaten {
            least = least.min(priced(sheet, offer));
        }
    }
    least
}

/// The least that the pieces of a path cost and pay.
fn least_path(sheet: &Sheet, pieces: &[Seq<Offer>]) -> u64 {
    let mut sum: u64 = 0;
    for offers in pieces {
        sum = sum.saturating_add(least_piece(sheet, offers.as_slice()));
    }
    sum
}

/// The least that a query costs and pays.
fn least_query(sheet: &Sheet, paths: &[Seq<Seq<Offer>>]) -> u64 {
    let mut least = NONE;
    for pieces in paths {
        least = least.min(least_path(sheet, pieces.as_slice()));
    }
    least
}

/// What no plan costs less than by the prices of the sheet, in parts of an item, and never below 0. The tables of the sheet are
/// worked out anew.
///
/// It guides a search and isn't relied on.
pub fn bound(o: &Offers, sheet: &mut Sheet) -> u64 {
    ask_lines(o, sheet);
    place_shapes(o, sheet);
    let mut sum: u64 = 0;
    for paths in o.queries.as_slice() {
        sum = sum.saturating_add(least_query(sheet, paths.as_slice()));
    }
    sum.saturating_sub(sheet.paid)
}
