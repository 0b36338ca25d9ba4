//! Gathering what the pieces of queries may take.

use crate::beaten::marked;
use crate::offers::{Offer, Offers, Shape, Stay};
use sn_base::memory::Memory;
use sn_base::seq::Seq;
use sn_plan_space::known::{KnownOption, KnownPiece, KnownQuery, Slot};
use sn_switch::switch::Switch;
use std::alloc::Global;

/// The kind of registers of these bits. It is added where it isn't among the known ones.
fn kind_of(kinds: &mut Seq<u64>, bits: u64) -> Result<usize, Memory> {
    for (n, other) in kinds.as_slice().iter().enumerate() {
        if *other == bits {
            return Ok(n);
        }
    }
    let kind = kinds.as_slice().len();
    kinds.push(bits)?;
    Ok(kind)
}

/// The shape that these tables have.
fn shape_of(alloc: Global, kinds: &mut Seq<u64>, slots: &[Slot]) -> Result<Shape, Memory> {
    let mut stays = Seq::new(alloc);
    let mut gap: usize = 0;
    for slot in slots {
        match slot {
            Slot::Plain => gap = gap.saturating_add(1),
            Slot::Keyed(bits) => {
                let kind = kind_of(kinds, *bits)?;
                stays.push(Stay { gap, kind })?;
                gap = 0;
            }
        }
    }
    Ok(Shape { stays, tail: gap })
}

/// Whether two lists of registers are the same.
fn same_stays(a: &[Stay], b: &[Stay]) -> bool {
    for (n, stay) in a.iter().enumerate() {
        match b.get(n) {
            Some(other) if stay == other => {}
            _ => return false,
        }
    }
    a.len() == b.len()
}

/// The number of a shape. It is added where it isn't among the known ones.
fn place_shape(shapes: &mut Seq<Shape>, shape: Shape) -> Result<usize, Memory> {
    for (n, other) in shapes.as_slice().iter().enumerate() {
        if other.tail == shape.tail && same_stays(other.stays.as_slice(), shape.stays.as_slice()) {
            return Ok(n);
        }
    }
    let number = shapes.as_slice().len();
    shapes.push(shape)?;
    Ok(number)
}

/// Whether a stage of the switch has room for each register of these tables.
fn each_has_room(bits: u64, slots: &[Slot]) -> bool {
    for slot in slots {
        if let Slot::Keyed(own) = slot {
            if *own > bits {
                return false;
            }
        }
    }
    true
}

/// Whether a way to ask a piece can stand in the switch alone.
fn stands_alone(found: &Offers, option: &KnownOption) -> bool {
    let slots = option.slots.as_slice();
    slots.len() <= found.stages
        && option.metadata <= found.metadata
        && each_has_room(found.bits, slots)
}

/// A way to ask a piece, by the number of its option.
fn offer_of(
    alloc: Global,
    found: &mut Offers,
    option: &KnownOption,
    number: u32,
) -> Result<Offer, Memory> {
    let shape = shape_of(alloc, &mut found.kinds, option.slots.as_slice())?;
    Ok(Offer {
        number,
        cost: option.cost,
        metadata: option.metadata,
        shape: place_shape(&mut found.shapes, shape)?,
        beaten: false,
    })
}

/// The ways to ask a piece that can stand in the switch alone.
fn offers_of(alloc: Global, found: &mut Offers, piece: &KnownPiece) -> Result<Seq<Offer>, Memory> {
    let mut offers = Seq::new(alloc);
    let mut number: u32 = 0;
    for option in piece.options.as_slice() {
        if stands_alone(found, option) {
            offers.push(offer_of(alloc, found, option, number)?)?;
        }
        number = number.saturating_add(1);
    }
    marked(
        alloc,
        found.kinds.as_slice(),
        found.shapes.as_slice(),
        offers.as_slice(),
    )
}

/// The pieces of a path.
fn path_offers(
    alloc: Global,
    found: &mut Offers,
    pieces: &[KnownPiece],
) -> Result<Seq<Seq<Offer>>, Memory> {
    let mut path = Seq::new(alloc);
    for piece in pieces {
        path.push(offers_of(alloc, found, piece)?)?;
    }
    Ok(path)
}

/// The paths of a query.
fn query_offers(
    alloc: Global,
    found: &mut Offers,
    query: &KnownQuery,
) -> Result<Seq<Seq<Seq<Offer>>>, Memory> {
    let mut paths = Seq::new(alloc);
    for pieces in query.paths.as_slice() {
        paths.push(path_offers(alloc, found, pieces.as_slice())?)?;
    }
    Ok(paths)
}

/// What the pieces of these queries may take of a switch. What can't stand in the switch even alone is left out, and what
/// another way beats in all is marked.
///
/// Nothing is promised of it: whoever plans by it has the plan tested.
///
/// # Errors
/// Out of memory.
pub fn gather(alloc: Global, s: &Switch, queries: &[KnownQuery]) -> Result<Offers, Memory> {
    let mut found = Offers {
        stages: s.stages as usize,
        actions: u64::from(s.actions),
        bits: s.bits,
        metadata: u64::from(s.meta),
        kinds: Seq::new(alloc),
        shapes: Seq::new(alloc),
        queries: Seq::new(alloc),
    };
    for query in queries {
        let paths = query_offers(alloc, &mut found, query)?;
        found.queries.push(paths)?;
    }
    Ok(found)
}
