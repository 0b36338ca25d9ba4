//! Ways to ask a piece that another beats.

use crate::numbers::number_at;
use crate::offers::{Offer, Shape, Stay};
use sn_base::memory::Memory;
use sn_base::seq::Seq;
use std::alloc::Global;

/// Whether a register, where there is one, is no larger than another and has no more tables before it.
fn stays_no_worse(kinds: &[u64], a: &Stay, b: Option<&Stay>) -> bool {
    match b {
        Some(b) => a.gap <= b.gap && number_at(kinds, a.kind) <= number_at(kinds, b.kind),
        None => false,
    }
}

/// Whether tables find room wherever others do.
fn shape_no_worse(kinds: &[u64], a: &Shape, b: &Shape) -> bool {
    let others = b.stays.as_slice();
    for (n, stay) in a.stays.as_slice().iter().enumerate() {
        if !stays_no_worse(kinds, stay, others.get(n)) {
            return false;
        }
    }
    a.tail <= b.tail
}

/// Whether a way is no worse than another in anything.
fn no_worse(kinds: &[u64], shapes: &[Shape], a: &Offer, b: &Offer) -> bool {
    if a.cost > b.cost || a.metadata > b.metadata {
        return false;
    }
    match (shapes.get(a.shape), shapes.get(b.shape)) {
        (Some(first), Some(second)) => shape_no_worse(kinds, first, second),
        _ => false,
    }
}

/// Whether another of these ways beats the one at this place. Of equal ones the first is kept.
fn is_beaten(kinds: &[u64], shapes: &[Shape], offers: &[Offer], place: usize, own: &Offer) -> bool {
    for (n, other) in offers.iter().enumerate() {
        if n != place
            && no_worse(kinds, shapes, other, own)
            && (n < place || !no_worse(kinds, shapes, own, other))
        {
            return true;
        }
    }
    false
}

/// The ways to ask a piece, each marked where another beats it.
///
/// # Errors
/// Out of memory.
pub fn marked(
    alloc: Global,
    kinds: &[u64],
    shapes: &[Shape],
    offers: &[Offer],
) -> Result<Seq<Offer>, Memory> {
    let mut marked = Seq::new(alloc);
    for (n, offer) in offers.iter().enumerate() {
        let beaten = is_beaten(kinds, shapes, offers, n, offer);
        marked.push(Offer { beaten, ..*offer })?;
    }
    Ok(marked)
}
