//! Queries, switches and plans from texts, and packets.
ghost use Rattle.std.specs.Prelude.{IfSome};
ghost use Rattle.sn_switch.specs.Texts.{IsSwitch};

use sn_base::link::Link;
use sn_fields::tuple::{Tuple, tuple_of};
use sn_plan_grammar::plan::Plan;
use sn_switch::switch::Switch;
use sn_types::typed::Typed;
use sn_types_read::read::read;
use std::alloc::Global;

/// Sums over destinations.
pub(crate) const COUNTS: &[u8] =
    b"window 1000000 query q { packets | map ip.dst as d, 1 as n | reduce d: sum(n) width 16; }";

/// The destinations of one query, the sources of another.
pub(crate) const TWO: &[u8] =
    b"window 1000000 query a { packets | map ip.dst as d, 1 as n | reduce d: sum(n) width 8; } query b { packets | map ip.src as s, 1 as n | reduce s: sum(n) width 8; }";

/// A switch with room for one register.
pub(crate) const NARROW: &[u8] = b"stages 2; actions 1; bits 41; meta 100; chain 1; slots 1;";

/// A refined query of sums over destinations, of which some are kept.
pub(crate) const REFINED: &[u8] =
    b"window 1000000 query q { refine ip.dst: 8, 32; packets | map ip.dst as d, 1 as n | reduce d: sum(n) width 16 | filter n > 1; }";

/// Sums over destinations, joined with sums over the same destinations.
pub(crate) const JOINED: &[u8] =
    b"window 1000000 query q { refine ip.dst: 8, 32; packets | map ip.dst as d, 1 as n | reduce d: sum(n) width 16; packets | map ip.dst as d, ip.len as m | reduce d: sum(m) width 32; join d; }";

/// A query of a distinct and a reduce.
pub(crate) const DEEP: &[u8] =
    b"window 1000000 query q { packets | map ip.dst as d, ip.src as s | distinct | map d as d, 1 as n | reduce d: sum(n) width 16 | filter n > 1; }";

pub(crate) const SMALL: &[u8] = b"stages 4; actions 2; bits 1000; meta 1000; chain 1; slots 1;";

/// A switch of five stages.
pub(crate) const FIVE: &[u8] = b"stages 5; actions 2; bits 1000; meta 1000; chain 1; slots 1;";

/// A switch of two sizes.
pub(crate) const SIZES: &[u8] =
    b"stages 5; actions 2; bits 100000; meta 1000; chain 1; slots 16, 64;";

/// A TCP SYN from 10.0.0.0 to 10.0.0.0.
const SYN: [u8; 54] = [
    2, 0, 0, 0, 0, 2, 2, 0, 0, 0, 0, 1, 8, 0, //
    0x45, 0, 0, 0x28, 0, 0, 0, 0, 0x40, 6, 0, 0, 10, 0, 0, 0, 10, 0, 0, 0, //
    4, 0, 0, 0x50, 0, 0, 0, 0, 0, 0, 0, 0, 0x50, 2, 0, 0, 0, 0, 0, 0,
];

/// The tuple of a SYN from 10.0.0.s to 10.0.0.d.
pub(crate) fn syn(source: u8, destination: u8) -> Tuple {
    let mut bytes = SYN;
    bytes[29] = source;
    bytes[33] = destination;
    tuple_of(Link::Ethernet, 54, &bytes)
}

/// A TCP SYN from 2001:db8:: to 2001:db8::.
const SYN6: [u8; 74] = [
    2, 0, 0, 0, 0, 2, 2, 0, 0, 0, 0, 1, 0x86, 0xdd, //
    0x60, 0, 0, 0, 0, 20, 6, 64, //
    0x20, 1, 0xd, 0xb8, 0, 0, 0, 0, 0, 0, 0, 0, 0, 0, 0, 0, //
    0x20, 1, 0xd, 0xb8, 0, 0, 0, 0, 0, 0, 0, 0, 0, 0, 0, 0, //
    4, 0, 0, 0x50, 0, 0, 0, 0, 0, 0, 0, 0, 0x50, 2, 0, 0, 0, 0, 0, 0,
];

/// The tuple of a SYN from 2001:db8:0:n:: to 2001:db8::. Sources differ in their higher halves alone.
pub(crate) fn syn6(network: u8) -> Tuple {
    let mut bytes = SYN6;
    bytes[29] = network;
    tuple_of(Link::Ethernet, 74, &bytes)
}

pub(crate) fn queries(alloc: Global, text: &[u8]) -> Option<Typed> {
    if text.len() > 1000 {
        return None;
    }
    read(alloc, text).ok()
}

pub(crate) fn switch(alloc: Global, text: &[u8]) -> Option<Switch>
    ensures { IfSome result (λ s. IsSwitch s) }
{
    if text.len() > 1000 {
        return None;
    }
    match sn_switch::parse(alloc, text) {
        Ok(switch) => Some(switch),
        Err(_) => None,
    }
}

pub(crate) fn plan(alloc: Global, text: &[u8]) -> Option<Plan> {
    if text.len() > 1000 {
        return None;
    }
    match sn_plan::parse(alloc, text) {
        Ok((plan, _)) => Some(plan),
        Err(_) => None,
    }
}
