//! The counts of worked captures.
ghost use Rattle.std.specs.Prelude.{◌≤◌, ◌<◌, All, length};
ghost use Rattle.sn_chain.specs.Limits.{largest_register};
ghost use Rattle.sn_types.specs.Kinds.{AreBelow};
ghost use Rattle.sn_types.specs.Typed.{branch_at, query_at};

use crate::texts::{DEEP, queries, syn, syn6};
use sn_base::any_row::AnyRow;
use sn_base::memory::Memory;
use sn_base::row::Row;
use sn_base::seq::Seq;
use sn_base::short_row::ShortRow;
use sn_cost_counts::branch::counts_of;
use sn_cost_counts::branch_at::{BranchAt, Registers};
use sn_cost_counts::packed::pack;
use sn_cost_tally::room::Room;
use sn_fields::tuple::Tuple;
use sn_types::typed::Typed;
use std::alloc::Global;

/// The counts of the first branch of the first query, with rows of a kind, in chains of registers of each of these sizes.
fn counts_over<'a, R: AnyRow>(
    alloc: Global,
    t: &'a Typed,
    chain: u32,
    slots: &[u32],
    tuples: &'a [Tuple],
) -> Result<Seq<u64>, Memory>
    requires query { 0 < length t.now.queries }
    requires branch { 0 < length (query_at t.now.queries 0).branches }
    requires below { AreBelow R.Number.limit (branch_at t.now.queries 0 0).fields }
    requires some { 1 ≤ chain }
    requires most { chain ≤ 4 }
    requires sizes { All (λ size. (1 ≤ size) × (size ≤ largest_register)) slots.now }
{
    if tuples.len() > 1000 {
        return Err(Memory);
    }
    let level = t.finest_level(0);
    let mut room = Room::new(alloc, t.seed);
    let packed = pack(&room, t, 0, 0, tuples)?;
    let at = BranchAt {
        t,
        q: 0,
        b: 0,
        level,
        kept: None,
        tuples,
    };
    let registers = Registers {
        chain,
        sizes: slots,
    };
    counts_of::<R>(&mut room, &at, &registers, packed.as_ref())
}

/// The counts of the one query of a text, in chains of registers of each of these sizes.
fn counts_in(
    alloc: Global,
    text: &[u8],
    chain: u32,
    slots: &[u32],
    tuples: &[Tuple],
) -> Result<Seq<u64>, Memory>
    requires some { 1 ≤ chain }
    requires most { chain ≤ 4 }
    requires sizes { All (λ size. (1 ≤ size) × (size ≤ largest_register)) slots.now }
{
    let Some(t) = queries(alloc, text) else {
        return Err(Memory);
    };
    if t.queries() == 0 || t.branches(0) == 0 {
        return Err(Memory);
    }
    if t.is_wide(0, 0) {
        counts_over::<Row>(alloc, &t, chain, slots, tuples)
    } else {
        counts_over::<ShortRow>(alloc, &t, chain, slots, tuples)
    }
}

/// The counts of the one query of a text, in chains of registers with one slot each.
fn counts(alloc: Global, text: &[u8], chain: u32, tuples: &[Tuple]) -> Result<Seq<u64>, Memory>
    requires some { 1 ≤ chain }
    requires most { chain ≤ 4 }
{
    counts_in(alloc, text, chain, &[1], tuples)
}

/// Whether it pays to take tuples together for the one query of a text.
fn pays(alloc: Global, text: &[u8], tuples: &[Tuple]) -> Result<bool, Memory> {
    let Some(t) = queries(alloc, text) else {
        return Err(Memory);
    };
    if t.queries() == 0 || t.branches(0) == 0 || tuples.len() > 1000 {
        return Err(Memory);
    }
    let packed = pack(&Room::new(alloc, t.seed), &t, 0, 0, tuples)?;
    Ok(packed.is_some())
}

/// Destinations by packets.
const DESTINATIONS: &[u8] =
    b"window 1000000 query q { packets | map ip.dst as d, 1 as n | reduce d: sum(n) width 8; }";

/// Destinations of two packets or more.
const REPEATED: &[u8] =
    b"window 1000000 query q { packets | map ip.dst as d, 1 as n | reduce d: sum(n) width 8 | filter n > 1; }";

/// Sources by packets.
const SOURCES: &[u8] =
    b"window 1000000 query q { packets | map ip.src as s, 1 as n | reduce s: sum(n) width 8; }";

/// Sources of 128 bits by packets.
const WIDE_SOURCES: &[u8] =
    b"window 1000000 query q { packets | map ip6.src as s, 1 as n | reduce s: sum(n) width 8; }";

/// Destinations.
const KINDS: &[u8] = b"window 1000000 query q { packets | map ip.dst as d | distinct; }";

#[test]
fn counts_each_cut(rt: HostRuntime) {
    let tuples = [syn(1, 9), syn(1, 9), syn(1, 9), syn(2, 9), syn(2, 9)];
    let one = counts(rt.alloc(), DESTINATIONS, 1, &tuples).expect(&rt, "ample memory");
    assert_eq!(rt; one.as_slice(), [5, 5, 1].as_slice());
    let two = counts(rt.alloc(), SOURCES, 1, &tuples).expect(&rt, "ample memory");
    assert_eq!(rt; two.as_slice(), [5, 5, 3].as_slice());
}

#[test]
fn counts_each_cut_of_a_wide_branch(rt: HostRuntime) {
    let tuples = [syn6(1), syn6(1), syn6(1), syn6(2), syn6(2)];
    let one = counts(rt.alloc(), WIDE_SOURCES, 1, &tuples).expect(&rt, "ample memory");
    assert_eq!(rt; one.as_slice(), [5, 5, 3].as_slice());
    let same = [syn6(7), syn6(7), syn6(7)];
    let held = counts(rt.alloc(), WIDE_SOURCES, 1, &same).expect(&rt, "ample memory");
    assert_eq!(rt; held.as_slice(), [3, 3, 1].as_slice());
}

#[test]
fn takes_many_that_are_alike_together(rt: HostRuntime) {
    assert!(rt; pays(rt.alloc(), SOURCES, &[syn(1, 9); 32]).expect(&rt, "ample memory"));
    assert!(rt; !pays(rt.alloc(), SOURCES, &[syn(1, 9); 31]).expect(&rt, "ample memory"));
}

/// These tuples are taken together, since most of them are alike: of the last three each overflows.
#[test]
fn counts_tuples_that_are_alike(rt: HostRuntime) {
    let mut tuples = [syn(1, 9); 64];
    tuples[61] = syn(2, 9);
    tuples[62] = syn(3, 9);
    tuples[63] = syn(2, 9);
    let one = counts(rt.alloc(), SOURCES, 1, &tuples).expect(&rt, "ample memory");
    assert_eq!(rt; one.as_slice(), [64, 64, 4].as_slice());
    let same = counts(rt.alloc(), DESTINATIONS, 1, &tuples).expect(&rt, "ample memory");
    assert_eq!(rt; same.as_slice(), [64, 64, 1].as_slice());
}

#[test]
fn counts_each_row_that_overflows(rt: HostRuntime) {
    let tuples = [syn(7, 1), syn(7, 2), syn(7, 1), syn(7, 2), syn(7, 3)];
    let one = counts(rt.alloc(), DESTINATIONS, 1, &tuples).expect(&rt, "ample memory");
    assert_eq!(rt; one.as_slice(), [5, 5, 4].as_slice());
    let chained = counts(rt.alloc(), DESTINATIONS, 2, &tuples).expect(&rt, "ample memory");
    assert_eq!(rt; chained.as_slice(), [5, 5, 3].as_slice());
    let kinds = counts(rt.alloc(), KINDS, 1, &tuples).expect(&rt, "ample memory");
    assert_eq!(rt; kinds.as_slice(), [5, 5, 4].as_slice());
}

/// The key that comes once is held and stopped by the filter.
#[test]
fn filters_what_is_held_beside_an_overflow(rt: HostRuntime) {
    let tuples = [syn(1, 8), syn(1, 9), syn(1, 9)];
    let found = counts(rt.alloc(), REPEATED, 1, &tuples).expect(&rt, "ample memory");
    assert_eq!(rt; found.as_slice(), [3, 3, 3, 2].as_slice());
}

/// Of two slots a row's is reported by the last bits of its bytes: the two rows want two at the distinct, and one at the reduce.
#[test]
fn counts_each_size_of_two(rt: HostRuntime) {
    let tuples = [syn(1, 9), syn(2, 11)];
    let found = counts_in(rt.alloc(), DEEP, 1, &[2, 2], &tuples).expect(&rt, "ample memory");
    let each = [2, 2, 2, 2, 2, 2, 2, 2, 2, 2, 1, 1, 1, 1];
    assert_eq!(rt; found.as_slice(), each.as_slice());
}

#[test]
fn sends_held_rows_whole_where_the_distinct_overflowed(rt: HostRuntime) {
    let tuples = [syn(1, 9), syn(2, 9)];
    let found = counts(rt.alloc(), DEEP, 1, &tuples).expect(&rt, "ample memory");
    assert_eq!(rt; found.as_slice(), [2, 2, 2, 2, 2, 2].as_slice());
}
