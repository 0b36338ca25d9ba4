//! The tables of costs of worked captures.
ghost use Rattle.std.specs.Prelude.{◌≡◌, ◌<◌, ◌≤◌, ◌+◌, IfSome, length};
ghost use Rattle.sn_plan_choices.specs.Costs.{HasPlaces};

use crate::texts::{REFINED, SMALL, TWO, queries, switch, syn};
use sn_base::seq::Seq;
use sn_cost::build::build;
use sn_cost_training::training::Training;
use sn_fields::tuple::Tuple;
use sn_plan_choices::costs::CostTable;
use std::alloc::Global;

/// A query of which two destinations may have different prefixes.
const CLOSE: &[u8] =
    b"window 1000000 query q { refine ip.dst: 28, 32; packets | map ip.dst as d, 1 as n | reduce d: sum(n) width 16 | filter n > 1; }";

/// A switch on which a prefix costs three items.
const DEAR: &[u8] = b"stages 4; actions 2; bits 1000; meta 1000; chain 1; slots 1; weight 3;";

/// A switch whose tables hold one prefix.
const ONE: &[u8] =
    b"stages 4; actions 2; bits 1000; meta 1000; chain 1; slots 1; entries 1; weight 3;";

/// A switch whose tables hold two.
const BOTH: &[u8] =
    b"stages 4; actions 2; bits 1000; meta 1000; chain 1; slots 1; entries 2; weight 3;";

/// The tuples of window 0 and of a later one.
fn training(alloc: Global, first: &[Tuple], later: u64, next: &[Tuple]) -> Option<Training>
    requires later { 0 < later }
    requires few { length first.now + length next.now ≤ 8 }
    ensures few { IfSome result (λ training. length training.numbers ≤ 8) }
{
    let mut training = Training::new(alloc);
    let Ok(held) = Seq::from_slice(alloc, first) else {
        return None;
    };
    if training.add(0, held).is_err() {
        return None;
    }
    let Ok(held) = Seq::from_slice(alloc, next) else {
        return None;
    };
    if training.add(later, held).is_err() {
        return None;
    }
    Some(training)
}

/// The table of the given number of queries on a switch, trained on the tuples of window 0 and of a later one.
fn trained(
    alloc: Global,
    text: &[u8],
    limits: &[u8],
    count: u32,
    first: &[Tuple],
    later: u64,
    next: &[Tuple],
) -> Option<CostTable>
    requires later { 0 < later }
    requires few { length first.now + length next.now ≤ 8 }
    ensures { IfSome result (λ table. HasPlaces table count) }
{
    let t = queries(alloc, text)?;
    let s = switch(alloc, limits)?;
    if t.queries() != count {
        return None;
    }
    let training = training(alloc, first, later, next)?;
    build(&t, &s, &training).ok()
}

/// Whether the first options of a query's first branch have these entries at a front.
fn has(table: &CostTable, q: u32, prefix: u32, counts: &[u64]) -> bool
    requires places { HasPlaces table.now (q + 1) }
    requires prefix { prefix < 16 }
    requires few { length counts.now ≤ 256 }
{
    for option in 0..counts.len() {
        if table.entry(q, prefix, 0, option as u32) != counts[option] {
            return false;
        }
    }
    true
}

#[test]
fn levels_see_what_was_answered_before(rt: HostRuntime) {
    let two = [syn(1, 9), syn(1, 9)];
    let Some(table) = trained(rt.alloc(), REFINED, SMALL, 1, &two, 1, &two) else {
        return assert!(rt; false);
    };
    assert!(rt; has(&table, 0, 1, &[4, 4, 2, 2]));
    assert!(rt; has(&table, 0, 2, &[4, 4, 2, 2]));
    assert!(rt; has(&table, 0, 3, &[2, 2, 1, 1]));
}

#[test]
fn a_gap_empties_the_finer_level(rt: HostRuntime) {
    let two = [syn(1, 9), syn(1, 9)];
    let Some(table) = trained(rt.alloc(), REFINED, SMALL, 1, &two, 2, &two) else {
        return assert!(rt; false);
    };
    assert!(rt; has(&table, 0, 2, &[4, 4, 2, 2]));
    assert!(rt; has(&table, 0, 3, &[0, 0, 0, 0]));
}

#[test]
fn each_query_has_entries_of_its_own(rt: HostRuntime) {
    let tuples = [syn(1, 9), syn(1, 9), syn(1, 9), syn(2, 9), syn(2, 9)];
    let Some(table) = trained(rt.alloc(), TWO, SMALL, 2, &tuples, 1, &[]) else {
        return assert!(rt; false);
    };
    assert!(rt; has(&table, 0, 1, &[5, 5, 1]));
    assert!(rt; has(&table, 1, 1, &[5, 5, 3]));
}

#[test]
fn installed_prefixes_cost_their_weight(rt: HostRuntime) {
    let two = [syn(1, 9), syn(1, 9)];
    let Some(table) = trained(rt.alloc(), REFINED, DEAR, 1, &two, 1, &two) else {
        return assert!(rt; false);
    };
    assert!(rt; has(&table, 0, 1, &[4, 4, 2, 2]));
    assert!(rt; has(&table, 0, 2, &[4, 4, 2, 2]));
    assert!(rt; has(&table, 0, 3, &[5, 5, 4, 4]));
}

/// Tuples of two destinations, of which the first is the same in each window.
fn apart(other: u8) -> [Tuple; 4] {
    [syn(1, 9), syn(1, 9), syn(1, other), syn(1, other)]
}

#[test]
fn an_open_table_admits_all_tuples_and_costs_nothing(rt: HostRuntime) {
    let Some(table) = trained(rt.alloc(), CLOSE, ONE, 1, &apart(20), 1, &apart(40)) else {
        return assert!(rt; false);
    };
    assert!(rt; has(&table, 0, 1, &[8]));
    assert!(rt; has(&table, 0, 3, &[4]));
}

#[test]
fn a_table_with_room_admits_its_prefixes_alone(rt: HostRuntime) {
    let Some(table) = trained(rt.alloc(), CLOSE, BOTH, 1, &apart(20), 1, &apart(40)) else {
        return assert!(rt; false);
    };
    assert!(rt; has(&table, 0, 1, &[8]));
    assert!(rt; has(&table, 0, 3, &[8]));
}
