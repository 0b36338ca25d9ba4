//! Two queries, of which a switch has room for one.
ghost use Rattle.std.specs.Prelude.{◌≡◌, ◌<◌, ◌≤◌, ◌^◌, length, IfSome};
ghost use Rattle.sn_plan_choices.specs.Costs.{HasPlaces};

use crate::texts::{NARROW, TWO, queries, switch};
use sn_plan_choices::costs::CostTable;
use sn_plan_space::planning::Planning;
use sn_search::best::best;
use sn_search::fault::SearchFault;
use sn_switch::switch::Switch;
use sn_tree_space::node::Node::{Bound, Broken, Chosen, Expand};
use sn_types::typed::Typed;

/// Writes an entry at the one level of a query.
fn put(table: &mut CostTable, q: u32, option: u32, count: u64)
    requires places { HasPlaces table.old 2 }
    requires q { q < 2 }
    requires option { option < 256 }
    requires count { count ≤ 2 ^ 56 }
    ensures { HasPlaces table.new 2 }
{
    table.set(q, 1, 0, option, count);
}

/// At cut 2 the first query costs 1 and the second 3, and at any other cut either costs 5.
fn costs(t: &Typed, s: &Switch) -> Option<CostTable>
    requires { length t.now.queries ≡ 2 }
    ensures { IfSome result (λ table. HasPlaces table 2) }
{
    let mut table = CostTable::make(t, s).ok()?;
    put(&mut table, 0, 0, 5);
    put(&mut table, 0, 1, 5);
    put(&mut table, 0, 2, 1);
    put(&mut table, 1, 0, 5);
    put(&mut table, 1, 1, 5);
    put(&mut table, 1, 2, 3);
    Some(table)
}

#[test]
fn holds_what_is_set(rt: HostRuntime) {
    let Some(t) = queries(rt.alloc(), TWO) else {
        return assert!(rt; false);
    };
    let Some(s) = switch(rt.alloc(), NARROW) else {
        return assert!(rt; false);
    };
    assert_eq!(rt; t.queries(), 2);
    let Ok(mut table) = CostTable::make(&t, &s) else {
        return assert!(rt; false);
    };
    assert_eq!(rt; table.entry(0, 1, 0, 2), 0);
    put(&mut table, 0, 2, 7);
    assert_eq!(rt; table.entry(0, 1, 0, 2), 7);
    for option in 0..3 {
        assert_eq!(rt; table.entry(1, 1, 0, option), 0);
        assert!(rt; option == 2 || table.entry(0, 1, 0, option) == 0);
    }
}

#[test]
fn finds_the_first_least_plan_and_its_tree(rt: HostRuntime) {
    let Some(t) = queries(rt.alloc(), TWO) else {
        return assert!(rt; false);
    };
    let Some(s) = switch(rt.alloc(), NARROW) else {
        return assert!(rt; false);
    };
    assert_eq!(rt; t.queries(), 2);
    let Some(table) = costs(&t, &s) else {
        return assert!(rt; false);
    };
    let Ok(planning) = Planning::make(&t, &s, &table) else {
        return assert!(rt; false);
    };
    match best(rt.alloc(), &planning, 6) {
        Err(_) => assert!(rt; false),
        Ok(found) => {
            assert_eq!(rt; found.plan.as_slice(), [0, 2, 1, 0, 0].as_slice());
            let tree = [
                Expand(4),
                Expand(4),
                Bound(8),
                Bound(8),
                Expand(4),
                Expand(4),
                Expand(4),
                Chosen(6),
                Bound(6),
                Expand(4),
                Broken,
            ];
            assert_eq!(rt; found.tree.as_slice(), tree.as_slice());
        }
    }
    match best(rt.alloc(), &planning, 5) {
        Err(fault) => assert_eq!(rt; fault, SearchFault::Budget(4)),
        Ok(_) => assert!(rt; false),
    }
}
