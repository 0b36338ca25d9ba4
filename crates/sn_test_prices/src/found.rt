//! Plans and prices that are found for small spaces, whose least plans are worked by hand.
use crate::shown::{Space, chained, joined, queries, switch, table, two};
use sn_plan_fit::fits;
use sn_plan_lists::costing::cost_of;
use sn_prices_bound::bound::bound;
use sn_prices_search::find::find;

/// What the plan that is found costs, and what the prices show that are found with it. `None` where a text isn't read, or the plan
/// doesn't fit.
fn found(rt: &HostRuntime, space: &Space<'_>) -> Option<(u64, u128)> {
    let typed = queries(rt.alloc(), space.queries)?;
    let switch = switch(rt.alloc(), space.switch)?;
    let table = table(&typed, &switch, space.counts)?;
    let found = find(&typed, &switch, &table, 1000000).ok()?;
    match fits(&typed, &switch, &found.plan) {
        Ok(()) => {}
        Err(_) => return None,
    }
    let cost = cost_of(&typed, &switch, &table, &found.plan);
    let least = bound(&typed, &switch, &table, &found.prices).ok()?;
    Some((cost, least))
}

#[test]
fn finds_least_plans_and_shows_that_they_are(rt: HostRuntime) {
    // One register for two queries: 1 + 5.
    assert_eq!(rt; found(&rt, &two()), Some((6, 6)));
    // Registers of one slot: 20.
    assert_eq!(rt; found(&rt, &chained()), Some((20, 20)));
}

#[test]
fn finds_a_plan_where_registers_are_scarce(rt: HostRuntime) {
    // Along 32 alone, with a register in stage 1 and one in stage 2: 2 + 1. Along both levels the second has stage 2 alone.
    let cost = match found(&rt, &joined()) {
        Some((cost, _)) => cost,
        None => 0,
    };
    assert_eq!(rt; cost, 3);
}
