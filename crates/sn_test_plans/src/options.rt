//! The options of pieces.
use crate::texts::{DEEP, NARROW, REFINED, SIZES, SMALL, TWO, queries, switch};
use sn_plan_choices::setting::{Setting, option_at, options};
use std::alloc::Global;

/// How many options a piece of the first branch of the first query has. `None` where a text isn't read.
fn count(alloc: Global, queries_text: &[u8], switch_text: &[u8]) -> Option<u32> {
    let t = queries(alloc, queries_text)?;
    let s = switch(alloc, switch_text)?;
    if t.queries() == 0 || t.branches(0) == 0 {
        return None;
    }
    Some(options(&t, &s, 0, 0))
}

/// Option n of such a piece.
fn option(alloc: Global, queries_text: &[u8], switch_text: &[u8], n: u32) -> Option<Setting> {
    let t = queries(alloc, queries_text)?;
    let s = switch(alloc, switch_text)?;
    if t.queries() == 0 || t.branches(0) == 0 || n >= options(&t, &s, 0, 0) {
        return None;
    }
    Some(option_at(&t, &s, 0, 0, n))
}

fn setting(cut: u32, used: u32, first: u32, second: u32) -> Option<Setting> {
    Some(Setting {
        cut,
        used,
        sizes: [first, second],
    })
}

#[test]
fn has_an_option_for_each_cut_and_size(rt: HostRuntime) {
    let alloc = rt.alloc();
    assert_eq!(rt; count(alloc, TWO, NARROW), Some(3));
    assert_eq!(rt; option(alloc, TWO, NARROW, 0), setting(0, 0, 0, 0));
    assert_eq!(rt; option(alloc, TWO, NARROW, 2), setting(2, 1, 1, 0));
    assert_eq!(rt; option(alloc, TWO, NARROW, 3), None);
    assert_eq!(rt; count(alloc, REFINED, SMALL), Some(4));
    assert_eq!(rt; option(alloc, REFINED, SMALL, 3), setting(3, 1, 1, 0));
}

#[test]
fn has_the_sizes_of_an_option_in_order(rt: HostRuntime) {
    let alloc = rt.alloc();
    // Two cuts without state, two after the distinct, and two after the reduce.
    assert_eq!(rt; count(alloc, DEEP, SIZES), Some(14));
    assert_eq!(rt; option(alloc, DEEP, SIZES, 1), setting(1, 0, 0, 0));
    assert_eq!(rt; option(alloc, DEEP, SIZES, 2), setting(2, 1, 16, 0));
    assert_eq!(rt; option(alloc, DEEP, SIZES, 3), setting(2, 1, 64, 0));
    assert_eq!(rt; option(alloc, DEEP, SIZES, 6), setting(4, 2, 16, 16));
    assert_eq!(rt; option(alloc, DEEP, SIZES, 7), setting(4, 2, 16, 64));
    assert_eq!(rt; option(alloc, DEEP, SIZES, 8), setting(4, 2, 64, 16));
    assert_eq!(rt; option(alloc, DEEP, SIZES, 13), setting(5, 2, 64, 64));
}
