//! Plans that fit, and plans with one misfit each.
use crate::texts::{COUNTS, JOINED, SMALL, TWO, plan, queries, switch};
use sn_plan_fit::misfit::{Misfit, MisfitKind};
use sn_plan_fit::{fits, shape};

/// A refined query of a distinct and a reduce.
const DEEP: &[u8] =
    b"window 1000000 query q { refine ip.dst: 8, 32; packets | map ip.dst as d, ip.src as s | distinct | map d as d, 1 as n | reduce d: sum(n) width 16 | filter n > 1; }";

const PLAN: &[u8] = b"plan query q path 0; piece 0 0 cut 2 slots 1 stages 1;";

/// What is answered for these texts. `None` where one of them isn't read.
fn answer(
    rt: &HostRuntime,
    queries_text: &[u8],
    switch_text: &[u8],
    plan_text: &[u8],
) -> Option<Result<(), Misfit>> {
    let typed = queries(rt.alloc(), queries_text)?;
    let switch = switch(rt.alloc(), switch_text)?;
    let plan = plan(rt.alloc(), plan_text)?;
    Some(fits(&typed, &switch, &plan))
}

fn shape_of(rt: &HostRuntime, queries_text: &[u8], plan_text: &[u8]) -> Option<Result<(), Misfit>> {
    let typed = queries(rt.alloc(), queries_text)?;
    let plan = plan(rt.alloc(), plan_text)?;
    Some(shape(&typed, &plan))
}

fn misfit(kind: MisfitKind, want: u64, got: u64) -> Option<Result<(), Misfit>> {
    Some(Err(Misfit { kind, want, got }))
}

#[test]
fn names_the_misfit_of_a_sum(rt: HostRuntime) {
    for (switch, plan, want) in [
        (SMALL, PLAN, Some(Ok(()))),
        (
            SMALL,
            b"plan query q path 0; piece 0 0 cut 3 slots 1 stages 1;".as_slice(),
            misfit(MisfitKind::Cut, 2, 3),
        ),
        (
            SMALL,
            b"plan query q path 0; piece 0 0 cut 2 slots 2 stages 1;",
            misfit(MisfitKind::Slots, 0, 2),
        ),
        (
            SMALL,
            b"plan query q path 0; piece 0 0 cut 2;",
            misfit(MisfitKind::Slots, 1, 0),
        ),
        (
            SMALL,
            b"plan query q path 0; piece 0 0 cut 2 slots 1 stages 4;",
            misfit(MisfitKind::Stage, 3, 4),
        ),
        (
            b"stages 4; actions 2; bits 1000; meta 47; chain 1; slots 1;",
            PLAN,
            misfit(MisfitKind::Meta, 47, 48),
        ),
        (
            b"stages 4; actions 2; bits 49; meta 48; chain 1; slots 1;",
            PLAN,
            Some(Ok(())),
        ),
        (
            b"stages 4; actions 2; bits 48; meta 1000; chain 1; slots 1;",
            PLAN,
            misfit(MisfitKind::Bits, 48, 49),
        ),
        (
            b"stages 4; actions 2; bits 48; meta 47; chain 1; slots 1;",
            PLAN,
            misfit(MisfitKind::Bits, 48, 49),
        ),
        (
            b"stages 4; actions 2; bits 1000; meta 1000; chain 2; slots 1;",
            b"plan query q path 0; piece 0 0 cut 2 slots 1 stages 1, 1;",
            misfit(MisfitKind::Order, 2, 1),
        ),
        (
            b"stages 4; actions 2; bits 1000; meta 1000; chain 2; slots 1;",
            PLAN,
            misfit(MisfitKind::Order, 2, 1),
        ),
        (
            SMALL,
            b"plan query q path 0; piece 0 0 cut 2 slots 1 stages 0;",
            misfit(MisfitKind::Order, 1, 0),
        ),
        (
            SMALL,
            b"plan query r path 0; piece 0 0 cut 2 slots 1 stages 1;",
            misfit(MisfitKind::Path, 0, 0),
        ),
        (
            SMALL,
            b"plan query q path 0; query q path 0;",
            misfit(MisfitKind::Path, 0, 0),
        ),
    ] {
        assert_eq!(rt; answer(&rt, COUNTS, switch, plan), want);
    }
}

#[test]
fn adds_up_over_pieces(rt: HostRuntime) {
    let switch = b"stages 2; actions 1; bits 41; meta 100; chain 1; slots 1;".as_slice();
    for (plan, want) in [
        (
            b"plan query a path 0; piece 0 0 cut 2 slots 1 stages 1; query b path 0; piece 0 0 cut 0;".as_slice(),
            Some(Ok(())),
        ),
        (
            b"plan query a path 0; piece 0 0 cut 2 slots 1 stages 1;",
            misfit(MisfitKind::Path, 0, 1),
        ),
        (
            b"plan query a path 0; piece 0 0 cut 2 slots 1 stages 1; query b path 0; piece 0 0 cut 2 slots 1 stages 1;",
            misfit(MisfitKind::Actions, 1, 2),
        ),
    ] {
        assert_eq!(rt; answer(&rt, TWO, switch, plan), want);
    }
    let wide = b"stages 2; actions 2; bits 81; meta 100; chain 1; slots 1;";
    let both =
        b"plan query a path 0; piece 0 0 cut 2 slots 1 stages 1; query b path 0; piece 0 0 cut 2 slots 1 stages 1;";
    assert_eq!(rt;
        answer(&rt, TWO, wide, both),
        misfit(MisfitKind::Bits, 81, 82)
    );
}

#[test]
fn counts_the_membership_table(rt: HostRuntime) {
    let switch = b"stages 5; actions 2; bits 1000; meta 128; chain 1; slots 1;".as_slice();
    for (plan, want) in [
        (
            b"plan query q path 32; piece 32 0 cut 5 slots 1, 1 stages 1, 3;".as_slice(),
            Some(Ok(())),
        ),
        (
            b"plan query q path 8, 32; piece 8 0 cut 0; piece 32 0 cut 2 slots 1 stages 1;",
            misfit(MisfitKind::Order, 2, 1),
        ),
        (
            b"plan query q path 8, 32; piece 8 0 cut 0; piece 32 0 cut 5 slots 1, 1 stages 2, 4;",
            misfit(MisfitKind::Stage, 4, 5),
        ),
        (
            b"plan query q path 8, 32; piece 8 0 cut 2 slots 1 stages 1; piece 32 0 cut 2 slots 1 stages 2;",
            Some(Ok(())),
        ),
        (
            b"plan query q path 8; piece 8 0 cut 0;",
            misfit(MisfitKind::Path, 0, 0),
        ),
        (
            b"plan query q path 32, 8; piece 32 0 cut 0; piece 8 0 cut 0;",
            misfit(MisfitKind::Path, 0, 0),
        ),
    ] {
        assert_eq!(rt; answer(&rt, DEEP, switch, plan), want);
    }
}

#[test]
fn orders_pieces_by_level_and_then_branch(rt: HostRuntime) {
    for (plan, want) in [
        (
            b"plan query q path 8, 32; piece 8 0 cut 0; piece 8 1 cut 0; piece 32 0 cut 2 slots 7 stages 9; piece 32 1 cut 0;".as_slice(),
            Some(Ok(())),
        ),
        (
            b"plan query q path 8, 32; piece 8 0 cut 0; piece 32 0 cut 0; piece 8 1 cut 0; piece 32 1 cut 0;",
            misfit(MisfitKind::Path, 0, 0),
        ),
        (
            b"plan query q path 32; piece 32 0 cut 0; piece 32 1 cut 3;",
            misfit(MisfitKind::Cut, 2, 3),
        ),
    ] {
        assert_eq!(rt; shape_of(&rt, JOINED, plan), want);
    }
}
