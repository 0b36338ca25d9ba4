//! A query that is refined over windows.
ghost use Rattle.std.specs.Prelude.{◌≡◌, ◌<◌, length, nat_eq, true};
ghost use Rattle.std.specs.List.{list_any};
ghost use Rattle.sn_refine.specs.Steps.{IsPathOf};
ghost use Rattle.sn_types.specs.Typed.{query_at};
ghost use Rattle.sn_windows.specs.Rising.{IsAbove};

use crate::texts::{NET, REFINED, queries, row, short_rows, syn};
use sn_base::memory::Memory;
use sn_base::seq::Seq;
use sn_base::short_row::ShortRow;
use sn_fields::tuple::Tuple;
use sn_refine::members::members;
use sn_refine::refined::Refined;
use sn_types::answers::{AnswerRows, EitherRows, Part};
use sn_types::typed::Typed;
use std::alloc::Global;

fn has_level(t: &Typed, level: u32) -> bool
    requires { 0 < length t.now.queries }
    ensures { result ≡ list_any (nat_eq level) (query_at t.now.queries 0).levels }
{
    t.levels(0).iter().any(|other| level == *other)
}

/// Whether these are levels of the one query, which is refined.
fn is_path(t: &Typed, path: &[u32]) -> bool
    requires { 0 < length t.now.queries }
    ensures { result ≡ true → IsPathOf t.now.queries 0 path.now }
{
    t.refine_field(0).is_some() && path.iter().all(|level| has_level(t, *level))
}

fn is_above(last: Option<u64>, w: u64) -> bool
    ensures { result ≡ true → IsAbove last w }
{
    match last {
        Some(last) => last < w,
        None => true,
    }
}

/// The query on the path 8, 32.
fn refined(alloc: Global, t: &Typed) -> Result<Refined, Memory> {
    let path = [8, 32];
    if t.queries() != 1 || !is_path(t, &path) {
        return Err(Memory);
    }
    Refined::make(alloc, t, 0, &path)
}

/// The answers of a window. `Err` where it may not be asked for.
fn answers(
    t: &Typed,
    refined: &mut Refined,
    w: u64,
    tuples: &[Tuple],
) -> Result<Seq<Part>, Memory> {
    if t.queries() == 0 || refined.query != 0 {
        return Err(Memory);
    }
    if !is_path(t, refined.path.as_slice()) || !is_above(refined.last, w) {
        return Err(Memory);
    }
    refined.window(t, w, tuples)
}

fn rows(parts: &Seq<Part>, place: usize) -> &[ShortRow] {
    match parts.as_slice().get(place) {
        Some(part) => short_rows(part),
        None => &[],
    }
}

#[test]
fn finer_levels_see_what_was_answered_before(rt: HostRuntime) {
    let t = queries(rt.alloc(), REFINED).expect(&rt, "queries");
    let mut refined = refined(rt.alloc(), &t).expect(&rt, "ample memory");
    let tuples = [syn(1, 9), syn(1, 9)];
    let first = answers(&t, &mut refined, 0, &tuples).expect(&rt, "ample memory");
    assert_eq!(rt; first.as_slice().len(), 2);
    assert_eq!(rt; rows(&first, 0), [row(&[NET, 2])].as_slice());
    assert_eq!(rt; rows(&first, 1).len(), 0);
    let second = answers(&t, &mut refined, 1, &tuples).expect(&rt, "ample memory");
    assert_eq!(rt; rows(&second, 0), [row(&[NET, 2])].as_slice());
    assert_eq!(rt; rows(&second, 1), [row(&[NET + 9, 2])].as_slice());
}

#[test]
fn a_gap_empties_the_finer_levels(rt: HostRuntime) {
    let t = queries(rt.alloc(), REFINED).expect(&rt, "queries");
    let mut refined = refined(rt.alloc(), &t).expect(&rt, "ample memory");
    let tuples = [syn(1, 9), syn(1, 9)];
    let first = answers(&t, &mut refined, 0, &tuples).expect(&rt, "ample memory");
    assert_eq!(rt; rows(&first, 1).len(), 0);
    let second = answers(&t, &mut refined, 2, &tuples).expect(&rt, "ample memory");
    assert_eq!(rt; rows(&second, 0), [row(&[NET, 2])].as_slice());
    assert_eq!(rt; rows(&second, 1).len(), 0);
}

#[test]
fn members_are_the_refinement_column(rt: HostRuntime) {
    let t = queries(rt.alloc(), REFINED).expect(&rt, "queries");
    assert_eq!(rt; t.queries(), 1);
    let rows = Seq::from_slice(rt.alloc(), &[row(&[NET, 2]), row(&[2 * NET, 2])]).expect(
        &rt,
        "ample memory",
    );
    let answers = AnswerRows::of(EitherRows::Short(rows));
    let found = members(rt.alloc(), &t, 0, &answers).expect(&rt, "ample memory");
    assert!(rt; found.has(u128::from(NET)));
    assert!(rt; found.has(u128::from(2 * NET)));
    assert!(rt; !found.has(u128::from(NET + 9)));
    assert!(rt; !found.has(2));
}
