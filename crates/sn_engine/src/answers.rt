//! The answers of a window.
ghost use Rattle.std.specs.Prelude.{◌≡◌, ◌<◌, length, IfOk, IfSome};
ghost use Rattle.std.specs.FinSet as set;
ghost use Rattle.sn_engine.specs.AnyItems.{items_left};
ghost use Rattle.sn_engine.specs.Intakes.{AreIntakes, IsIntake, items_at, first_open, lane_at};
ghost use Rattle.sn_engine.specs.Answers.{part_of, parts_of, window_of};
ghost use Rattle.sn_engine.specs.Keeping.{all_left, left};

use crate::intake::Intake;
use crate::items::Items;
use crate::keep::members_at;
use crate::left::{Left, left_in};
use crate::query::sorted_value;
use sn_base::members::Members;
use sn_base::memory::Memory;
use sn_base::seq::Seq;
use sn_types::answers::Part;
use sn_types::typed::Typed;
use std::alloc::Global;

/// The first lane that hasn't ended the window.
pub(crate) fn first_open(lanes: &[Intake]) -> Option<usize>
    ensures first { result ≡ first_open lanes.now }
    ensures within { IfSome result (λ lane. lane < length lanes.now) }
{
    lanes.iter().position(|x| x.is_open())
}

/// The window that the lanes have ended.
pub(crate) fn window_of(lanes: &[Intake]) -> u64
    ensures { result ≡ window_of lanes.now }
{
    match lanes.first() {
        Some(x) => match x.end {
            Some(window) => window,
            None => 0,
        },
        None => 0,
    }
}

/// The items of a lane that are left, where these are its prefixes: all where no level stands before its own.
fn left_of<'a>(
    alloc: Global,
    t: &Typed,
    x: &'a Intake,
    members: &Members,
) -> Result<Left<'a>, Memory>
    requires { IsIntake t.now.queries x.now }
    ensures { IfOk result (λ found. items_left found ≡ (left t.now.queries members.now x.now).items) }
{
    match x.before {
        Some(bits) => left_in(alloc, t, x.query, x.branch, bits, members, &x.items),
        None => Ok(Left::All(&x.items)),
    }
}

/// The items that are left of a query at a place of its path and of a branch: none where no lane is of them.
fn left_at<'a>(
    alloc: Global,
    t: &Typed,
    lanes: &'a [Intake],
    sets: &[Members],
    none: &Members,
    query: u32,
    place: u32,
    branch: u32,
) -> Result<Left<'a>, Memory>
    requires lanes { AreIntakes t.now.queries lanes.now }
    requires none { none.now ≡ set.empty }
    ensures { IfOk result (λ found. items_left found ≡ items_at (all_left t.now.queries sets.now lanes.now) (lane_at query place branch)) }
{
    let mut lane = 0;
    for x in lanes {
        if x.is_side(query, place, branch) {
            return left_of(alloc, t, x, members_at(sets, lane, none));
        }
        lane += 1;
    }
    Ok(Left::Some(Items::new(alloc)))
}

/// The answer at the query and level of a lane of the first branch, where these are its prefixes.
fn part(
    alloc: Global,
    t: &Typed,
    lanes: &[Intake],
    sets: &[Members],
    none: &Members,
    x: &Intake,
    members: &Members,
) -> Result<Part, Memory>
    requires lanes { AreIntakes t.now.queries lanes.now }
    requires none { none.now ≡ set.empty }
    requires lane { IsIntake t.now.queries x.now }
    requires first { x.now.branch ≡ 0 }
    ensures { IfOk result (λ part. part ≡ part_of t.now.queries (all_left t.now.queries sets.now lanes.now) (left t.now.queries members.now x.now)) }
{
    let own = left_of(alloc, t, x, members)?;
    let other = left_at(alloc, t, lanes, sets, none, x.query, x.place, 1)?;
    let rows = sorted_value(alloc, t, x.query, x.level, own.items(), other.items())?;
    Ok(Part {
        query: x.query,
        level: x.level,
        rows,
    })
}

/// The answers by query, then by level, where these are the prefixes of each lane.
pub(crate) fn parts(
    alloc: Global,
    t: &Typed,
    lanes: &[Intake],
    sets: &[Members],
) -> Result<Seq<Part>, Memory>
    requires { AreIntakes t.now.queries lanes.now }
    ensures { IfOk result (λ parts. parts ≡ parts_of t.now.queries (all_left t.now.queries sets.now lanes.now)) }
{
    let none = Members::new(alloc);
    let mut parts = Seq::new(alloc);
    let mut lane = 0;
    for x in lanes {
        if x.branch == 0 {
            let members = members_at(sets, lane, &none);
            parts.push(part(alloc, t, lanes, sets, &none, x, members)?)?;
        }
        lane += 1;
    }
    Ok(parts)
}
