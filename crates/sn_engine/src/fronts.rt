//! The first operators of a branch, and the tag of what the first with registers keeps.
ghost use Rattle.std.specs.Prelude.{◌≡◌, ◌<◌, ◌≤◌, length, suc, take};
ghost use Rattle.sn_engine.specs.Turns.{held_tag, lane_tag};
ghost use Rattle.sn_types.specs.Typed.{branch_at, query_at};

use crate::intake::Intake;
use sn_report::frame::Tag;
use sn_types::typed::Typed;
use sn_types::typed_op::TOp;

/// The first operators of a branch, as many as `count` says.
pub fn front(t: &Typed, q: u32, b: u32, count: u32) -> &[TOp]
    requires query { q < length t.now.queries }
    requires branch { b < length (query_at t.now.queries q).branches }
    ensures ops { result.now ≡ take count (branch_at t.now.queries q b).ops }
    ensures few { length result.now ≤ 12 }
{
    let ops = t.operators(q, b);
    if count as usize >= ops.len() {
        return ops;
    }
    let (front, _) = ops.split_at(count as usize);
    front
}

/// The tag of what the first operator with registers keeps. `None` exactly where no operator has registers.
fn held_tag(ops: &[TOp]) -> Option<Tag>
    requires { length ops.now ≤ 12 }
    ensures { result ≡ held_tag 0 ops.now }
{
    let mut number = 0;
    for op in ops {
        match op {
            TOp::Filter(_) | TOp::Map(_) => number += 1,
            TOp::Distinct => return Some(Tag::At(number)),
            TOp::Reduce(_) => return Some(Tag::Partial(number)),
        }
    }
    None
}

/// The tag of what a lane keeps.
pub(crate) fn lane_tag(t: &Typed, x: &Intake) -> Option<Tag>
    requires query { x.now.query < length t.now.queries }
    requires branch { x.now.branch < length (query_at t.now.queries x.now.query).branches }
    ensures { result ≡ lane_tag t.now.queries x.now }
{
    held_tag(front(t, x.query, x.branch, x.cut))
}
