//! Which frames an engine takes.
ghost use Rattle.std.specs.Prelude.{◌≡◌, ◌^◌, ◌<◌, ◌&&◌, ℕ, List, Option, length, nat_lt, position, take};
ghost use Rattle.std.specs.List.{list_any, list_all};
ghost use Rattle.sn_engine.specs.Intakes.{is_lane, agrees, AreIntakes};
ghost use Rattle.sn_engine.specs.Taking.{has_columns, is_above, is_first_stateful, is_shared_tag, is_tag_on, row_fault, end_fault, take_fault, Places};
ghost use Rattle.sn_report.specs.Items.{item_by};
ghost use Rattle.sn_report.specs.declared.frame.Frame.TheVariants as Frame;
ghost use Rattle.sn_types.specs.declared.typed_query.TypedQuery.{TypedQuery};
ghost use Rattle.sn_engine_split.specs.Branches.{is_distinct, is_reduce, is_at_place, is_tag_of, tag_columns};
ghost use Rattle.sn_types.specs.Cuts.{is_stateful};
ghost use Rattle.sn_types.specs.Typed.{query_at, branch_at, schema_at};

use crate::fault::TakeFault;
use crate::intake::Intake;
use sn_base::any_row::AnyRow;
use sn_base::columns::Columns;
use sn_base::lane::Lane;
use sn_base::number::Number;
use sn_base::schema::Schema;
use sn_report::frame::{Item, Tag};
use sn_types::cuts::is_stateful;
use sn_types::typed::Typed;
use sn_types::typed_op::TOp;
use sn_types::typed_query::TypedBranch;

/// The place of a lane. `None` exactly where the lane is no piece of the plan.
fn lane_at(lanes: &[Intake], lane: Lane) -> Option<usize>
    ensures { result ≡ position (is_lane lane) lanes.now }
{
    lanes.iter().position(|x| x.is_lane(lane))
}

fn is_distinct(op: &TOp) -> bool
    ensures { result ≡ is_distinct op.now }
{
    match op {
        TOp::Distinct => true,
        TOp::Filter(_) | TOp::Map(_) | TOp::Reduce(_) => false,
    }
}

fn is_reduce(op: &TOp) -> bool
    ensures { result ≡ is_reduce op.now }
{
    match op {
        TOp::Reduce(_) => true,
        TOp::Filter(_) | TOp::Map(_) | TOp::Distinct => false,
    }
}

fn is_stateful_at(ops: &[TOp], i: usize) -> bool
    ensures { result ≡ is_at_place is_stateful ops.now i }
{
    match ops.get(i) {
        Some(op) => is_stateful(op),
        None => false,
    }
}

fn is_reduce_at(ops: &[TOp], i: usize) -> bool
    ensures { result ≡ is_at_place is_reduce ops.now i }
{
    match ops.get(i) {
        Some(op) => is_reduce(op),
        None => false,
    }
}

/// Whether one of the first operators is a distinct.
fn has_distinct(ops: &[TOp], count: usize) -> bool
    ensures { result ≡ list_any is_distinct (take count ops.now) }
{
    ops.iter().take(count).any(|op| is_distinct(op))
}

fn is_tag_of(ops: &[TOp], cut: u32, tag: Tag) -> bool
    ensures { result ≡ is_tag_of ops.now cut tag }
{
    match tag {
        Tag::At(i) => i as u32 == cut || (i as u32) < cut && is_stateful_at(ops, i as usize),
        Tag::Partial(i) => {
            (i as u32) < cut && is_reduce_at(ops, i as usize) && has_distinct(ops, i as usize)
        }
    }
}

/// Whether one of the first operators has registers.
fn has_stateful(ops: &[TOp], count: usize) -> bool
    ensures { result ≡ list_any is_stateful (take count ops.now) }
{
    ops.iter().take(count).any(|op| is_stateful(op))
}

/// Whether the first operator that has registers stands at this place.
fn is_first_stateful(ops: &[TOp], i: usize) -> bool
    ensures { result ≡ is_first_stateful ops.now i }
{
    is_stateful_at(ops, i) && !has_stateful(ops, i)
}

fn is_shared_tag(ops: &[TOp], cut: u32, tag: Tag) -> bool
    ensures { result ≡ is_shared_tag ops.now cut tag }
{
    match tag {
        Tag::At(i) => {
            if has_stateful(ops, cut as usize) {
                is_first_stateful(ops, i as usize)
            } else {
                i as u32 == cut
            }
        }
        Tag::Partial(i) => {
            (i as u32) < cut && is_reduce_at(ops, i as usize) && is_first_stateful(ops, i as usize)
        }
    }
}

/// Whether a lane with this cut has a tag.
fn is_tag_on(shared: bool, ops: &[TOp], cut: u32, tag: Tag) -> bool
    ensures { result ≡ is_tag_on shared ops.now cut tag }
{
    if shared {
        is_shared_tag(ops, cut, tag)
    } else {
        is_tag_of(ops, cut, tag)
    }
}

fn has_bits<N: Number>(number: N, width: u32) -> bool
    ensures { result ≡ nat_lt (N.value number) (2 ^ width) }
{
    number.shifted(width).whole() == 0
}

fn has_columns<R: AnyRow>(schema: &Schema, row: &R) -> bool
    ensures { result ≡ has_columns schema.now (R.columns row.now) }
{
    let count = row.len();
    if count != schema.len() {
        return false;
    }
    let columns = schema.as_slice();
    for place in 0..count {
        if !has_bits(row.column(place as u32), columns[place].width) {
            return false;
        }
    }
    true
}

/// Whether a row has the columns of the rows that come to an operator of a branch.
fn has_columns_at<R: AnyRow>(branch: &TypedBranch, number: usize, row: &R) -> bool
    ensures { result ≡ has_columns (schema_at branch.now.schemas number) (R.columns row.now) }
{
    match branch.schemas.as_slice().get(number) {
        Some(schema) => has_columns(schema, row),
        None => has_columns(&Schema::new(), row),
    }
}

/// Whether an item has the columns of the rows with its tag.
fn has_tag_columns<R: AnyRow>(branch: &TypedBranch, item: &Item<R>) -> bool
    ensures { result ≡ has_columns (tag_columns branch.now.schemas item.now.tag) (R.columns item.now.row) }
{
    match item.tag {
        Tag::At(i) => has_columns_at(branch, i as usize, &item.row),
        Tag::Partial(i) => has_columns_at(branch, i as usize + 1, &item.row),
    }
}

/// The first reason for which a lane doesn't take an item.
fn row_fault<R: AnyRow>(t: &Typed, x: &Intake, item: &Item<R>) -> Option<TakeFault>
    requires query { x.now.query < length t.now.queries }
    requires branch { x.now.branch < length (query_at t.now.queries x.now.query).branches }
    ensures { result ≡ row_fault t.now.queries x.now (item_by R.columns item.now) }
{
    let branch = t.branch(x.query, x.branch);
    if !is_tag_on(x.shared, branch.ops.as_slice(), x.cut, item.tag) {
        Some(TakeFault::Stranger)
    } else if !has_tag_columns(branch, item) {
        Some(TakeFault::Width)
    } else if !x.is_open() {
        Some(TakeFault::AfterEnd)
    } else {
        None
    }
}

fn is_above(closed: Option<u64>, window: u64) -> bool
    ensures { result ≡ is_above closed window }
{
    match closed {
        Some(last) => last < window,
        None => true,
    }
}

fn agrees(x: &Intake, window: u64) -> bool
    ensures { result ≡ agrees window x.now }
{
    match x.end {
        Some(end) => end == window,
        None => true,
    }
}

fn all_agree(lanes: &[Intake], window: u64) -> bool
    ensures { result ≡ list_all (agrees window) lanes.now }
{
    lanes.iter().all(|other| agrees(other, window))
}

/// The first reason for which a lane doesn't take its End.
fn end_fault(lanes: &[Intake], closed: Option<u64>, x: &Intake, window: u64) -> Option<TakeFault>
    ensures { result ≡ end_fault lanes.now closed x.now window }
{
    if !x.is_open() {
        return Some(TakeFault::AfterEnd);
    }
    let next = is_above(closed, window) && all_agree(lanes, window);
    if next { None } else { Some(TakeFault::Window) }
}

/// The place of the lane that takes an item, or the first reason for which none does.
pub(crate) fn place_for_item<R: AnyRow>(
    t: &Typed,
    lanes: &[Intake],
    lane: Lane,
    item: &Item<R>,
) -> Result<usize, TakeFault>
    requires { AreIntakes t.now.queries lanes.now }
    ensures { (closed : Option ℕ) → Places result (position (is_lane lane) lanes.now)
        (take_fault t.now.queries lanes.now closed (Frame.Row lane (item_by R.columns item.now))) }
{
    match lane_at(lanes, lane) {
        Some(at) => match row_fault(t, &lanes[at], item) {
            Some(fault) => Err(fault),
            None => Ok(at),
        },
        None => Err(TakeFault::Stranger),
    }
}

/// The place of the lane that takes its End, or the first reason for which none does.
pub(crate) fn place_for_end(
    lanes: &[Intake],
    closed: Option<u64>,
    lane: Lane,
    window: u64,
) -> Result<usize, TakeFault>
    ensures { (queries : List TypedQuery) → Places result (position (is_lane lane) lanes.now) (take_fault queries lanes.now closed (Frame.End lane window)) }
{
    match lane_at(lanes, lane) {
        Some(at) => match end_fault(lanes, closed, &lanes[at], window) {
            Some(fault) => Err(fault),
            None => Ok(at),
        },
        None => Err(TakeFault::Stranger),
    }
}
