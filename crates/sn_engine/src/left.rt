//! The items that are left where those of other prefixes are dropped.
ghost use Rattle.std.specs.Prelude.{◌≡◌, ◌<◌, ◌++◌, length, map, not, position, slice_index, unwrap_or, IfOk, IfSome, OnOk, Some};
ghost use Rattle.std.specs.Option.{option_map};
ghost use Rattle.sn_engine.specs.AnyItems.{items_left};
ghost use Rattle.sn_engine_split.specs.Opened.{has_prefix, keeps_in, left_in};
ghost use Rattle.sn_pipe_items.specs.Left.{keeps_at, left_of};
ghost use Rattle.sn_report.specs.Items.{item_by};
ghost use Rattle.sn_types.specs.Typed.{branch_at, query_at};

use crate::items::{AnyItems, Items};
use crate::places::place_at;
use sn_base::any_row::AnyRow;
use sn_base::columns::Columns;
use sn_base::members::Members;
use sn_base::memory::Memory;
use sn_base::number::Number;
use sn_fields::field::Field;
use sn_report::frame::{Item, Tag};
use sn_types::typed::Typed;
use sn_types::typed_query::TypedBranch;
use std::alloc::Global;

/// The items of a lane that are left: all that came, or a copy of some of them.
#[derive(Drop)]
pub enum Left<'a> {
    All(&'a Items),
    Some(Items),
}

impl<'a> Left<'a> {
    pub(crate) fn items(&self) -> &Items
        ensures { result.now ≡ items_left self.now }
    {
        match self {
            Left::All(items) => items,
            Left::Some(items) => items,
        }
    }
}

/// The number of a row in the column at a place, and 0 where there is none.
fn column<R: AnyRow>(row: &R, place: usize) -> R::Number
    ensures { R.Number.value result ≡ slice_index (R.columns row.now) place }
{
    if place < row.len() {
        row.column(place as u32)
    } else {
        R::Number::of_word(0)
    }
}

fn has_prefix<N: Number>(field: Field, bits: u32, members: &Members, number: N) -> bool
    ensures { result ≡ has_prefix field (bits, members.now) (N.value number) }
{
    members.has(number.cleared(field.width().saturating_sub(bits)).whole())
}

/// Whether a row that comes to an operator has one of these prefixes.
fn keeps<R: AnyRow>(
    branch: &TypedBranch,
    field: Field,
    bits: u32,
    members: &Members,
    op: usize,
    row: &R,
) -> bool
    ensures { result ≡ keeps_in (Some field) branch.now (Some (bits, members.now)) op (R.columns row.now) }
{
    has_prefix(
        field,
        bits,
        members,
        column(row, place_at(branch, op, field)),
    )
}

/// Whether an item has one of these prefixes.
fn is_left<R: AnyRow>(
    branch: &TypedBranch,
    field: Field,
    bits: u32,
    members: &Members,
    item: &Item<R>,
) -> bool
    ensures { result ≡ keeps_at (keeps_in (Some field) branch.now (Some (bits, members.now))) item.now.tag (R.columns item.now.row) }
{
    match item.tag {
        Tag::At(i) => keeps(branch, field, bits, members, i as usize, &item.row),
        Tag::Partial(i) => keeps(branch, field, bits, members, i as usize + 1, &item.row),
    }
}

/// The place of the first item of another prefix.
fn first_dropped<R: AnyRow>(
    branch: &TypedBranch,
    field: Field,
    bits: u32,
    members: &Members,
    items: &[Item<R>],
) -> Option<usize>
    ensures first { let keeps = keeps_in (Some field) branch.now (Some (bits, members.now)) in
        result ≡ position (λ x. not (keeps_at keeps x.tag (R.columns x.row))) items.now }
    ensures within { IfSome result (λ at. at < length items.now) }
{
    items
        .iter()
        .position(|item| !is_left(branch, field, bits, members, item))
}

/// Adds those of these items that are left.
fn push_left<R: AnyRow>(
    found: &mut Vec<Item<R>>,
    branch: &TypedBranch,
    field: Field,
    bits: u32,
    members: &Members,
    items: &[Item<R>],
) -> Result<(), Memory>
    ensures { OnOk result (map (item_by R.columns) found.new.items
        ≡ map (item_by R.columns) found.old.items ++ left_of (keeps_in (Some field) branch.now (Some (bits, members.now))) (map (item_by R.columns) items.now)) }
{
    for item in items {
        if is_left(branch, field, bits, members, item) {
            found.push(*item)?;
        }
    }
    Ok(())
}

/// A copy of the items that are left. `None` where all are: these aren't copied. Each is looked up once.
fn left_of_kind<R: AnyRow>(
    alloc: Global,
    branch: &TypedBranch,
    field: Field,
    bits: u32,
    members: &Members,
    items: &[Item<R>],
) -> Result<Option<Vec<Item<R>>>, Memory>
    ensures { IfOk result (λ found. unwrap_or (option_map (λ left. map (item_by R.columns) left.items) found) (map (item_by R.columns) items.now)
        ≡ left_of (keeps_in (Some field) branch.now (Some (bits, members.now))) (map (item_by R.columns) items.now)) }
{
    let Some(first) = first_dropped(branch, field, bits, members, items) else {
        return Ok(None);
    };
    let mut found = Vec::from_slice(alloc, &items[..first])?;
    push_left(
        &mut found,
        branch,
        field,
        bits,
        members,
        &items[first + 1..],
    )?;
    Ok(Some(found))
}

/// The items that are left, over rows of their kind.
fn left_of_field<'a>(
    alloc: Global,
    branch: &TypedBranch,
    field: Field,
    bits: u32,
    members: &Members,
    items: &'a Items,
) -> Result<Left<'a>, Memory>
    ensures { IfOk result (λ found. items_left found ≡ left_of (keeps_in (Some field) branch.now (Some (bits, members.now))) items.now) }
{
    let held = match items.kind() {
        AnyItems::Short(found) => {
            match left_of_kind(alloc, branch, field, bits, members, found.as_slice())? {
                Some(found) => AnyItems::Short(found),
                None => return Ok(Left::All(items)),
            }
        }
        AnyItems::Wide(found) => {
            match left_of_kind(alloc, branch, field, bits, members, found.as_slice())? {
                Some(found) => AnyItems::Wide(found),
                None => return Ok(Left::All(items)),
            }
        }
    };
    Ok(Left::Some(Items::of(alloc, held)))
}

/// The items of a branch that are left where those of other prefixes than these are dropped: none where the query isn't refined.
pub(crate) fn left_in<'a>(
    alloc: Global,
    t: &Typed,
    q: u32,
    b: u32,
    bits: u32,
    members: &Members,
    items: &'a Items,
) -> Result<Left<'a>, Memory>
    requires query { q < length t.now.queries }
    requires branch { b < length (query_at t.now.queries q).branches }
    ensures { IfOk result (λ found. items_left found ≡ left_in (query_at t.now.queries q) b (Some (bits, members.now)) items.now) }
{
    match t.refine_field(q) {
        Some(field) => left_of_field(alloc, t.branch(q, b), field, bits, members, items),
        None => Ok(Left::Some(Items::new(alloc))),
    }
}
