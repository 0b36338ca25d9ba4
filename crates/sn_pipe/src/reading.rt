//! What is read out of the stages of a pipe.
ghost use Rattle.std.specs.Prelude.{◌≡◌, ◌+◌, ◌≤◌, ◌<◌, ◌++◌, ◌∷◌, IfSome, drop, filter, length, slice_get};
ghost use Rattle.sn_chain.specs.Registers.{cell};
ghost use Rattle.sn_report.specs.Frames.{operator_of};
ghost use Rattle.sn_report.specs.Items.{item_by};
ghost use Rattle.std.specs.Option.{option_map, option_to_list};
ghost use Rattle.sn_pipe.specs.Passing.{CanRead, CanTest, HoldKeys};
ghost use Rattle.sn_pipe.specs.Windows.{goes_up, held_row, item_up, left_from, passes, rows_left, tag_up};

use crate::stage::{Stage, StageOf};
use sn_base::any_fold::AnyFold;
use sn_base::any_row::AnyRow;
use sn_base::number::Number;
use sn_chain::chain::Chain;
use sn_report::frame::{Item, Tag};
use sn_types::evaluate;
use sn_types::typed_op::TReduce;

/// Whether a row passes these stages, all of which are filters.
fn passes<R: AnyRow>(stages: &[StageOf<R>], level: u32, row: &R) -> bool
    requires { CanTest (length (R.columns row.now)) stages.now }
    ensures { result ≡ passes level stages.now (R.columns row.now) }
{
    match stages.split_first() {
        None => true,
        Some((Stage::Filter(conds), following)) => {
            evaluate::passes(conds.as_slice(), level, row) && passes(following, level, row)
        }
        Some(_) => false,
    }
}

/// Whether a held row goes up: as it is where the distinct overflowed, and else where it passes the filters.
fn goes_up<R: AnyRow>(following: &[StageOf<R>], level: u32, spilled: bool, row: &R) -> bool
    requires { CanTest (length (R.columns row.now)) following.now }
    ensures { result ≡ goes_up level spilled following.now (R.columns row.now) }
{
    spilled || passes(following, level, row)
}

/// With which tag held rows of the reduce of number `first` go up.
fn tag_up<R: AnyRow>(first: u8, spilled: bool, following: &[StageOf<R>]) -> Tag
    requires { first + length following.now < 12 }
    ensures tag { result ≡ tag_up first spilled following.now }
    ensures operator { operator_of result ≤ 12 }
{
    if spilled {
        Tag::Partial(first)
    } else {
        Tag::At(first + 1 + following.len() as u8)
    }
}

/// A key that is held, as a row: its columns, and the fold of its values.
pub fn held_row<R: AnyRow>(held: (R, u64)) -> R
    requires { length (R.columns held.0) < 8 }
    ensures { R.columns result ≡ held_row (R.columns held.0, held.1) }
{
    let (mut row, value) = held;
    row.push(R::Number::of_word(value));
    row
}

/// The row of the key that is held at a place, if one is.
fn row_at<R: AnyRow>(chain: &Chain<AnyFold, R>, at: u32, columns: usize) -> Option<R>
    requires few { columns < 8 }
    requires keys { HoldKeys columns chain.now.cells }
    ensures row { option_map R.columns result ≡ option_map held_row (cell chain.now.cells at) }
    ensures columns { IfSome result (λ row. length (R.columns row) ≡ columns + 1) }
{
    match chain.get(at) {
        Some(held) => Some(held_row(held)),
        None => None,
    }
}

/// The row at a place, if it goes up.
fn up_at<R: AnyRow>(
    chain: &Chain<AnyFold, R>,
    following: &[StageOf<R>],
    level: u32,
    spilled: bool,
    at: u32,
    columns: usize,
) -> Option<R>
    requires few { columns < 8 }
    requires keys { HoldKeys columns chain.now.cells }
    requires test { CanTest (columns + 1) following.now }
    requires within { at < length chain.now.cells }
    ensures { filter (goes_up level spilled following.now) (rows_left chain.now at) ≡ option_to_list (option_map R.columns result) ++
        filter (goes_up level spilled following.now) (rows_left chain.now (at + 1)) }
{
    let row = row_at(chain, at, columns)?;
    if goes_up(following, level, spilled, &row) {
        Some(row)
    } else {
        None
    }
}

/// The first row from a place on that goes up, and the place after it.
fn first_up<R: AnyRow>(
    chain: &Chain<AnyFold, R>,
    following: &[StageOf<R>],
    level: u32,
    spilled: bool,
    place: u32,
    columns: usize,
) -> (Option<R>, u32)
    requires few { columns < 8 }
    requires keys { HoldKeys columns chain.now.cells }
    requires test { CanTest (columns + 1) following.now }
    ensures row { option_map R.columns result.0 ≡ slice_get (filter (goes_up level spilled following.now) (rows_left chain.now place)) 0 }
    ensures left { filter (goes_up level spilled following.now) (rows_left chain.now result.1) ≡
        drop 1 (filter (goes_up level spilled following.now) (rows_left chain.now place)) }
{
    let mut at = chain.next_held(place);
    while at < chain.places() {
        let row = up_at(chain, following, level, spilled, at, columns);
        if row.is_some() {
            return (row, at + 1);
        }
        at = chain.next_held(at + 1);
    }
    (None, at)
}

/// The next item that is read out of stages, the first of which has number `first`, from a place of the reduce on;
/// and the place after it.
pub(crate) fn next_item<R: AnyRow>(
    stages: &[StageOf<R>],
    level: u32,
    first: u8,
    spilled: bool,
    place: u32,
) -> (Option<Item<R>>, u32)
    requires few { first + length stages.now ≤ 12 }
    requires can { CanRead stages.now }
    ensures item { option_map (item_by R.columns) result.0 ≡ slice_get (left_from level first spilled place stages.now) 0 }
    ensures left { left_from level first spilled result.1 stages.now ≡ drop 1 (left_from level first spilled place stages.now) }
    ensures operator { IfSome result.0 (λ item. operator_of item.tag ≤ 12) }
{
    match stages.split_first() {
        None => (None, place),
        Some((Stage::Filter(_) | Stage::Map(_), following)) => {
            next_item(following, level, first + 1, spilled, place)
        }
        Some((Stage::Distinct(_, over), following)) => {
            next_item(following, level, first + 1, spilled || *over, place)
        }
        Some((Stage::Reduce(r, chain), following)) => {
            next_held(r, chain, following, level, first, spilled, place)
        }
    }
}

/// The next item that is read out of a reduce of number `first`, from a place on, and the place after it.
fn next_held<R: AnyRow>(
    r: &TReduce,
    chain: &Chain<AnyFold, R>,
    following: &[StageOf<R>],
    level: u32,
    first: u8,
    spilled: bool,
    place: u32,
) -> (Option<Item<R>>, u32)
    requires few { first + length following.now < 12 }
    requires columns { length r.now.keys < 8 }
    requires keys { HoldKeys (length r.now.keys) chain.now.cells }
    requires test { CanTest (length r.now.keys + 1) following.now }
    ensures item { option_map (item_by R.columns) result.0 ≡ slice_get (left_from level first spilled place (Stage.Reduce r.now chain.now ∷ following.now)) 0 }
    ensures left { left_from level first spilled result.1 (Stage.Reduce r.now chain.now ∷ following.now) ≡
        drop 1 (left_from level first spilled place (Stage.Reduce r.now chain.now ∷ following.now)) }
    ensures operator { IfSome result.0 (λ item. operator_of item.tag ≤ 12) }
{
    let columns = r.keys.as_slice().len();
    let (row, after) = first_up(chain, following, level, spilled, place, columns);
    (with_tag(tag_up(first, spilled, following), row), after)
}

fn with_tag<R: AnyRow>(tag: Tag, row: Option<R>) -> Option<Item<R>>
    ensures item { option_map (item_by R.columns) result ≡ option_map (item_up tag) (option_map R.columns row) }
    ensures operator { operator_of tag ≤ 12 → IfSome result (λ item. operator_of item.tag ≤ 12) }
{
    match row {
        Some(row) => Some(Item { tag, row }),
        None => None,
    }
}
