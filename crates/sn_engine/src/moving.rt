//! Items that go from the lanes of the engine of one of several switches to those of the engine of all.
ghost use Rattle.std.specs.Prelude.{◌≡◌, ◌+◌, ◌<◌, ◌^◌, IfOk, OnErr, OnOk, Some, fold, length, map, position, true};
ghost use Rattle.std.specs.List.{list_all, list_any};
ghost use Rattle.sn_base.specs.Changed.{with_first};
ghost use Rattle.sn_engine.specs.Intakes.{AreIntakes, IsIntake, emptied, is_lane};
ghost use Rattle.sn_engine.specs.Moving.{after_lane, fits_lane, has_lane_for, has_name, keeps_columns, name_of, same_schemas, same_widths, with_items};
ghost use Rattle.sn_engine.specs.Turns.{lane_tag, turn};
ghost use Rattle.sn_types.specs.Typed.{query_at, schema_at};

use crate::fronts::lane_tag;
use crate::intake::Intake;
use sn_base::column::Column;
use sn_base::memory::Memory;
use sn_base::schema::Schema;
use sn_report::frame::Tag;
use sn_types::typed::Typed;

fn same_widths(columns: &[Column], others: &[Column]) -> bool
    ensures { result ≡ same_widths columns.now others.now }
{
    let count = columns.len();
    if count != others.len() {
        return false;
    }
    for place in 0..count {
        if columns[place].width != others[place].width {
            return false;
        }
    }
    true
}

fn same_schemas(schemas: &[Schema], others: &[Schema]) -> bool
    ensures { result ≡ same_schemas schemas.now others.now }
{
    let count = schemas.len();
    if count != others.len() {
        return false;
    }
    for place in 0..count {
        if !same_widths(schemas[place].as_slice(), others[place].as_slice()) {
            return false;
        }
    }
    true
}

fn schema_at(schemas: &[Schema], number: usize) -> Schema
    ensures { result ≡ schema_at schemas.now number }
{
    match schemas.get(number) {
        Some(schema) => *schema,
        None => Schema::new(),
    }
}

/// Whether rows that stand after the operator of this tag have the columns of those with the tag.
fn keeps_columns(schemas: &[Schema], tag: Option<Tag>) -> bool
    ensures { result ≡ keeps_columns schemas.now tag }
{
    let Some(tag) = tag else {
        return true;
    };
    match tag {
        Tag::At(number) => {
            let before = schema_at(schemas, number as usize);
            let after = schema_at(schemas, number as usize + 1);
            same_widths(after.as_slice(), before.as_slice())
        }
        // A part has the columns of the rows after its operator.
        Tag::Partial(_) => true,
    }
}

/// Whether rows of a lane, with their tags among several switches, have the columns of another lane of other queries.
fn fits_lane(given: &Typed, x: &Intake, t: &Typed, y: &Intake) -> bool
    requires own { IsIntake t.now.queries y.now }
    requires other { IsIntake given.now.queries x.now }
    ensures { result ≡ fits_lane given.now.queries x.now t.now.queries y.now }
{
    let own = t.branch(y.query, y.branch).schemas.as_slice();
    let schemas = given.branch(x.query, x.branch).schemas.as_slice();
    same_schemas(schemas, own) && keeps_columns(schemas, lane_tag(given, x))
}

/// The place of the lane that has the name of another. `None` exactly where none has.
fn place_of(lanes: &[Intake], x: &Intake) -> Option<usize>
    ensures { result ≡ position (is_lane (name_of x.now)) lanes.now }
{
    lanes
        .iter()
        .position(|y| y.is_side(x.query, x.place, x.branch))
}

/// Whether one of the lanes has the name of a lane of other queries, and the columns of its rows.
fn has_lane_for(t: &Typed, lanes: &[Intake], given: &Typed, x: &Intake) -> bool
    requires own { AreIntakes t.now.queries lanes.now }
    requires other { IsIntake given.now.queries x.now }
    ensures { result ≡ has_lane_for t.now.queries lanes.now given.now.queries x.now }
{
    match place_of(lanes, x) {
        Some(at) => fits_lane(given, x, t, &lanes[at]),
        None => false,
    }
}

/// Whether there is such a lane for each of the others.
pub(crate) fn has_lanes_for(t: &Typed, lanes: &[Intake], given: &Typed, others: &[Intake]) -> bool
    requires own { AreIntakes t.now.queries lanes.now }
    requires others { AreIntakes given.now.queries others.now }
    ensures { result ≡ list_all (has_lane_for t.now.queries lanes.now given.now.queries) others.now }
{
    for x in others {
        if !has_lane_for(t, lanes, given, x) {
            return false;
        }
    }
    true
}

/// Moves the items of a lane to the lane at a place, after those that it has, with this tag where they stand after its operator.
fn move_to(
    lanes: &mut Vec<Intake>,
    at: usize,
    x: &mut Intake,
    tag: Option<Tag>,
) -> Result<(), Memory>
    requires { position (is_lane (name_of x.old)) lanes.old.items ≡ Some at }
    ensures ok { OnOk result (lanes.new.items
        ≡ with_first (is_lane (name_of x.old)) (with_items (map (turn tag) x.old.items)) lanes.old.items) }
    ensures err { OnErr result (lanes.new.items ≡ lanes.old.items) }
    ensures other { emptied x.new ≡ emptied x.old }
{
    x.items.turn(tag);
    lanes[at].append(&mut x.items)
}

/// Moves the items of a lane of one of several switches to the lane of its name, after those that it has, with the tags that they have
/// among several switches.
fn move_lane(lanes: &mut Vec<Intake>, given: &Typed, x: &mut Intake) -> Result<(), Memory>
    requires lane { list_any (is_lane (name_of x.old)) lanes.old.items ≡ true }
    requires other { IsIntake given.now.queries x.old }
    ensures ok { OnOk result (lanes.new.items ≡ after_lane given.now.queries lanes.old.items x.old) }
    ensures err { OnErr result (lanes.new.items ≡ lanes.old.items) }
    ensures other { emptied x.new ≡ emptied x.old }
{
    let Some(at) = place_of(lanes, x) else {
        unreachable!();
    };
    let tag = lane_tag(given, x);
    move_to(lanes, at, x, tag)
}

/// Moves the items of these lanes so, one lane after another.
fn move_all(lanes: &mut Vec<Intake>, given: &Typed, others: &mut [Intake]) -> Result<(), Memory>
    requires lanes { list_all (has_name lanes.old.items) others.old ≡ true }
    requires others { AreIntakes given.now.queries others.old }
    ensures ok { OnOk result (lanes.new.items ≡ fold (after_lane given.now.queries) lanes.old.items others.old) }
    ensures err { OnErr result (map emptied lanes.new.items ≡ map emptied lanes.old.items) }
    ensures others { map emptied others.new ≡ map emptied others.old }
{
    if let Some((first, rest)) = others.split_first_mut() {
        move_lane(lanes, given, first)?;
        move_all(lanes, given, rest)?;
    }
    Ok(())
}

/// Moves the items of these lanes so. Where the lanes had `count` items, and the others `more`, their number is then that of the answer.
pub(crate) fn move_counted(
    lanes: &mut Vec<Intake>,
    count: u64,
    given: &Typed,
    others: &mut [Intake],
    more: u64,
) -> Result<u64, Memory>
    requires lanes { list_all (has_name lanes.old.items) others.old ≡ true }
    requires others { AreIntakes given.now.queries others.old }
    ensures count { IfOk result (λ all. all ≡ count + more) }
    ensures ok { OnOk result (lanes.new.items ≡ fold (after_lane given.now.queries) lanes.old.items others.old) }
    ensures err { OnErr result (map emptied lanes.new.items ≡ map emptied lanes.old.items) }
    ensures others { map emptied others.new ≡ map emptied others.old }
{
    let Some(all) = count.checked_add(more) else {
        return Err(Memory);
    };
    move_all(lanes, given, others)?;
    Ok(all)
}
