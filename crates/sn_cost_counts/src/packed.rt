//! The tuples of a window, of which a branch sees many alike.
ghost use Rattle.std.specs.Prelude.{◌≡◌, List, ◌≤◌, ◌<◌, None, length, map, nat_le, true, ◌==◌, ◌&&◌, IfOk, IfSome};
ghost use Rattle.std.specs.List.{list_any};
ghost use Rattle.sn_base.specs.Groups.{Row as Columns};
ghost use Rattle.sn_cost_counts.specs.Alike.{reads_refined};
ghost use Rattle.sn_cost_counts.specs.Standing.{IsPacked, has_registers};
ghost use Rattle.sn_cost_tally.specs.Firsts.{AreFirsts};
ghost use Rattle.sn_fields.specs.Fields.{number_of};
ghost use Rattle.sn_types.specs.Kinds.{AreBelow};
ghost use Rattle.sn_types.specs.Typed.{branch_at, packet_row, query_at};
ghost use Rattle.sn_windows.specs.Blocks.{most_records};

use sn_base::any_row::AnyRow;
use sn_base::memory::Memory;
use sn_base::row::Row;
use sn_base::seed::Seed;
use sn_base::short_row::ShortRow;
use sn_cost_tally::firsts::Firsts;
use sn_cost_tally::room::Room;
use sn_fields::field::Field;
use sn_fields::tuple::Tuple;
use sn_table::numbers::Numbers;
use sn_types::cuts::stateful;
use sn_types::packet::Packets;
use sn_types::typed::Typed;
use std::alloc::Global;

/// In a window with fewer tuples it doesn't pay.
const FEWEST: usize = 32;

/// After this many tuples it's asked whether it will pay.
const TRIED: usize = 512;

/// It won't where more of these are distinct.
const MOST_OF_TRIED: usize = 448;

/// Whether a field is among these.
fn reads(field: Field, fields: &[Field]) -> bool
    ensures { result ≡ list_any (λ f. number_of f == number_of field) fields.now }
{
    fields.iter().any(|other| other.number() == field.number())
}

/// Whether the refinement field, where there is one, is among these.
fn reads_refined(refined: Option<Field>, fields: &[Field]) -> bool
    ensures { result ≡ reads_refined refined fields.now }
{
    match refined {
        Some(field) => reads(field, fields),
        None => true,
    }
}

/// Whether an operator of the longest prefix of a branch has registers: without one the order of rows matters.
fn has_registers(t: &Typed, q: u32, b: u32) -> bool
    requires query { q < length t.now.queries }
    requires branch { b < length (query_at t.now.queries q).branches }
    ensures { result ≡ has_registers (branch_at t.now.queries q b) }
{
    let (ops, _) = t.operators(q, b).split_at(t.max_cut(q, b) as usize);
    stateful(ops) > 0
}

/// Whether it may pay to take tuples that are alike for a branch together: where there are many, and where the branch has registers and
/// reads the refinement field.
fn may_pay(t: &Typed, q: u32, b: u32, tuples: &[Tuple]) -> bool
    requires query { q < length t.now.queries }
    requires branch { b < length (query_at t.now.queries q).branches }
    ensures { let branch = branch_at t.now.queries q b in
        result ≡ (nat_le 32 (length tuples.now) && (reads_refined (query_at t.now.queries q).field branch.fields && has_registers branch)) }
{
    tuples.len() >= FEWEST
        && reads_refined(t.refine_field(q), t.packet_fields(q, b))
        && has_registers(t, q, b)
}

/// The first of the tuples that are the same in these fields, and how many there are. None where most of the tuples that come first are
/// distinct.
fn firsts_over<R: AnyRow>(
    alloc: Global,
    seed: Seed,
    fields: &[Field],
    tuples: &[Tuple],
) -> Result<Option<Firsts>, Memory>
    requires few_fields { length fields.now ≤ 8 }
    requires below { AreBelow R.Number.limit fields.now }
    requires few { length tuples.now ≤ most_records }
    ensures { IfOk result (λ found. IfSome found (λ firsts. (keys : List Columns) × AreFirsts (map (packet_row None 0 fields.now) tuples.now) keys firsts)) }
{
    let packets = Packets {
        refined: None,
        level: 0,
        masking: 0,
        fields,
    };
    let mut numbers = Numbers::new(alloc, seed);
    let mut firsts = Firsts::new(alloc);
    let mut row = R::empty();
    for place in 0..tuples.len() {
        if place == TRIED && firsts.places.len() > MOST_OF_TRIED {
            return Ok(None);
        }
        packets.row(&tuples[place]).put_into(&mut row);
        firsts.add(&mut numbers, &row, place as u32)?;
    }
    Ok(Some(firsts))
}

/// The first of the tuples that are alike for a branch, where the kind of its rows is asked once.
fn firsts_of(
    room: &Room,
    t: &Typed,
    q: u32,
    b: u32,
    tuples: &[Tuple],
) -> Result<Option<Firsts>, Memory>
    requires query { q < length t.now.queries }
    requires branch { b < length (query_at t.now.queries q).branches }
    requires few { length tuples.now ≤ most_records }
    ensures { let fields = (branch_at t.now.queries q b).fields in
        IfOk result (λ found. IfSome found (λ firsts. (keys : List Columns) × AreFirsts (map (packet_row None 0 fields) tuples.now) keys firsts)) }
{
    let fields = t.packet_fields(q, b);
    if t.is_wide(q, b) {
        firsts_over::<Row>(room.alloc, room.seed, fields, tuples)
    } else {
        firsts_over::<ShortRow>(room.alloc, room.seed, fields, tuples)
    }
}

/// The first of the tuples of a window that are alike for a branch, which are the same in all fields that it reads, and how many there are.
/// For its counts these are taken together. None where that doesn't pay: where few are alike, or where the branch has no registers or
/// doesn't read the refinement field. No answer depends on whether it pays.
///
/// # Errors
/// Out of memory.
pub fn pack(
    room: &Room,
    t: &Typed,
    q: u32,
    b: u32,
    tuples: &[Tuple],
) -> Result<Option<Firsts>, Memory>
    requires query { q < length t.now.queries }
    requires branch { b < length (query_at t.now.queries q).branches }
    requires few { length tuples.now ≤ most_records }
    ensures { IfOk result (λ packed. IsPacked (query_at t.now.queries q) b tuples.now packed) }
{
    if may_pay(t, q, b, tuples) {
        if let Some(firsts) = firsts_of(room, t, q, b, tuples)? {
            if firsts.places.len() <= tuples.len() / 4 * 3 {
                return Ok(Some(firsts));
            }
        }
    }
    Ok(None)
}
