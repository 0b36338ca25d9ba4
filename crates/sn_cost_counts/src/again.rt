//! A reduce of rows that are held once for all lists of sizes: each row's key is looked up once for all of them.
ghost use Rattle.std.specs.Prelude.{◌≡◌, ◌*◌, ◌≤◌, ◌<◌, ◌++◌, All, nat_lt, length, map, true, IfOk, OnOk};
ghost use Rattle.std.specs.List.{flat_map};
ghost use Rattle.sn_base.specs.Groups.{Apart, columns_at, once, same_row};
ghost use Rattle.sn_base.specs.Operators.{apply};
ghost use Rattle.sn_chain.specs.Limits.{largest_register};
ghost use Rattle.sn_cost_counts.specs.Flows.{starting, stepped};
ghost use Rattle.sn_cost_counts.specs.Shared.{flows_in, following, over_and_marks, staying};
ghost use Rattle.sn_cost_seats.specs.Tallies.{marked, tallied};
ghost use Rattle.sn_cost_tally.specs.Renumbered.{AreNumbered};
ghost use Rattle.sn_ops.specs.Flow.{ReduceFits};
ghost use Rattle.sn_types.specs.Values.{op_at};
ghost use Rattle.sn_types.specs.declared.typed_op.TOp.{TOp};
ghost use Rattle.sn_windows.specs.Blocks.{most_records};

use crate::flow::{Flow, FlowOf};
use crate::shared::{Shared, SharedOf, homes_of, staying};
use sn_base::any_row::AnyRow;
use sn_base::memory::Memory;
use sn_base::row_seq::RowSeq;
use sn_cost_tally::groups::Groups;
use sn_cost_tally::numbered::{Numbered, number_keys};
use sn_cost_tally::regroup::group_marked;
use sn_cost_tally::room::{Homes, Room};
use sn_types::typed_op::TReduce;
use std::alloc::Global;

/// The groups of the marked rows.
fn groups_marked<R: AnyRow>(
    room: &Room,
    r: &TReduce,
    all: &Numbered<R>,
    rows: &RowSeq<R>,
    marks: &[bool],
) -> Result<Groups<R>, Memory>
    requires fits { ReduceFits r.now rows.now }
    requires numbered { AreNumbered all.now.keys (map (columns_at r.now.keys) rows.now) all.now.of_rows.items }
    requires apart { Apart same_row all.now.keys }
    requires few { length (marked marks.now rows.now) ≤ most_records }
    ensures keys { IfOk result (λ groups. groups.tally.keys ≡ once same_row (map (columns_at r.now.keys) (marked marks.now rows.now))) }
    ensures times { IfOk result (λ groups. groups.tally.times.items ≡ tallied (map (columns_at r.now.keys) (marked marks.now rows.now))) }
    ensures rows { IfOk result (λ groups. groups.rows ≡ apply (op_at 0 (TOp.Reduce r.now)) (marked marks.now rows.now)) }
{
    group_marked(room.alloc, all, rows, marks, r.value, r.fold)
}

/// The marked rows after a reduce: each key with the fold of its values, and for each size which of them have a home.
fn reduce_marked<R: AnyRow>(
    room: &mut Room,
    r: &TReduce,
    depth: u32,
    slots: &[u32],
    all: &Numbered<R>,
    rows: &RowSeq<R>,
    marks: &[bool],
) -> Result<SharedOf<R>, Memory>
    requires most_depth { depth ≤ 4 }
    requires sizes { All (λ size. (1 ≤ size) × (size ≤ largest_register)) slots.now }
    requires fits { ReduceFits r.now rows.now }
    requires numbered { AreNumbered all.now.keys (map (columns_at r.now.keys) rows.now) all.now.of_rows.items }
    requires apart { Apart same_row all.now.keys }
    requires few { length (marked marks.now rows.now) ≤ most_records }
    ensures { IfOk result (λ shared. flows_in shared ≡ map (λ size. stepped depth size (op_at 0 (TOp.Reduce r.now)) (starting (marked marks.now rows.now))) slots.now) }
{
    let groups = groups_marked(room, r, all, rows, marks)?;
    let homes = homes_of(room, depth, slots, &groups.tally)?;
    Ok(Shared {
        rows: groups.rows,
        homes,
        distinct: false,
    })
}

/// What a distinct sent before the rows with a home at one list of sizes. Their own keys have numbers, so that no row is copied.
fn sent_before<R: AnyRow>(alloc: Global, homes: &Homes) -> FlowOf<R>
    ensures sent { result.sent ≡ homes.now.over }
    ensures spilled { result.spilled ≡ nat_lt 0 homes.now.over }
{
    Flow {
        sent: homes.over,
        rows: RowSeq::new(alloc),
        spilled: homes.over > 0,
        whole: false,
    }
}

/// Rows after a reduce, where others were sent before it: no filter drops any where a distinct overflowed.
fn following<R: AnyRow>(before: &FlowOf<R>, next: FlowOf<R>) -> FlowOf<R>
    requires sent { before.now.sent ≤ 12 * most_records }
    requires over { next.sent ≤ most_records }
    ensures { result ≡ following before.now next }
{
    Flow {
        sent: before.sent + next.sent,
        rows: next.rows,
        spilled: before.spilled || next.spilled,
        whole: before.spilled,
    }
}

/// Adds the rows after a reduce for each size, in order, where others were sent before.
fn add_after<R: AnyRow>(
    alloc: Global,
    before: &FlowOf<R>,
    shared: &SharedOf<R>,
    out: &mut Vec<FlowOf<R>>,
) -> Result<(), Memory>
    requires sent { before.now.sent ≤ 12 * most_records }
    requires over { All (λ homes. homes.over ≤ most_records) shared.now.homes.items }
    ensures { OnOk result (out.new.items ≡ out.old.items ++ map (following before.now) (flows_in shared.now)) }
{
    for homes in shared.homes.as_slice() {
        let next = staying(alloc, shared.distinct, &shared.rows, homes)?;
        if let Err(_) = out.push(following(before, next)) {
            return Err(Memory);
        }
    }
    Ok(())
}

/// Adds the rows after a reduce for each size, in order, of the rows after a distinct with a home at one list of sizes.
fn add_marked_sizes<R: AnyRow>(
    room: &mut Room,
    r: &TReduce,
    depth: u32,
    slots: &[u32],
    all: &Numbered<R>,
    rows: &RowSeq<R>,
    homes: &Homes,
    out: &mut Vec<FlowOf<R>>,
) -> Result<(), Memory>
    requires most_depth { depth ≤ 4 }
    requires sizes { All (λ size. (1 ≤ size) × (size ≤ largest_register)) slots.now }
    requires fits { ReduceFits r.now rows.now }
    requires numbered { AreNumbered all.now.keys (map (columns_at r.now.keys) rows.now) all.now.of_rows.items }
    requires apart { Apart same_row all.now.keys }
    requires sent { homes.now.over ≤ 12 * most_records }
    requires few { length (marked homes.now.marks.items rows.now) ≤ most_records }
    ensures { OnOk result (out.new.items ≡ out.old.items ++ map (λ size. stepped depth size (op_at 0 (TOp.Reduce r.now)) (staying true rows.now (over_and_marks homes.now))) slots.now) }
{
    let next = reduce_marked(room, r, depth, slots, all, rows, homes.marks.as_slice())?;
    let before = sent_before(room.alloc, homes);
    add_after(room.alloc, &before, &next, out)
}

/// The rows after a reduce: of the rows after a distinct with a home at each list of sizes for each size, in order. Each row's key is looked
/// up once for all of them.
pub(crate) fn by_marks<R: AnyRow>(
    room: &mut Room,
    r: &TReduce,
    depth: u32,
    slots: &[u32],
    shared: &SharedOf<R>,
) -> Result<Vec<FlowOf<R>>, Memory>
    requires distinct { shared.now.distinct ≡ true }
    requires most_depth { depth ≤ 4 }
    requires sizes { All (λ size. (1 ≤ size) × (size ≤ largest_register)) slots.now }
    requires fits { ReduceFits r.now shared.now.rows }
    requires sent { All (λ h. h.over ≤ 12 * most_records) shared.now.homes.items }
    requires few { All (λ h. length (marked h.marks.items shared.now.rows) ≤ most_records) shared.now.homes.items }
    ensures { IfOk result (λ out. out.items ≡ flat_map (λ f. map (λ size. stepped depth size (op_at 0 (TOp.Reduce r.now)) f) slots.now) (flows_in shared.now)) }
{
    let rows = &shared.rows;
    let all = number_keys(room.alloc, room.seed, rows, r.keys.as_slice())?;
    let mut out = Vec::new(room.alloc);
    for homes in shared.homes.as_slice() {
        add_marked_sizes(room, r, depth, slots, &all, rows, homes, &mut out)?;
    }
    Ok(out)
}
