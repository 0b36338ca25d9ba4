//! Rows that are held once for all lists of sizes.
ghost use Rattle.std.specs.Prelude.{◌≡◌, ◌*◌, ◌+◌, ◌≤◌, ◌<◌, ◌++◌, suc, All, false, length, map, nat_eq, replicate, IfOk, OnOk};
ghost use Rattle.std.specs.List.{flat_map, list_all};
ghost use Rattle.sn_base.specs.Groups.{Apart, same_row};
ghost use Rattle.sn_base.specs.Operators.{apply};
ghost use Rattle.sn_chain.specs.Limits.{largest_register};
ghost use Rattle.sn_cost_counts.specs.Flows.{stepped};
ghost use Rattle.sn_cost_counts.specs.Shared.{flows_in, homes_at, over_and_marks, staying};
ghost use Rattle.sn_cost_seats.specs.Tallies.{marked, sum_unmarked};
ghost use Rattle.sn_cost_tally.specs.Places.{homes_among};
ghost use Rattle.sn_ops.specs.Flow.{CondsFit, Fits};
ghost use Rattle.sn_types.specs.Cuts.{is_stateful};
ghost use Rattle.sn_types.specs.Values.{holds, op_at};
ghost use Rattle.sn_types.specs.declared.typed_op.TOp.{TOp};
ghost use Rattle.sn_windows.specs.Blocks.{most_records};

use crate::flow::{Flow, FlowOf};
use sn_base::any_row::AnyRow;
use sn_base::memory::Memory;
use sn_base::row_seq::RowSeq;
use sn_base::seq::Seq;
use sn_cost_tally::kept::{kept, kept_marks};
use sn_cost_tally::room::{Homes, Room};
use sn_cost_tally::tally::Tally;
use sn_ops::select::map;
use sn_types::evaluate::passes;
use sn_types::typed_op::{TCond, TOp};
use std::alloc::Global;

/// The rows after a distinct or a reduce with no register, and for each list of sizes which of them have a home. Contracts see any list of
/// rows as what it holds, as in a `Flow`.
#[derive(Drop)]
pub(crate) struct Shared<L> {
    /// The rows of all keys.
    pub rows: L,
    /// For each list of sizes how many rows overflowed, and a mark for each of the rows that has a home.
    pub homes: Vec<Homes>,
    /// Whether that was a distinct.
    pub distinct: bool,
}

/// Those whose rows are of a kind.
pub(crate) type SharedOf<R> = Shared<RowSeq<R>>;

/// What registers of each size make of keys.
pub(crate) fn homes_of<R: AnyRow>(
    room: &mut Room,
    depth: u32,
    slots: &[u32],
    tally: &Tally<R>,
) -> Result<Vec<Homes>, Memory>
    requires most_depth { depth ≤ 4 }
    requires sizes { All (λ size. (1 ≤ size) × (size ≤ largest_register)) slots.now }
    requires apart { Apart same_row tally.now.keys }
    requires times { length tally.now.times.items ≡ length tally.now.keys }
    requires few { All (λ size. sum_unmarked (homes_among depth size tally.now.keys) tally.now.times.items ≤ most_records) slots.now }
    ensures { IfOk result (λ homes. map over_and_marks homes.items ≡ map (homes_at depth tally.now.keys tally.now.times.items) slots.now) }
{
    let mut all = Vec::with_capacity(room.alloc, slots.len())?;
    for size in slots {
        let homes = room.homes(depth, *size, tally)?;
        all.push(homes)?;
    }
    Ok(all)
}

/// Whether nothing overflowed.
pub(crate) fn none_over(homes: &[Homes]) -> bool
    ensures { result ≡ list_all (λ h. nat_eq h.over 0) homes.now }
{
    homes.iter().all(|h| h.over == 0)
}

/// Adds a copy of each of these.
fn add_copies(alloc: Global, homes: &[Homes], out: &mut Vec<Homes>) -> Result<(), Memory>
    ensures { OnOk result (map over_and_marks out.new.items ≡ map over_and_marks out.old.items ++ map over_and_marks homes.now) }
{
    for each in homes {
        let copy = each.copied(alloc)?;
        out.push(copy)?;
    }
    Ok(())
}

/// These once, and this many times more.
pub(crate) fn repeated(alloc: Global, homes: Vec<Homes>, more: usize) -> Result<Vec<Homes>, Memory>
    ensures { IfOk result (λ out. map over_and_marks out.items ≡ flat_map (λ h. h) (replicate (suc more) (map over_and_marks homes.items))) }
{
    if more == 0 {
        return Ok(homes);
    }
    let mut out = Vec::new(alloc);
    add_copies(alloc, homes.as_slice(), &mut out)?;
    for _ in 0..more {
        add_copies(alloc, homes.as_slice(), &mut out)?;
    }
    Ok(out)
}

/// The rows with a home at one list of sizes.
pub(crate) fn staying<R: AnyRow>(
    alloc: Global,
    distinct: bool,
    rows: &RowSeq<R>,
    homes: &Homes,
) -> Result<FlowOf<R>, Memory>
    ensures { IfOk result (λ flow. flow ≡ staying distinct rows.now (over_and_marks homes.now)) }
{
    let rows = kept(alloc, rows, homes.marks.as_slice())?;
    Ok(Flow {
        sent: homes.over,
        rows,
        spilled: distinct && homes.over > 0,
        whole: false,
    })
}

/// Adds how many items each list of sizes makes: those that overflowed, and the rows that have a home.
pub(crate) fn add_marked<R: AnyRow>(
    rows: &RowSeq<R>,
    homes: &[Homes],
    counts: &mut Seq<u64>,
) -> Result<(), Memory>
    requires sent { All (λ h. h.over ≤ 13 * most_records) homes.now }
    requires few { All (λ h. length (marked h.marks.items rows.now) ≤ most_records) homes.now }
    ensures { OnOk result (counts.new ≡ counts.old ++ map (λ h. h.over + length (marked h.marks.items rows.now)) homes.now) }
{
    for each in homes {
        let count = each.over + each.kept_of(rows);
        counts.push(count)?;
    }
    Ok(())
}

/// Of each row whether all conditions hold at it.
fn passing<R: AnyRow>(
    alloc: Global,
    conds: &[TCond],
    level: u32,
    rows: &RowSeq<R>,
) -> Result<Vec<bool>, Memory>
    requires { CondsFit conds.now rows.now }
    ensures { IfOk result (λ stay. stay.items ≡ map (λ row. list_all (λ c. holds level c row) conds.now) rows.now) }
{
    let mut stay = Vec::with_capacity(alloc, rows.len())?;
    for place in 0..rows.len() {
        let passed = passes(conds, level, rows.at(place));
        stay.push(passed)?;
    }
    Ok(stay)
}

/// The marks of the rows that stay.
fn thinned(alloc: Global, homes: &[Homes], stay: &[bool]) -> Result<Vec<Homes>, Memory>
    ensures { IfOk result (λ out. map over_and_marks out.items ≡ map (λ h. (h.over, marked stay.now h.marks.items)) homes.now) }
{
    let mut out = Vec::with_capacity(alloc, homes.len())?;
    for each in homes {
        let marks = kept_marks(alloc, each.marks.as_slice(), stay)?;
        out.push(Homes::new(each.over, marks))?;
    }
    Ok(out)
}

/// Takes shared rows through a filter: each row is tested once, and the marks of each list of sizes go where their rows go.
fn filtered<R: AnyRow>(
    alloc: Global,
    conds: &[TCond],
    level: u32,
    shared: &SharedOf<R>,
) -> Result<SharedOf<R>, Memory>
    requires { CondsFit conds.now shared.now.rows }
    ensures rows { IfOk result (λ next. next.rows ≡ apply (op_at level (TOp.Filter conds.now)) shared.now.rows) }
    ensures distinct { IfOk result (λ next. next.distinct ≡ shared.now.distinct) }
    ensures flows { IfOk result (λ next. flows_in next ≡ map (stepped 0 0 (op_at level (TOp.Filter conds.now))) (flows_in shared.now)) }
{
    let stay = passing(alloc, conds, level, &shared.rows)?;
    let homes = thinned(alloc, shared.homes.as_slice(), stay.as_slice())?;
    let rows = kept(alloc, &shared.rows, stay.as_slice())?;
    Ok(Shared {
        rows,
        homes,
        distinct: shared.distinct,
    })
}

/// Takes shared rows through a filter or a map, once for all lists of sizes.
pub(crate) fn passed<R: AnyRow>(
    alloc: Global,
    op: &TOp,
    level: u32,
    shared: SharedOf<R>,
) -> Result<SharedOf<R>, Memory>
    requires stateless { is_stateful op.now ≡ false }
    requires fits { Fits op.now shared.rows }
    ensures rows { IfOk result (λ next. next.rows ≡ apply (op_at level op.now) shared.rows) }
    ensures distinct { IfOk result (λ next. next.distinct ≡ shared.distinct) }
    ensures flows { IfOk result (λ next. flows_in next ≡ map (stepped 0 0 (op_at level op.now)) (flows_in shared)) }
{
    match op {
        TOp::Filter(conds) => filtered(alloc, conds.as_slice(), level, &shared),
        TOp::Map(cols) => {
            let rows = map(alloc, &shared.rows, cols.as_slice())?;
            Ok(Shared {
                rows,
                homes: shared.homes,
                distinct: shared.distinct,
            })
        }
        TOp::Distinct | TOp::Reduce(_) => unreachable!(),
    }
}
