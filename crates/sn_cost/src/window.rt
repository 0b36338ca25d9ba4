//! A window at all fronts of a query.
ghost use Rattle.std.specs.Prelude.{◌≡◌, ℕ, ◌<◌, ◌≤◌, ◌+◌, ◌^◌, length, Some, IfOk, OnOk};
ghost use Rattle.sn_plan_choices.specs.Costs.{HasPlaces};
ghost use Rattle.sn_cost.specs.Training.{AddsFronts, HasFrontRoom, HaveAtMost, IsNext, Knows};
ghost use Rattle.sn_cost_counts.specs.Standing.{ArePacked};
ghost use Rattle.sn_refine.specs.Refined.{Windows};
ghost use Rattle.sn_switch.specs.Texts.{IsSwitch};
ghost use Rattle.sn_types.specs.Typed.{query_at};
ghost use Rattle.sn_windows.specs.Rising.{IsAbove};
ghost use Rattle.sn_windows.specs.Blocks.{most_records};

use crate::front::add_front;
use crate::fronts::Fronts;
use sn_base::members::Members;
use sn_base::memory::Memory;
use sn_base::seq::Seq;
use sn_cost_counts::packed::pack;
use sn_cost_tally::firsts::Firsts;
use sn_cost_tally::room::Room;
use sn_fields::tuple::Tuple;
use sn_plan_choices::costs::CostTable;
use sn_switch::switch::Switch;
use sn_types::typed::Typed;

/// The first of the tuples of a window that are alike, for each branch of a query for which it pays to take them together. They are the same
/// at all fronts.
fn pack_all(room: &Room, t: &Typed, q: u32, tuples: &[Tuple]) -> Result<Vec<Option<Firsts>>, Memory>
    requires query { q < length t.now.queries }
    requires few { length tuples.now ≤ most_records }
    ensures { IfOk result (λ packed. ArePacked (query_at t.now.queries q) tuples.now packed.items) }
{
    let mut all = Vec::new(room.alloc);
    for b in 0..t.branches(q) {
        let packed = pack(room, t, q, b, tuples)?;
        all.push(packed)?;
    }
    Ok(all)
}

/// Adds the counts of a window at all fronts of a query. What the fronts answered in the window before is replaced once all of them are done.
pub(crate) fn add_window(
    room: &mut Room,
    t: &Typed,
    s: &Switch,
    q: u32,
    fronts: &mut Fronts,
    w: u64,
    tuples: &[Tuple],
    table: &mut CostTable,
) -> Result<(), Memory>
    requires switch { IsSwitch s.now }
    requires query { q < length t.now.queries }
    requires above { IsAbove fronts.old.last w }
    requires few { length tuples.now ≤ most_records }
    requires places { HasPlaces table.old (q + 1) }
    requires room { (front : ℕ) → front < 16 → HasFrontRoom table.old q front s.now.weight fronts.old.sets }
    ensures adds { let query = query_at t.now.queries q in OnOk result
        (AddsFronts s.now q query (2 ^ length query.levels) fronts.old.last fronts.old.sets w tuples.now table.old table.new) }
    ensures last { OnOk result (fronts.new.last ≡ Some w) }
    ensures few { OnOk result (HaveAtMost (length tuples.now) fronts.new.sets) }
    ensures knows { let query = query_at t.now.queries q in OnOk result ((windows : Windows) →
        IsNext query windows fronts.old.last fronts.old.sets w tuples.now → Knows query windows fronts.new.last fronts.new.sets) }
{
    let packed = pack_all(room, t, q, tuples)?;
    let mut sets = Seq::new(t.alloc);
    sets.push(Members::new(t.alloc))?;
    for front in 1..1u32 << t.levels(q).len() {
        let answered = add_front(
            room,
            t,
            s,
            q,
            front,
            fronts,
            w,
            tuples,
            packed.as_slice(),
            table,
        )?;
        sets.push(answered)?;
    }
    fronts.sets = sets;
    fronts.last = Some(w);
    Ok(())
}
