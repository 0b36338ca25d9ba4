//! Packets that come through the filters and maps before the first distinct or reduce, of which each stands for others that are the same.
ghost use Rattle.std.specs.Prelude.{◌≡◌, ℕ, List, ◌≤◌, ◌<◌, ◌+◌, ◌++◌, [], length, map, nat_eq, replicate, true, IfOk, OnOk};
ghost use Rattle.std.specs.List.{AllByRecursion};
ghost use Rattle.sn_base.specs.Columns.{IsOf};
ghost use Rattle.sn_base.specs.Groups.{Row};
ghost use Rattle.sn_cost_counts.specs.BranchAt.{asked_branch, packets_of, query_of};
ghost use Rattle.sn_cost_counts.specs.Coming.{ComeWeighed};
ghost use Rattle.sn_cost_counts.specs.Fitting.{Takes};
ghost use Rattle.sn_cost_counts.specs.Standing.{StandFor, stood_for};
ghost use Rattle.sn_cost_seats.specs.Ways.{AreStateless};
ghost use Rattle.sn_types.specs.Kinds.{AreBelow};
ghost use Rattle.sn_types.specs.Typed.{first_columns};
ghost use Rattle.sn_types.specs.Values.{op_at};
ghost use Rattle.sn_types.specs.declared.typed_op.TOp.{TOp};
ghost use Rattle.sn_windows.specs.Blocks.{most_records};

use crate::branch_at::BranchAt;
use crate::coming::Reached;
use sn_base::any_row::AnyRow;
use sn_base::memory::Memory;
use sn_base::row_seq::RowSeq;
use sn_cost_tally::firsts::Firsts;
use sn_ops::packets::is_kept;
use sn_types::packet::PacketRow;
use sn_types::typed_op::TOp;
use std::alloc::Global;

/// What comes of packets through filters and maps, where one packet stands for several.
#[derive(Drop)]
pub(crate) struct Weighed<R: AnyRow> {
    /// How far they come.
    pub reached: Reached,
    /// What those are after all operators that pass all.
    pub rows: RowSeq<R>,
    /// For how many each of these stands.
    pub weights: Vec<u64>,
}

impl<R: AnyRow> Weighed<R> {
    /// Of no packet.
    fn new(alloc: Global) -> Weighed<R>
        ensures { (level : ℕ) (ops : List TOp) → AreStateless (map (op_at level) ops) →
            ComeWeighed level ops [] result.reached.seen result.reached.passed result.rows result.weights.items }
    {
        Weighed {
            reached: Reached::new(),
            rows: RowSeq::new(alloc),
            weights: Vec::new(alloc),
        }
    }

    /// Takes in `times` packets more, all the same as this one. `row` lends its place.
    fn add(
        &mut self,
        ops: &[TOp],
        level: u32,
        packet: &PacketRow<'_, R::Number>,
        times: u64,
        row: &mut R,
    ) -> Result<(), Memory>
        requires short { length ops.now ≤ 12 }
        requires stateless { AreStateless (map (op_at level) ops.now) }
        requires takes { Takes level ops.now packet.now }
        requires some { 1 ≤ times }
        requires few { (rows : List Row) × (length rows + times ≤ most_records) × ComeWeighed level ops.now rows self.old.reached.seen self.old.reached.passed self.old.rows self.old.weights.items }
        ensures { (rows : List Row) → ComeWeighed level ops.now rows self.old.reached.seen self.old.reached.passed self.old.rows self.old.weights.items →
            OnOk result (ComeWeighed level ops.now (rows ++ replicate times packet.now) self.new.reached.seen self.new.reached.passed self.new.rows self.new.weights.items) }
    {
        if !self.reached.count(ops, level, packet, times, row) {
            return Ok(());
        }
        self.weights.push(times)?;
        self.rows.push(row)
    }
}

/// What comes of the packet rows of the tuples that are kept through filters and maps at the front of a branch. Those that are the same are
/// taken together, as `firsts` says.
pub(crate) fn come_weighed<R: AnyRow>(
    alloc: Global,
    at: &BranchAt<'_>,
    firsts: &Firsts,
    ops: &[TOp],
) -> Result<Weighed<R>, Memory>
    requires below { AreBelow R.Number.limit (asked_branch at.now).fields }
    requires firsts { StandFor (query_of at.now) at.now.b at.now.tuples.now firsts.now }
    requires short { length ops.now ≤ 12 }
    requires stateless { AreStateless (map (op_at at.now.level) ops.now) }
    requires takes { (row : Row) → IsOf (first_columns (asked_branch at.now)) row → Takes at.now.level ops.now row }
    ensures come { IfOk result (λ found. ComeWeighed at.now.level ops.now (packets_of at.now (stood_for at.now.tuples.now firsts.now))
        found.reached.seen found.reached.passed found.rows found.weights.items) }
    ensures columns { OnOk result (AllByRecursion (IsOf (first_columns (asked_branch at.now))) (packets_of at.now (stood_for at.now.tuples.now firsts.now))) }
{
    let tuples = at.tuples;
    let packets = at.t.packets(at.q, at.b, at.level);
    let mut found = Weighed::new(alloc);
    let mut row = R::empty();
    for number in 0..firsts.places.len() {
        let tuple = &tuples[firsts.places[number] as usize];
        if is_kept(at.t, at.q, at.kept, tuple) {
            let packet = packets.row(tuple);
            found.add(ops, at.level, &packet, firsts.times[number], &mut row)?;
        }
    }
    Ok(found)
}
