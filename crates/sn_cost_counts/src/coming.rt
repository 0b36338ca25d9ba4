//! Packets that come through the filters and maps before the first distinct or reduce.
ghost use Rattle.std.specs.Prelude.{◌≡◌, ℕ, List, ◌≤◌, ◌<◌, ◌*◌, ◌+◌, ◌++◌, ◌∷◌, [], Some, length, map, nat_eq, replicate, true, IfOk, OnOk, if◌then◌else◌};
ghost use Rattle.std.specs.List.{AllByRecursion};
ghost use Rattle.sn_base.specs.Columns.{IsOf};
ghost use Rattle.sn_base.specs.Groups.{Row};
ghost use Rattle.sn_cost_counts.specs.BranchAt.{asked_branch, packets_of};
ghost use Rattle.sn_cost_counts.specs.Coming.{HaveCome, ahead, coming_to};
ghost use Rattle.sn_cost_counts.specs.Fitting.{Takes};
ghost use Rattle.sn_cost_seats.specs.Ways.{AreStateless, come, reach};
ghost use Rattle.sn_types.specs.Kinds.{AreBelow};
ghost use Rattle.sn_types.specs.Typed.{first_columns};
ghost use Rattle.sn_types.specs.Values.{op_at};
ghost use Rattle.sn_types.specs.declared.typed_op.TOp.{TOp};
ghost use Rattle.sn_windows.specs.Blocks.{most_records};

use crate::branch_at::BranchAt;
use sn_base::any_row::AnyRow;
use sn_base::memory::Memory;
use sn_base::row_seq::RowSeq;
use sn_base::seq::Seq;
use sn_ops::packets::is_kept;
use sn_types::cuts::is_stateful;
use sn_types::evaluate::{map_into, passes};
use sn_types::packet::PacketRow;
use sn_types::typed_op::TOp;
use std::alloc::Global;

/// How many operators stand before the first distinct or reduce.
pub(crate) fn ahead(ops: &[TOp]) -> usize
    ensures value { result ≡ ahead ops.now }
    ensures most { result ≤ length ops.now }
{
    let mut count = 0;
    let mut rest = ops;
    while let Some((op, after)) = rest.split_first() {
        if is_stateful(op) {
            return count;
        }
        count += 1;
        rest = after;
    }
    count
}

/// How many of these filters and maps a row passes. Where it passes all, `row` is then the row after them.
fn go<R: AnyRow>(ops: &[TOp], level: u32, row: &mut R) -> u32
    requires few { length ops.now ≤ 12 }
    requires stateless { AreStateless (map (op_at level) ops.now) }
    requires takes { Takes level ops.now (R.columns row.old) }
    ensures reach { result ≡ reach (map (op_at level) ops.now) (R.columns row.old) }
    ensures most { result ≤ length ops.now }
    ensures come { result ≡ length ops.now → come (map (op_at level) ops.now) (R.columns row.old) ≡ Some (R.columns row.new) }
{
    let Some((op, after)) = ops.split_first() else {
        return 0;
    };
    match op {
        TOp::Filter(conds) => {
            if passes(conds.as_slice(), level, row) {
                1 + go(after, level, row)
            } else {
                0
            }
        }
        TOp::Map(exprs) => {
            let before = *row;
            map_into(&before, exprs.as_slice(), row);
            1 + go(after, level, row)
        }
        TOp::Distinct | TOp::Reduce(_) => unreachable!(),
    }
}

/// How many of these filters and maps a packet passes. Where it passes all, `row` is then the row after them. No row is made of it for
/// the filters at their front, nor for a map after these.
pub(crate) fn start<R: AnyRow>(
    ops: &[TOp],
    level: u32,
    packet: &PacketRow<'_, R::Number>,
    row: &mut R,
) -> u32
    requires few { length ops.now ≤ 12 }
    requires stateless { AreStateless (map (op_at level) ops.now) }
    requires takes { Takes level ops.now packet.now }
    ensures reach { result ≡ reach (map (op_at level) ops.now) packet.now }
    ensures most { result ≤ length ops.now }
    ensures come { result ≡ length ops.now → come (map (op_at level) ops.now) packet.now ≡ Some (R.columns row.new) }
{
    let Some((op, after)) = ops.split_first() else {
        packet.put_into(row);
        return 0;
    };
    match op {
        TOp::Filter(conds) => {
            if passes(conds.as_slice(), level, packet) {
                1 + start(after, level, packet, row)
            } else {
                0
            }
        }
        TOp::Map(exprs) => {
            map_into(packet, exprs.as_slice(), row);
            1 + go(after, level, row)
        }
        TOp::Distinct | TOp::Reduce(_) => unreachable!(),
    }
}

/// One more than the operators of a branch can be: a row passes fewer than so many.
const PLACES: usize = 13;

/// How far packets come through filters and maps.
#[derive(Drop)]
pub(crate) struct Reached {
    /// How many packets there are.
    seen: u64,
    /// How many of them pass so many of the operators and no more, by how many.
    passed: [u64; PLACES],
}

impl Reached {
    /// Of no packet.
    pub(crate) fn new() -> Reached
        ensures { (level : ℕ) (ops : List TOp) → AreStateless (map (op_at level) ops) → HaveCome level ops [] result.seen result.passed [] }
    {
        Reached {
            seen: 0,
            passed: [0; PLACES],
        }
    }

    /// Takes in `times` packets more, all the same as this one. Whether they pass all operators: then `row` is the row after them.
    pub(crate) fn count<R: AnyRow>(
        &mut self,
        ops: &[TOp],
        level: u32,
        packet: &PacketRow<'_, R::Number>,
        times: u64,
        row: &mut R,
    ) -> bool
        requires short { length ops.now ≤ 12 }
        requires stateless { AreStateless (map (op_at level) ops.now) }
        requires takes { Takes level ops.now packet.now }
        requires few { (rows out : List Row) × (length rows + times ≤ most_records) × HaveCome level ops.now rows self.old.seen self.old.passed out }
        ensures { (rows out : List Row) → HaveCome level ops.now rows self.old.seen self.old.passed out →
            HaveCome level ops.now (rows ++ replicate times packet.now) self.new.seen self.new.passed (out ++ (if result then replicate times (R.columns row.new) else [])) }
    {
        let passed = start(ops, level, packet, row);
        self.seen += times;
        self.passed[passed as usize] += times;
        passed as usize == ops.len()
    }

    /// Adds how many of the packets come to each of the operators. How many pass all.
    pub(crate) fn add_counts(&self, ops: &[TOp], counts: &mut Seq<u64>) -> Result<u64, Memory>
        requires short { length ops.now ≤ 12 }
        requires come { (level : ℕ) × (rows out : List Row) × HaveCome level ops.now rows self.now.seen self.now.passed out }
        ensures counts { (level : ℕ) (rows out : List Row) → HaveCome level ops.now rows self.now.seen self.now.passed out →
            OnOk result (counts.new ≡ counts.old ++ coming_to level ops.now rows) }
        ensures left { (level : ℕ) (rows out : List Row) → HaveCome level ops.now rows self.now.seen self.now.passed out →
            IfOk result (λ left. left ≡ length out) }
    {
        let mut left = self.seen;
        for place in 0..ops.len() {
            counts.push(left)?;
            left -= self.passed[place];
        }
        Ok(left)
    }
}

/// What comes of packets through filters and maps.
#[derive(Drop)]
pub(crate) struct Arrivals<R: AnyRow> {
    /// How far they come.
    pub reached: Reached,
    /// What those are after all operators that pass all.
    pub rows: RowSeq<R>,
}

impl<R: AnyRow> Arrivals<R> {
    /// Of no packet.
    fn new(alloc: Global) -> Arrivals<R>
        ensures { (level : ℕ) (ops : List TOp) → AreStateless (map (op_at level) ops) → HaveCome level ops [] result.reached.seen result.reached.passed result.rows }
    {
        Arrivals {
            reached: Reached::new(),
            rows: RowSeq::new(alloc),
        }
    }

    /// One packet more. `row` lends its place.
    fn add(
        &mut self,
        ops: &[TOp],
        level: u32,
        packet: &PacketRow<'_, R::Number>,
        row: &mut R,
    ) -> Result<(), Memory>
        requires short { length ops.now ≤ 12 }
        requires stateless { AreStateless (map (op_at level) ops.now) }
        requires takes { Takes level ops.now packet.now }
        requires few { (rows : List Row) × (length rows < most_records) × HaveCome level ops.now rows self.old.reached.seen self.old.reached.passed self.old.rows }
        ensures { (rows : List Row) → HaveCome level ops.now rows self.old.reached.seen self.old.reached.passed self.old.rows →
            OnOk result (HaveCome level ops.now (rows ++ packet.now ∷ []) self.new.reached.seen self.new.reached.passed self.new.rows) }
    {
        if !self.reached.count(ops, level, packet, 1, row) {
            return Ok(());
        }
        self.rows.push(row)
    }
}

/// What comes of the packet rows of the tuples that are kept through filters and maps at the front of a branch.
pub(crate) fn come_through<R: AnyRow>(
    alloc: Global,
    at: &BranchAt<'_>,
    ops: &[TOp],
) -> Result<Arrivals<R>, Memory>
    requires below { AreBelow R.Number.limit (asked_branch at.now).fields }
    requires short { length ops.now ≤ 12 }
    requires stateless { AreStateless (map (op_at at.now.level) ops.now) }
    requires takes { (row : Row) → IsOf (first_columns (asked_branch at.now)) row → Takes at.now.level ops.now row }
    ensures come { IfOk result (λ found. HaveCome at.now.level ops.now (packets_of at.now at.now.tuples.now) found.reached.seen found.reached.passed found.rows) }
    ensures columns { OnOk result (AllByRecursion (IsOf (first_columns (asked_branch at.now))) (packets_of at.now at.now.tuples.now)) }
{
    let packets = at.t.packets(at.q, at.b, at.level);
    let mut found = Arrivals::new(alloc);
    let mut row = R::empty();
    for tuple in at.tuples {
        if is_kept(at.t, at.q, at.kept, tuple) {
            let packet = packets.row(tuple);
            found.add(ops, at.level, &packet, &mut row)?;
        }
    }
    Ok(found)
}
