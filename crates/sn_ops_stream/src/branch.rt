//! A branch to which tuples come one after another.
ghost use Rattle.std.specs.Prelude.{◌≡◌, ◌<◌, [], ◌∷◌, length, map, nat_eq, true, IfOk, OnOk};
ghost use Rattle.std.specs.List.{list_any};
ghost use Rattle.sn_types.specs.Kinds.{AreBelow};
ghost use Rattle.sn_types.specs.Typed.{branch_at, branch_of, query_at};
ghost use Rattle.sn_lanes_narrow.specs.Asked.{AreOf};
ghost use Rattle.sn_lanes_narrow.specs.Marks.{mark};
ghost use Rattle.sn_ops_stream.specs.Fronts.{AreFilters};
ghost use Rattle.sn_ops_stream.specs.Streams.{GivesRows, HasTaken, HasTakenMore, IsSameBranch, IsTaking, admits_tuple};

use crate::after::start_after;
use crate::front::front_into;
use sn_base::any_row::AnyRow;
use sn_base::memory::Memory;
use sn_base::row_seq::RowSeq;
use sn_base::seed::Seed;
use sn_fields::tuple::Tuple;
use sn_lanes_narrow::asked::Asked;
use sn_lanes_narrow::condition::Condition;
use sn_ops::finish::finish;
use sn_ops::seen::{Seen, expect_all, unseen};
use sn_types::packet::{PacketRow, Packets};
use sn_types::typed::Typed;
use sn_types::typed_op::TOp;
use std::alloc::Global;
use std::marker::Model;

/// A branch at a level, to which tuples come one after another, over rows of a kind. What is the same for all of them is asked
/// when it begins.
#[derive(Drop)]
pub struct BranchStream<'a, R: AnyRow> {
    packets: Packets<'a>,
    ops: &'a [TOp],
    seed: Seed,
    seen: Vec<Seen<R>>,
    /// A packet's row on its way through the operators.
    row: R,
    /// The conditions of the filters at the front of the operators, as they were last asked.
    conditions: Vec<Condition>,
    /// What came out after the operators, where none of them is a reduce.
    out: RowSeq<R>,
}

impl<'a, R: AnyRow> Model for BranchStream<'a, R> {
    ghost use Rattle.sn_types.specs.Kinds.{AreBelow};
    ghost use Rattle.sn_ops_stream.specs.States.{BranchState};

    ghost Value = { BranchState };

    ghost view = { λ a. record { refined = a.packets.refined; level = a.packets.level; fields = a.packets.fields.now; ops = a.ops.now; seen = a.seen.items; out = a.out } };

    ghost invariant = { λ a. AreBelow R.Number.limit a.packets.fields.now };
}

impl<'a, R: AnyRow> BranchStream<'a, R> {
    /// A branch at a level, to which no tuple has come.
    pub fn begin(
        alloc: Global,
        t: &'a Typed,
        q: u32,
        b: u32,
        level: u32,
    ) -> Result<BranchStream<'a, R>, Memory>
        requires query { q < length t.now.queries }
        requires branch { b < length (query_at t.now.queries q).branches }
        requires level { list_any (nat_eq level) (query_at t.now.queries q).levels ≡ true }
        requires below { AreBelow R.Number.limit (branch_at t.now.queries q b).fields }
        ensures { IfOk result (HasTaken t.now.queries q b level []) }
    {
        let ops = t.operators(q, b);
        let seen = unseen(alloc, t.seed, ops)?;
        Ok(BranchStream {
            packets: t.packets(q, b, level),
            ops,
            seed: t.seed,
            seen,
            row: R::empty(),
            conditions: Vec::new(alloc),
            out: RowSeq::new(alloc),
        })
    }

    /// Tells its operators to expect as many rows and groups as those of `before` have seen, which is the same branch in the
    /// window before. Room is made for them once, with the first that comes. No answer depends on it.
    pub(crate) fn expect(&mut self, before: &BranchStream<'_, R>)
        ensures { self.new ≡ self.old }
    {
        expect_all(&mut self.seen, &before.seen);
    }

    /// Takes the next tuple, of which a mark says whether the first `front` operators, all of them filters, let it through.
    #[inline(always)]
    fn give(&mut self, front: usize, marked: u8, tuple: &Tuple) -> Result<(), Memory>
        requires taking { IsTaking self.old }
        requires filters { AreFilters front self.old.ops }
        requires marked { marked ≡ mark (admits_tuple self.old front tuple.now) }
        ensures taken { OnOk result (HasTakenMore (tuple.now ∷ []) self.old self.new) }
        ensures same { OnOk result (IsSameBranch self.old self.new) }
    {
        if marked == 0 {
            // No code is made of it: it tells that the row, which isn't looked at, would be one of the branch.
            let _packet: PacketRow<'_, R::Number> = self.packets.row(tuple);
            return Ok(());
        }
        let packet = self.packets.row(tuple);
        start_after(
            front,
            self.ops,
            &mut self.seen,
            self.packets.level,
            &packet,
            &mut self.row,
            &mut self.out,
        )
    }

    /// Takes the next tuples, of which marks say which ones the first `front` operators let through.
    fn take_marked(&mut self, front: usize, tuples: &[Tuple], marks: &[u8]) -> Result<(), Memory>
        requires taking { IsTaking self.old }
        requires filters { AreFilters front self.old.ops }
        requires marks { marks.now ≡ map (λ tuple. mark (admits_tuple self.old front tuple)) tuples.now }
        ensures { OnOk result (HasTakenMore tuples.now self.old self.new) }
    {
        for (place, marked) in marks.iter().enumerate() {
            self.give(front, *marked, &tuples[place])?;
        }
        Ok(())
    }

    /// Takes the next tuples, of which `asked` may be asked. The filters at its front are asked for all of them at once, and only
    /// tuples that pass are gone into.
    pub fn take(&mut self, tuples: &[Tuple], asked: &mut Asked) -> Result<(), Memory>
        requires taking { IsTaking self.old }
        requires asked { AreOf tuples.now asked.old }
        ensures taken { OnOk result (HasTakenMore tuples.now self.old self.new) }
        ensures asked { OnOk result (AreOf tuples.now asked.new) }
    {
        let front = front_into(&self.packets, self.ops, &mut self.conditions)?;
        asked.ask_all(self.conditions.as_slice(), tuples)?;
        self.take_marked(front, tuples, asked.passed.as_slice())
    }

    /// The rows of the branch on the tuples that came.
    pub fn finish(self, alloc: Global) -> Result<RowSeq<R>, Memory>
        requires { IsTaking self }
        ensures { IfOk result (GivesRows self.entry) }
    {
        let out = self.out;
        let level = self.packets.level;
        finish(alloc, self.seed, self.ops, &self.seen, level, out)
    }
}
