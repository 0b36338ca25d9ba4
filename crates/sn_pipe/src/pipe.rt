//! One pipe of a switch.
ghost use Rattle.std.specs.Prelude.{◌≡◌, ◌<◌, ◌≤◌, All, IfOk, IfSome, drop, length, map, nat_eq, slice_get, take, true};
ghost use Rattle.std.specs.List.{list_any};
ghost use Rattle.std.specs.Option.{option_map};
ghost use Rattle.sn_report.specs.Frames.{operator_of};
ghost use Rattle.sn_report.specs.Items.{item_by};
ghost use Rattle.sn_types.specs.Cuts.{stateful};
ghost use Rattle.sn_pipe.specs.Passing.{CanBeRead};
ghost use Rattle.sn_pipe.specs.Pipes.{IsCoarser, IsNewPipe, after_tuple, bits_of, item_of};
ghost use Rattle.sn_pipe.specs.Prefixes.{left_in};
ghost use Rattle.sn_pipe.specs.Stages.{cleared, item_at};
ghost use Rattle.sn_types.specs.Kinds.{AreBelow};
ghost use Rattle.sn_types.specs.Typed.{branch_at, query_at};
ghost use Rattle.sn_chain.specs.Limits.{largest_register};

use crate::gate::{Gate, admits, asks};
use crate::prefix::Prefix;
use crate::rows::PacketRows;
use sn_base::any_row::AnyRow;
use sn_base::members::Members;
use sn_base::memory::Memory;
use sn_fields::tuple::Tuple;
use sn_report::frame::Item;
use sn_types::typed::Typed;
use sn_types::typed_op::TOp;
use std::alloc::Global;
use std::marker::Model;

/// The prefix of a branch at a level, for the tuples that a coarser level admits, over rows of a kind.
#[derive(Drop)]
pub struct Pipe<R: AnyRow> {
    t: Typed,
    q: u32,
    b: u32,
    coarser: Option<Gate>,
    members: Members,
    /// The bits of the prefix that each tuple of this window is asked for, if it is asked.
    asks: Option<u32>,
    /// What its packet rows have in common.
    rows: PacketRows,
    prefix: Prefix<R>,
}

impl<R: AnyRow> Model for Pipe<R> {
    ghost use Rattle.std.specs.Prelude.{◌≡◌, ◌<◌, length};
    ghost use Rattle.std.specs.Coded.{codes, coded_ℕ};
    ghost use Rattle.std.specs.FinSet as set;
    ghost use Rattle.std.specs.Ordering.{nat_cmp};
    ghost use Rattle.sn_pipe.specs.Pipes.{AreRowsOf, IsPipe, PipeState, asking, passing};
    ghost use Rattle.sn_types.specs.Kinds.{AreBelow};
    ghost use Rattle.sn_types.specs.Typed.{branch_at, query_at};

    ghost Value = { PipeState };

    ghost coded = { Prim.hlevel (codes, set.code {R = nat_cmp} coded_ℕ) };

    ghost view = { λ a. record { query = query_at a.t.queries a.q; branch = a.b; coarser = a.coarser; members = a.members; prefix = a.prefix } };

    ghost invariant = { λ a. (a.q < length a.t.queries) × IsPipe (query_at a.t.queries a.q) a.b a.coarser a.prefix ×
        AreBelow R.Number.limit (branch_at a.t.queries a.q a.b).fields × (asking a.asks a.members ≡ passing a.coarser a.members) ×
        AreRowsOf (query_at a.t.queries a.q) a.b a.prefix.level a.rows };
}

/// The first n operators of a branch.
fn front(t: &Typed, q: u32, b: u32, cut: u32) -> &[TOp]
    requires query { q < length t.now.queries }
    requires branch { b < length (query_at t.now.queries q).branches }
    requires cut { cut ≤ (branch_at t.now.queries q b).max_cut }
    ensures ops { result.now ≡ take cut (branch_at t.now.queries q b).ops }
    ensures few { length result.now ≤ 12 }
    ensures can { CanBeRead result.now }
{
    let (front, _) = t.operators(q, b).split_at(cut as usize);
    front
}

impl<R: AnyRow> Pipe<R> {
    /// The first `cut` operators of a branch at a level. Each stateful one of them has `chain` registers, with as many
    /// slots each as `slots` has for it. With a level before it on the path, `coarser`, the pipe admits only the tuples
    /// whose refinement field masked to that level is in its prefix set, which is empty at first; but all of them in a window
    /// whose set has more prefixes than the table has entries. All memory that the pipe ever needs is taken here.
    pub fn make(
        alloc: Global,
        t: &Typed,
        q: u32,
        b: u32,
        level: u32,
        coarser: Option<Gate>,
        cut: u32,
        chain: u32,
        slots: &[u32],
    ) -> Result<Pipe<R>, Memory>
        requires query { q < length t.now.queries }
        requires branch { b < length (query_at t.now.queries q).branches }
        requires level { list_any (nat_eq level) (query_at t.now.queries q).levels ≡ true }
        requires coarser { IsCoarser (query_at t.now.queries q) (bits_of coarser) }
        requires below { AreBelow R.Number.limit (branch_at t.now.queries q b).fields }
        requires cut { cut ≤ (branch_at t.now.queries q b).max_cut }
        requires some_depth { 1 ≤ chain }
        requires most_depth { chain ≤ 4 }
        requires sizes { All (λ size. (1 ≤ size) × (size ≤ largest_register)) slots.now }
        requires enough { stateful (take cut (branch_at t.now.queries q b).ops) ≤ length slots.now }
        ensures { IfOk result (λ pipe. IsNewPipe (query_at t.now.queries q) b level coarser (take cut (branch_at t.now.queries q b).ops) chain slots.now pipe) }
    {
        let prefix = Prefix::make(alloc, level, front(t, q, b, cut), chain, slots)?;
        let rows = PacketRows::of(alloc, &t.packets(q, b, level))?;
        let members = Members::new(alloc);
        Ok(Pipe {
            t: t.copy()?,
            q,
            b,
            coarser,
            asks: asks(coarser, &members),
            members,
            rows,
            prefix,
        })
    }

    /// Takes a tuple, before any read-out. `Some` exactly where the tuple gives an item, its row at the operator where its key
    /// overflows, or after a prefix without a reduce: the number of that operator, and `row` is then the item's row. Takes no memory.
    #[inline(always)]
    pub fn packet(&mut self, tuple: &Tuple, row: &mut R) -> Option<u8>
        requires { self.old.prefix.place ≡ 0 }
        ensures item { option_map (λ i. item_at i (R.columns row.new)) result ≡ item_of self.old tuple.now }
        ensures after { self.new ≡ record self.old { prefix = record self.old.prefix { stages = after_tuple self.old tuple.now } } }
        ensures operator { IfSome result (λ i. i ≤ 12) }
    {
        if !admits(&self.t, self.q, self.asks, &self.members, tuple) {
            return None;
        }
        let packet = self.rows.row(tuple);
        self.prefix.take(&packet, row)
    }

    /// The next item that is read out. `None` exactly where none is left. Takes no memory.
    pub fn read_out_next(&mut self) -> Option<Item<R>>
        ensures item { option_map (item_by R.columns) result ≡ slice_get (left_in self.old.prefix) 0 }
        ensures left { left_in self.new.prefix ≡ drop 1 (left_in self.old.prefix) }
        ensures rest { self.new ≡ record self.old { prefix = record self.old.prefix { place = self.new.prefix.place } } }
        ensures operator { IfSome result (λ item. operator_of item.tag ≤ 12) }
    {
        self.prefix.read_out_next()
    }

    /// Empties all registers, and holds these prefixes of the window before. A pipe without a level before it holds them
    /// too, and asks for none, as does one whose table has fewer entries than these. Takes no memory.
    pub fn next_window(&mut self, kept: Members)
        ensures { self.new ≡ record self.old { members = kept; prefix = record self.old.prefix { stages = map cleared self.old.prefix.stages; place = 0 } } }
    {
        self.asks = asks(self.coarser, &kept);
        self.members = kept;
        self.prefix.clear();
    }
}
