//! A prefix of a branch with its registers.
ghost use Rattle.std.specs.Prelude.{◌≡◌, ◌≤◌, All, IfOk, IfSome, drop, length, map, slice_get};
ghost use Rattle.std.specs.Option.{option_map};
ghost use Rattle.sn_report.specs.Frames.{operator_of};
ghost use Rattle.sn_report.specs.Items.{item_by};
ghost use Rattle.sn_types.specs.Cuts.{size_at, stateful};
ghost use Rattle.sn_pipe.specs.Making.{AreStagesOf};
ghost use Rattle.sn_pipe.specs.Passing.{CanBeRead, CanPass};
ghost use Rattle.sn_pipe.specs.Prefixes.{left_in};
ghost use Rattle.sn_pipe.specs.Stages.{cleared, item_at, item_from, stages_after};
ghost use Rattle.sn_chain.specs.Limits.{largest_register};

use crate::making::stages_of;
use crate::reading::next_item;
use crate::stage::StageOf;
use crate::stages::clear;
use crate::start::start;
use sn_base::any_row::AnyRow;
use sn_base::memory::Memory;
use sn_report::frame::Item;
use sn_types::packet::PacketRow;
use sn_types::typed_op::TOp;
use std::alloc::Global;
use std::marker::Model;

/// The operators of a prefix with their registers, at a level, for rows of a kind.
#[derive(Drop)]
pub struct Prefix<R: AnyRow> {
    level: u32,
    stages: Vec<StageOf<R>>,
    /// The place of the reduce with which its read-out goes on.
    place: u32,
}

impl<R: AnyRow> Model for Prefix<R> {
    ghost use Rattle.std.specs.Prelude.{◌≤◌, length};
    ghost use Rattle.sn_pipe.specs.Passing.{CanRead};
    ghost use Rattle.sn_pipe.specs.Prefixes.{PrefixState};

    ghost Value = { PrefixState };

    ghost view = { λ a. record { level = a.level; stages = a.stages.items; place = a.place } };

    ghost invariant = { λ a. (length a.stages.items ≤ 12) × CanRead a.stages.items };
}

impl<R: AnyRow> Prefix<R> {
    /// These operators at a level, with empty registers: for each stateful operator `depth` of them, with as many slots
    /// each as the list has for it. All memory that the prefix ever needs is taken here.
    pub fn make(
        alloc: Global,
        level: u32,
        ops: &[TOp],
        depth: u32,
        sizes: &[u32],
    ) -> Result<Prefix<R>, Memory>
        requires some_depth { 1 ≤ depth }
        requires most_depth { depth ≤ 4 }
        requires sizes { All (λ size. (1 ≤ size) × (size ≤ largest_register)) sizes.now }
        requires few { length ops.now ≤ 12 }
        requires enough { stateful ops.now ≤ length sizes.now }
        requires can { CanBeRead ops.now }
        ensures level { IfOk result (λ prefix. prefix.level ≡ level) }
        ensures stages { IfOk result (λ prefix. AreStagesOf ops.now depth (size_at ops.now sizes.now) prefix.stages) }
        ensures unread { IfOk result (λ prefix. prefix.place ≡ 0) }
    {
        let stages = stages_of(alloc, ops, depth, sizes)?.into_vec();
        Ok(Prefix {
            level,
            stages,
            place: 0,
        })
    }

    /// The level.
    pub fn level(&self) -> u32
        ensures { result ≡ self.now.level }
    {
        self.level
    }

    /// Takes a packet row, before any read-out. `Some` exactly where it gives an item: the number of the operator at which it leaves,
    /// and `row` is then its row. It is written where the caller wants it, since a row takes longer to move than to find out that
    /// there is none. Takes no memory.
    pub fn take(&mut self, packet: &PacketRow<'_, R::Number>, row: &mut R) -> Option<u8>
        requires unread { self.old.place ≡ 0 }
        requires can { CanPass self.old.level self.old.stages packet.now }
        ensures item { option_map (λ i. item_at i (R.columns row.new)) result ≡ item_from self.old.level 0 self.old.stages packet.now }
        ensures after { self.new ≡ record self.old { stages = stages_after self.old.level self.old.stages packet.now } }
        ensures operator { IfSome result (λ i. i ≤ 12) }
    {
        start(&mut self.stages, self.level, packet, row)
    }

    /// The next item that is read out. `None` exactly where none is left. Takes no memory.
    pub fn read_out_next(&mut self) -> Option<Item<R>>
        ensures item { option_map (item_by R.columns) result ≡ slice_get (left_in self.old) 0 }
        ensures left { left_in self.new ≡ drop 1 (left_in self.old) }
        ensures level { self.new.level ≡ self.old.level }
        ensures stages { self.new.stages ≡ self.old.stages }
        ensures operator { IfSome result (λ item. operator_of item.tag ≤ 12) }
    {
        let (item, place) = next_item(&self.stages, self.level, 0, false, self.place);
        self.place = place;
        item
    }

    /// Empties all registers, for the next window. Takes no memory.
    pub fn clear(&mut self)
        ensures { self.new ≡ record self.old { stages = map cleared self.old.stages; place = 0 } }
    {
        clear(&mut self.stages);
        self.place = 0;
    }
}
