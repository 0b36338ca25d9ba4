//! One lane of the switch.
ghost use Rattle.std.specs.Prelude.{◌≡◌, ◌<◌, ◌==◌, List, is_some, length, slice_get, IfOk, OnErr, OnOk};
ghost use Rattle.sn_pipe.specs.Pipes.{item_of};

use crate::any_holder::AnyHolder;
use crate::holder_of::HolderOf;
use sn_base::members::Members;
use sn_base::memory::Memory;
use sn_emit::any_sender::AnySender;
use sn_emit::sender::Sender;
use sn_engine::engine::Engine;
use sn_fields::tuple::Tuple;
use std::alloc::Global;
use std::marker::Model;

/// A lane of the switch, with the frames that the engine hasn't taken yet, over rows of the kind that its branch has. The kind is
/// asked once for each call. Contracts see the lane alone: its `sender` and its `ring`.
#[derive(Drop)]
pub struct Holder {
    held: AnyHolder,
}

impl Model for Holder {
    ghost use Rattle.std.specs.Coded.{codes, coded_ℕ};
    ghost use Rattle.std.specs.FinSet as set;
    ghost use Rattle.std.specs.Ordering.{nat_cmp};
    ghost use Rattle.circular_buffer.specs.Buffer.{Buffer};
    ghost use Rattle.sn_emit.specs.declared.sender_of.SenderOf.{SenderOf};
    ghost use Rattle.sn_pipe.specs.Pipes.{PipeState};
    ghost use Rattle.sn_report.specs.Items.{Frame};
    ghost use Rattle.sn_core_net.specs.declared.holder_of.HolderOf.{HolderOf};

    ghost Value = { HolderOf (SenderOf PipeState) (Buffer Frame) };

    ghost coded = { Prim.hlevel (codes, set.code {R = nat_cmp} coded_ℕ) };

    ghost use Rattle.sn_core_net.specs.Kinds.{holder_in};

    ghost view = { λ a. holder_in a.held };
}

impl Holder {
    ghost use Rattle.std.specs.Prelude.{false, nat_lt, true};
    ghost use Rattle.std.specs.List.{list_all};
    ghost use Rattle.sn_core.specs.Events.{with_next};
    ghost use Rattle.sn_engine_lockstep.specs.declared.source.Source.{Source};
    ghost use Rattle.sn_engine.specs.declared.intake.Intake.{Intake};
    ghost use Rattle.sn_core_net.specs.Holders.{after_frame_of, begun, took, with_ring, without_first};
    ghost use Rattle.sn_core_net.specs.Reports.{is_own};
    ghost use Rattle.sn_core_net.specs.States.{lane_of};
    ghost use Rattle.sn_core_net.specs.PlanWorkings.{workings_of};
    ghost use Rattle.sn_types.specs.declared.typed_query.TypedQuery.{TypedQuery};

    /// A lane that holds no frames, with room for this many, over rows of the sender's kind.
    pub(crate) fn make(alloc: Global, sender: Sender, room: u32) -> Result<Holder, Memory>
        ensures { IfOk result (λ h. h ≡ with_ring room sender) }
    {
        let held = match sender.into_kind() {
            AnySender::Short(sender) => AnyHolder::Short(HolderOf::make(alloc, sender, room)?),
            AnySender::Wide(sender) => AnyHolder::Wide(HolderOf::make(alloc, sender, room)?),
        };
        Ok(Holder { held })
    }

    /// Whether it has given its End of this window.
    pub(crate) fn has_ended(&self) -> bool
        ensures { result ≡ self.now.sender.ended }
    {
        match &self.held {
            AnyHolder::Short(h) => h.sender.ended,
            AnyHolder::Wide(h) => h.sender.ended,
        }
    }

    /// Whether it holds fewer frames than this.
    pub(crate) fn has_room(&self, room: u32) -> bool
        ensures { result ≡ nat_lt (length self.now.ring.items) room }
    {
        match &self.held {
            AnyHolder::Short(h) => h.ring.has_room(room),
            AnyHolder::Wide(h) => h.ring.has_room(room),
        }
    }

    /// Whether it holds no frame.
    pub(crate) fn is_empty(&self) -> bool
        ensures { result ≡ (length self.now.ring.items == 0) }
    {
        match &self.held {
            AnyHolder::Short(h) => h.ring.is_empty(),
            AnyHolder::Wide(h) => h.ring.is_empty(),
        }
    }

    /// Takes a tuple, before any read-out, and appends the frame that it gives, if there is one. Says whether there is.
    pub(crate) fn take_tuple(&mut self, tuple: &Tuple) -> bool
        requires { self.old.sender.pipe.prefix.place ≡ 0 }
        ensures taken { self.new ≡ took tuple.now self.old }
        ensures gives { result ≡ is_some (item_of self.old.sender.pipe tuple.now) }
    {
        match &mut self.held {
            AnyHolder::Short(h) => h.take_tuple(tuple),
            AnyHolder::Wide(h) => h.take_tuple(tuple),
        }
    }

    /// Appends its next row, or after the last its End of this window, which it hasn't given.
    pub(crate) fn append_next(&mut self, window: u64)
        requires free { length self.old.ring.items < self.old.ring.capacity }
        requires runs { self.old.sender.ended ≡ false }
        ensures lane { (queries : List TypedQuery) (intakes : List Intake) (sources : List Source) (x : Intake) →
            lane_of self.new x ≡ with_next (workings_of queries intakes sources) (lane_of self.old x) }
        ensures capacity { self.new.ring.capacity ≡ self.old.ring.capacity }
        ensures name { self.new.sender.lane ≡ self.old.sender.lane }
        ensures own { list_all (is_own self.old.sender.lane window) self.old.ring.items ≡ true →
            list_all (is_own self.old.sender.lane window) self.new.ring.items ≡ true }
    {
        match &mut self.held {
            AnyHolder::Short(h) => h.append_next(window),
            AnyHolder::Wide(h) => h.append_next(window),
        }
    }

    /// The engine takes the first frame, which is then gone. Nothing changes where memory runs out.
    pub(crate) fn deliver(&mut self, engine: &mut Engine) -> Result<(), Memory>
        ensures taken { OnOk result (engine.new.lanes.items ≡ after_frame_of engine.old.lanes.items (slice_get self.old.ring.items 0)) }
        ensures gone { OnOk result (self.new ≡ without_first self.old) }
        ensures kept { OnErr result (engine.new.lanes.items ≡ engine.old.lanes.items) }
        ensures same { OnErr result (self.new ≡ self.old) }
        ensures closed { engine.new.closed ≡ engine.old.closed }
        ensures prefixes { engine.new.kept ≡ engine.old.kept }
        ensures queries { engine.new.t.queries ≡ engine.old.t.queries }
    {
        match &mut self.held {
            AnyHolder::Short(h) => h.deliver(engine),
            AnyHolder::Wide(h) => h.deliver(engine),
        }
    }

    /// Begins a window with these prefixes.
    pub(crate) fn begin(&mut self, kept: Members)
        ensures { self.new ≡ begun kept self.old }
    {
        match &mut self.held {
            AnyHolder::Short(h) => h.begin(kept),
            AnyHolder::Wide(h) => h.begin(kept),
        }
    }
}
