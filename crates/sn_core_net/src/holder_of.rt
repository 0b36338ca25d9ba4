//! One lane of the switch, over rows of a kind that is known.
ghost use Rattle.std.specs.Prelude.{◌≡◌, ◌<◌, List, false, is_some, length, slice_get, true, IfOk, OnErr, OnOk};
ghost use Rattle.std.specs.List.{list_all};
ghost use Rattle.sn_core.specs.Events.{with_next};
ghost use Rattle.sn_core_net.specs.Holders.{after_frame_of, begun, took, with_ring, without_first};
ghost use Rattle.sn_core_net.specs.PlanWorkings.{workings_of};
ghost use Rattle.sn_core_net.specs.Reports.{is_own};
ghost use Rattle.sn_core_net.specs.States.{lane_of};
ghost use Rattle.sn_engine.specs.Intakes.{after_frame};
ghost use Rattle.sn_engine.specs.declared.intake.Intake.{Intake};
ghost use Rattle.sn_engine_lockstep.specs.declared.source.Source.{Source};
ghost use Rattle.sn_pipe.specs.Pipes.{item_of};
ghost use Rattle.sn_report.specs.Items.{frame_by};
ghost use Rattle.sn_types.specs.declared.typed_query.TypedQuery.{TypedQuery};

use crate::ring_of::RingOf;
use sn_base::members::Members;
use sn_base::memory::Memory;
use sn_emit::sender_of::SenderOf;
use sn_engine::engine::Engine;
use sn_engine::lane_row::LaneRow;
use sn_fields::tuple::Tuple;
use sn_pipe::pipe::Pipe;
use sn_report::frame::Frame;
use std::alloc::Global;

/// A lane of the switch, with the frames that the engine hasn't taken yet. Contracts see any lane and ring as what they hold, so
/// that those over rows of either kind are the same to them.
#[derive(Drop)]
pub struct HolderOf<S, Q> {
    /// What gives its frames.
    pub sender: S,
    /// The frames on their way to the engine, in the order in which they came.
    pub ring: Q,
}

/// The engine takes a frame.
fn take<R: LaneRow>(engine: &mut Engine, frame: &Frame<R>) -> Result<(), Memory>
    ensures ok { OnOk result (engine.new.lanes.items ≡ after_frame engine.old.lanes.items (frame_by R.columns frame.now)) }
    ensures err { OnErr result (engine.new.lanes.items ≡ engine.old.lanes.items) }
    ensures closed { engine.new.closed ≡ engine.old.closed }
    ensures prefixes { engine.new.kept ≡ engine.old.kept }
    ensures queries { engine.new.t.queries ≡ engine.old.t.queries }
{
    match engine.take(frame) {
        Ok(()) => Ok(()),
        Err(_) => Err(Memory),
    }
}

impl<R: LaneRow> HolderOf<SenderOf<Pipe<R>>, RingOf<R>> {
    /// A lane that holds no frames, with room for this many.
    pub(crate) fn make(
        alloc: Global,
        sender: SenderOf<Pipe<R>>,
        room: u32,
    ) -> Result<HolderOf<SenderOf<Pipe<R>>, RingOf<R>>, Memory>
        ensures { IfOk result (λ h. h ≡ with_ring room sender) }
    {
        let ring = RingOf::new(alloc, room)?;
        Ok(HolderOf { sender, ring })
    }

    /// Takes a tuple, before any read-out, and appends the frame that it gives, if there is one. Says whether there is.
    pub(crate) fn take_tuple(&mut self, tuple: &Tuple) -> bool
        requires { self.old.sender.pipe.prefix.place ≡ 0 }
        ensures taken { self.new ≡ took tuple.now self.old }
        ensures gives { result ≡ is_some (item_of self.old.sender.pipe tuple.now) }
    {
        self.ring.take_from(&mut self.sender, tuple)
    }

    /// Appends its next row, or after the last its End of this window, which it hasn't given.
    pub(crate) fn append_next(&mut self, window: u64)
        requires free { length self.old.ring.items < self.old.ring.capacity }
        requires runs { self.old.sender.ended ≡ false }
        ensures lane { (queries : List TypedQuery) (intakes : List Intake) (sources : List Source) (x : Intake) →
            lane_of self.new x ≡ with_next (workings_of queries intakes sources) (lane_of self.old x) }
        ensures capacity { self.new.ring.capacity ≡ self.old.ring.capacity }
        ensures name { self.new.sender.lane ≡ self.old.sender.lane }
        ensures own { list_all (is_own self.old.sender.lane window) self.old.ring.items ≡ true →
            list_all (is_own self.old.sender.lane window) self.new.ring.items ≡ true }
    {
        match self.sender.read_out(window) {
            Some(frame) => self.ring.append(frame),
            None => {}
        }
    }

    /// The engine takes the first frame, which is then gone. Nothing changes where memory runs out.
    pub(crate) fn deliver(&mut self, engine: &mut Engine) -> Result<(), Memory>
        ensures taken { OnOk result (engine.new.lanes.items ≡ after_frame_of engine.old.lanes.items (slice_get self.old.ring.items 0)) }
        ensures gone { OnOk result (self.new ≡ without_first self.old) }
        ensures kept { OnErr result (engine.new.lanes.items ≡ engine.old.lanes.items) }
        ensures same { OnErr result (self.new ≡ self.old) }
        ensures closed { engine.new.closed ≡ engine.old.closed }
        ensures prefixes { engine.new.kept ≡ engine.old.kept }
        ensures queries { engine.new.t.queries ≡ engine.old.t.queries }
    {
        if let Some(frame) = self.ring.first() {
            take(engine, frame)?;
        }
        self.ring.drop_first();
        Ok(())
    }

    /// Begins a window with these prefixes.
    pub(crate) fn begin(&mut self, kept: Members)
        ensures { self.new ≡ begun kept self.old }
    {
        self.sender.next_window(kept);
    }
}
