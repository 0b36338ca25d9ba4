//! One lane at work: the engine takes what it sends, and a wire is reported of it.
ghost use Rattle.std.specs.Prelude.{◌≡◌, ◌≢◌, ◌<◌, ◌++◌, ℕ, List, length, fold, slice_get, slice_set, IfSome, OnOk};
ghost use Rattle.std.specs.List.{flat_map};
ghost use Rattle.sn_engine_lockstep.specs.Work.{IsReadInto, frames_given};
ghost use Rattle.sn_emit.specs.Making.{CanEncode};
ghost use Rattle.sn_emit.specs.Plans.{AreLanesOf, Placed};
ghost use Rattle.sn_emit.specs.Senders.{frames_left, sender_next};
ghost use Rattle.sn_emit.specs.declared.tables.Tables.{Tables};
ghost use Rattle.sn_engine.specs.Intakes.{after_frame};
ghost use Rattle.sn_types.specs.declared.typed_query.TypedQuery.{TypedQuery};

use crate::wire::Wire;
use sn_base::memory::Memory;
use sn_emit::given::{AnyFrame, Given};
use sn_emit::lanes::Emitter;
use sn_engine::engine::Engine;
use sn_engine::fault::TakeFault;
use sn_fields::tuple::Tuple;

/// The engine takes a frame, whatever kind of rows it has.
fn take(engine: &mut Engine, frame: &Given) -> Result<(), TakeFault>
    ensures taken { OnOk result (engine.new.lanes.items ≡ after_frame engine.old.lanes.items frame.now) }
    ensures queries { engine.new.t.queries ≡ engine.old.t.queries }
    ensures closed { engine.new.closed ≡ engine.old.closed }
    ensures prefixes { engine.new.kept ≡ engine.old.kept }
{
    match frame.kind() {
        AnyFrame::Short(frame) => engine.take(frame),
        AnyFrame::Wide(frame) => engine.take(frame),
    }
}

/// The engine takes a frame of a lane, and the wire is reported of it.
fn send<W: Wire>(engine: &mut Engine, wire: &mut W, frame: &Given) -> Result<(), Memory>
    requires { CanEncode frame.now }
    ensures taken { OnOk result (engine.new.lanes.items ≡ after_frame engine.old.lanes.items frame.now) }
    ensures sent { OnOk result (W.reported wire.new ≡ W.reported wire.old ++ W.word frame.now) }
    ensures queries { engine.new.t.queries ≡ engine.old.t.queries }
    ensures closed { engine.new.closed ≡ engine.old.closed }
    ensures prefixes { engine.new.kept ≡ engine.old.kept }
{
    match take(engine, frame) {
        Ok(()) => wire.sent(frame),
        Err(_) => Err(Memory),
    }
}

/// Gives a tuple to a lane, and sends what it gives. `frame` is the place for it.
pub(crate) fn give<W: Wire>(
    emitter: &mut Emitter,
    engine: &mut Engine,
    wire: &mut W,
    lane: u32,
    tuple: &Tuple,
    frame: &mut Given,
) -> Result<(), Memory>
    requires lane { lane < length emitter.old }
    requires unread { IfSome (slice_get emitter.old lane) (λ s. s.pipe.prefix.place ≡ 0) }
    ensures after { IfSome (slice_get emitter.old lane) (λ s. emitter.new ≡ slice_set emitter.old lane (sender_next s tuple.now)) }
    ensures taken { OnOk result (IfSome (slice_get emitter.old lane)
        (λ s. engine.new.lanes.items ≡ fold after_frame engine.old.lanes.items (frames_given tuple.now s))) }
    ensures sent { OnOk result (IfSome (slice_get emitter.old lane) (λ s. W.reported wire.new ≡ W.reported wire.old ++ flat_map W.word (frames_given tuple.now s))) }
    ensures lanes { (queries : List TypedQuery) (tables : Tables) (pieces : List Placed) → AreLanesOf queries tables pieces emitter.old →
        AreLanesOf queries tables pieces emitter.new }
    ensures queries { engine.new.t.queries ≡ engine.old.t.queries }
    ensures closed { engine.new.closed ≡ engine.old.closed }
    ensures prefixes { engine.new.kept ≡ engine.old.kept }
{
    if emitter.give(lane, tuple, frame) {
        send(engine, wire, frame)
    } else {
        Ok(())
    }
}

/// Reads a lane out to its end, and sends what it gives.
pub(crate) fn drain<W: Wire>(
    emitter: &mut Emitter,
    engine: &mut Engine,
    wire: &mut W,
    lane: u32,
    window: u64,
) -> Result<(), Memory>
    requires { lane < length emitter.old }
    ensures read { OnOk result (IfSome (slice_get emitter.old lane)
        (λ s. IfSome (slice_get emitter.new lane) (λ t. IsReadInto window s t engine.old.lanes.items engine.new.lanes.items))) }
    ensures sent { OnOk result (IfSome (slice_get emitter.old lane) (λ s. W.reported wire.new ≡ W.reported wire.old ++ flat_map W.word (frames_left s window))) }
    ensures count { length emitter.new ≡ length emitter.old }
    ensures others { (other : ℕ) → other ≢ lane → slice_get emitter.new other ≡ slice_get emitter.old other }
    ensures lanes { (queries : List TypedQuery) (tables : Tables) (pieces : List Placed) → AreLanesOf queries tables pieces emitter.old →
        AreLanesOf queries tables pieces emitter.new }
    ensures queries { engine.new.t.queries ≡ engine.old.t.queries }
    ensures closed { engine.new.closed ≡ engine.old.closed }
    ensures prefixes { engine.new.kept ≡ engine.old.kept }
{
    'frames: loop {
        match emitter.read_out(lane, window) {
            Some(frame) => send(engine, wire, &frame)?,
            None => return Ok(()),
        }
    }
}
