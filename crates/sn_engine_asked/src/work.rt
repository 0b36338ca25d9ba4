//! One lane at work: its frames become bytes, and the engine takes those that it is to.
ghost use Rattle.std.specs.Prelude.{◌≡◌, ◌≢◌, ◌<◌, ◌++◌, ℕ, List, length, fold, slice_get, slice_set, IfSome, OnOk};
ghost use Rattle.std.specs.List.{flat_map};
ghost use Rattle.sn_emit.specs.Making.{CanEncode};
ghost use Rattle.sn_emit.specs.Plans.{AreLanesOf, Placed};
ghost use Rattle.sn_emit.specs.Senders.{frames_left, sender_next};
ghost use Rattle.sn_emit.specs.declared.tables.Tables.{Tables};
ghost use Rattle.sn_engine_asked.specs.Asked.{IsHeardInto, after_heard};
ghost use Rattle.sn_engine_lockstep.specs.Work.{frames_given};
ghost use Rattle.sn_report.specs.Frames.{spelling};
ghost use Rattle.sn_types.specs.declared.typed_query.TypedQuery.{TypedQuery};

use crate::asked::hear;
use sn_base::memory::Memory;
use sn_emit::given::Given;
use sn_emit::lanes::Emitter;
use sn_engine::engine::Engine;
use sn_engine_lockstep::wire::Wire;
use sn_fields::tuple::Tuple;
use sn_plan_grammar::plan::Entry;

/// The engine takes a frame of a lane, if it is to, and its bytes are added to those before.
fn send(
    plan: &[Entry],
    engine: &mut Engine,
    bytes: &mut Vec<u8>,
    frame: &Given,
) -> Result<(), Memory>
    requires { CanEncode frame.now }
    ensures taken { OnOk result (engine.new.lanes.items ≡ after_heard plan.now engine.old.lanes.items frame.now) }
    ensures sent { OnOk result (bytes.new.items ≡ bytes.old.items ++ spelling 2 frame.now) }
    ensures queries { engine.new.t.queries ≡ engine.old.t.queries }
    ensures closed { engine.new.closed ≡ engine.old.closed }
    ensures prefixes { engine.new.kept ≡ engine.old.kept }
{
    hear(plan, engine, frame)?;
    bytes.sent(frame)
}

/// Gives a tuple to a lane, and sends what it gives. `frame` is the place for it.
pub(crate) fn give(
    plan: &[Entry],
    emitter: &mut Emitter,
    engine: &mut Engine,
    bytes: &mut Vec<u8>,
    lane: u32,
    tuple: &Tuple,
    frame: &mut Given,
) -> Result<(), Memory>
    requires lane { lane < length emitter.old }
    requires unread { IfSome (slice_get emitter.old lane) (λ s. s.pipe.prefix.place ≡ 0) }
    ensures after { IfSome (slice_get emitter.old lane) (λ s. emitter.new ≡ slice_set emitter.old lane (sender_next s tuple.now)) }
    ensures taken { OnOk result (IfSome (slice_get emitter.old lane)
        (λ s. engine.new.lanes.items ≡ fold (after_heard plan.now) engine.old.lanes.items (frames_given tuple.now s))) }
    ensures sent { OnOk result (IfSome (slice_get emitter.old lane) (λ s. bytes.new.items ≡ bytes.old.items ++ flat_map (spelling 2) (frames_given tuple.now s))) }
    ensures lanes { (queries : List TypedQuery) (tables : Tables) (pieces : List Placed) → AreLanesOf queries tables pieces emitter.old →
        AreLanesOf queries tables pieces emitter.new }
    ensures queries { engine.new.t.queries ≡ engine.old.t.queries }
    ensures closed { engine.new.closed ≡ engine.old.closed }
    ensures prefixes { engine.new.kept ≡ engine.old.kept }
{
    if emitter.give(lane, tuple, frame) {
        send(plan, engine, bytes, frame)
    } else {
        Ok(())
    }
}

/// Reads a lane out to its end, and sends what it gives.
pub(crate) fn drain(
    plan: &[Entry],
    emitter: &mut Emitter,
    engine: &mut Engine,
    bytes: &mut Vec<u8>,
    lane: u32,
    window: u64,
) -> Result<(), Memory>
    requires { lane < length emitter.old }
    ensures read { OnOk result (IfSome (slice_get emitter.old lane)
        (λ s. IfSome (slice_get emitter.new lane) (λ t. IsHeardInto plan.now window s t engine.old.lanes.items engine.new.lanes.items))) }
    ensures sent { OnOk result (IfSome (slice_get emitter.old lane) (λ s. bytes.new.items ≡ bytes.old.items ++ flat_map (spelling 2) (frames_left s window))) }
    ensures count { length emitter.new ≡ length emitter.old }
    ensures others { (other : ℕ) → other ≢ lane → slice_get emitter.new other ≡ slice_get emitter.old other }
    ensures lanes { (queries : List TypedQuery) (tables : Tables) (pieces : List Placed) → AreLanesOf queries tables pieces emitter.old →
        AreLanesOf queries tables pieces emitter.new }
    ensures queries { engine.new.t.queries ≡ engine.old.t.queries }
    ensures closed { engine.new.closed ≡ engine.old.closed }
    ensures prefixes { engine.new.kept ≡ engine.old.kept }
{
    'frames: loop {
        match emitter.read_out(lane, window) {
            Some(frame) => send(plan, engine, bytes, &frame)?,
            None => return Ok(()),
        }
    }
}
