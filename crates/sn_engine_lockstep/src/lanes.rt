//! All lanes of a plan at work.
ghost use Rattle.std.specs.Prelude.{◌≡◌, ◌<◌, ◌++◌, ◌∷◌, [], ℕ, List, length, map, Some, IfOk, OnOk};
ghost use Rattle.std.specs.List.{AllByRecursion, flat_map};
ghost use Rattle.sn_engine_lockstep.specs.declared.source.Source.{Source};
ghost use Rattle.sn_engine_lockstep.specs.Sources.{kept_in};
ghost use Rattle.sn_engine_lockstep.specs.Work.{AreAtWork, AreUnread, Begins, done, frames_given, lanes_left};
ghost use Rattle.sn_emit.specs.Making.{CanMake};
ghost use Rattle.sn_emit.specs.Plans.{AreLanesOf, Placed};
ghost use Rattle.sn_emit.specs.Senders.{frames_left};
ghost use Rattle.sn_emit.specs.declared.tables.Tables.{Tables};
ghost use Rattle.sn_engine.specs.Answers.{parts_of, window_of};
ghost use Rattle.sn_engine.specs.Intakes.{emptied, total};
ghost use Rattle.sn_engine.specs.Keeping.{gathered};
ghost use Rattle.sn_refine.specs.Steps.{Set};
ghost use Rattle.sn_types.specs.Typed.{HasWidths, IsTyped};
ghost use Rattle.sn_types.specs.declared.typed_query.TypedQuery.{TypedQuery};

use crate::source::{Source, kept_in};
use crate::wire::Wire;
use crate::work::{drain, give};
use sn_base::memory::Memory;
use sn_emit::given::Given;
use sn_emit::lanes::Emitter;
use sn_engine::engine::Engine;
use sn_fields::tuple::Tuple;
use sn_types::answers::Answers;
use sn_types::typed::Typed;
use std::alloc::Global;

/// Begins a window of each lane, with its prefixes.
pub(crate) fn begin_lanes(
    alloc: Global,
    t: &Typed,
    sources: &[Source],
    emitter: &mut Emitter,
    last: &Option<Answers>,
    window: u64,
) -> Result<(), Memory>
    requires many { length sources.now ≡ length emitter.old }
    requires known { AllByRecursion (λ source. source.query < length t.now.queries) sources.now }
    ensures begun { OnOk result (Begins (kept_in t.now.queries last.now window) sources.now (length sources.now) emitter.old emitter.new) }
    ensures lanes { OnOk result ((queries : List TypedQuery) (tables : Tables) (pieces : List Placed) → AreLanesOf queries tables pieces emitter.old →
        AreLanesOf queries tables pieces emitter.new) }
{
    for lane in 0..emitter.lanes() {
        let source = sources[lane as usize];
        let kept = kept_in(alloc, t, last, window, source)?;
        emitter.next_window(lane, kept);
    }
    Ok(())
}

/// Gives a tuple to all lanes, and sends what they give, in their order. `frame` is the place for it.
pub(crate) fn give_lanes<W: Wire>(
    emitter: &mut Emitter,
    engine: &mut Engine,
    wire: &mut W,
    tuple: &Tuple,
    frame: &mut Given,
) -> Result<(), Memory>
    requires { AreUnread emitter.old }
    ensures work { OnOk result ((queries : List TypedQuery) (tables : Tables) (pieces : List Placed) (kept : Source → Set) (tuples : List (List ℕ)) →
        AreAtWork queries tables pieces kept tuples emitter.old engine.old.lanes.items →
        AreAtWork queries tables pieces kept (tuples ++ tuple.now ∷ []) emitter.new engine.new.lanes.items) }
    ensures sent { OnOk result (W.reported wire.new ≡ W.reported wire.old ++ flat_map W.word (flat_map (frames_given tuple.now) emitter.old)) }
    ensures unread { OnOk result (AreUnread emitter.new) }
    ensures lanes { OnOk result ((queries : List TypedQuery) (tables : Tables) (pieces : List Placed) → AreLanesOf queries tables pieces emitter.old →
        AreLanesOf queries tables pieces emitter.new) }
    ensures count { OnOk result (length emitter.new ≡ length emitter.old) }
    ensures queries { engine.new.t.queries ≡ engine.old.t.queries }
    ensures closed { engine.new.closed ≡ engine.old.closed }
    ensures prefixes { engine.new.kept ≡ engine.old.kept }
{
    for lane in 0..emitter.lanes() {
        give(emitter, engine, wire, lane, tuple, frame)?;
    }
    Ok(())
}

/// Reads all lanes out, one after another, and sends what they give.
pub(crate) fn drain_lanes<W: Wire>(
    emitter: &mut Emitter,
    engine: &mut Engine,
    wire: &mut W,
    window: u64,
) -> Result<(), Memory>
    ensures work { OnOk result ((typed_for : ℕ) (tables : Tables) (queries : List TypedQuery) (pieces : List Placed) (kept : Source → Set)
        (tuples : List (List ℕ)) →
        ∥ IsTyped typed_for queries ∥₁ → AllByRecursion (CanMake queries) pieces → AllByRecursion HasWidths tuples →
        AreAtWork queries tables pieces kept tuples emitter.old engine.old.lanes.items →
        engine.new.lanes.items ≡ map (done queries tables kept tuples window) pieces) }
    ensures sent { OnOk result (W.reported wire.new ≡ W.reported wire.old ++ flat_map W.word (flat_map (λ s. frames_left s window) emitter.old)) }
    ensures lanes { OnOk result ((queries : List TypedQuery) (tables : Tables) (pieces : List Placed) → AreLanesOf queries tables pieces emitter.old →
        AreLanesOf queries tables pieces emitter.new) }
    ensures count { OnOk result (length emitter.new ≡ length emitter.old) }
    ensures queries { engine.new.t.queries ≡ engine.old.t.queries }
    ensures closed { engine.new.closed ≡ engine.old.closed }
    ensures prefixes { engine.new.kept ≡ engine.old.kept }
{
    for lane in 0..emitter.lanes() {
        drain(emitter, engine, wire, lane, window)?;
    }
    Ok(())
}

/// The engine answers the window that all lanes have ended.
pub(crate) fn close(engine: &mut Engine) -> Result<Answers, Memory>
    ensures emitted { IfOk result (λ answers. answers.emitted ≡ total engine.old.lanes.items) }
    ensures parts { IfOk result (λ answers. answers.parts ≡ parts_of engine.old.t.queries
        (lanes_left engine.old.t.queries engine.old.closed engine.old.kept engine.old.lanes.items)) }
    ensures closed { OnOk result (engine.new.closed ≡ Some (window_of engine.old.lanes.items)) }
    ensures prefixes { IfOk result (λ answers. engine.new.kept ≡ gathered engine.old.t.queries answers.parts engine.old.lanes.items) }
    ensures emptied { OnOk result (engine.new.lanes.items ≡ map emptied engine.old.lanes.items) }
    ensures queries { engine.new.t.queries ≡ engine.old.t.queries }
{
    match engine.close_window() {
        Ok(answers) => Ok(answers),
        Err(_) => Err(Memory),
    }
}
