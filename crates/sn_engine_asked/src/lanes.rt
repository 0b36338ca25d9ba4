//! All lanes of a plan at work.
ghost use Rattle.std.specs.Prelude.{◌≡◌, ◌++◌, ◌∷◌, [], ℕ, List, length, map, OnOk};
ghost use Rattle.std.specs.List.{AllByRecursion, flat_map};
ghost use Rattle.sn_emit.specs.Making.{CanMake};
ghost use Rattle.sn_emit.specs.Plans.{AreLanesOf, Placed};
ghost use Rattle.sn_emit.specs.Senders.{frames_left};
ghost use Rattle.sn_emit.specs.declared.tables.Tables.{Tables};
ghost use Rattle.sn_engine_asked.specs.Asked.{AreHeard, heard};
ghost use Rattle.sn_engine_lockstep.specs.Work.{AreUnread, done, frames_given};
ghost use Rattle.sn_engine_lockstep.specs.declared.source.Source.{Source};
ghost use Rattle.sn_refine.specs.Steps.{Set};
ghost use Rattle.sn_report.specs.Frames.{spelling};
ghost use Rattle.sn_types.specs.Typed.{HasWidths, IsTyped};
ghost use Rattle.sn_types.specs.declared.typed_query.TypedQuery.{TypedQuery};

use crate::work::{drain, give};
use sn_base::memory::Memory;
use sn_emit::given::Given;
use sn_emit::lanes::Emitter;
use sn_engine::engine::Engine;
use sn_fields::tuple::Tuple;
use sn_plan_grammar::plan::Entry;

/// Gives a tuple to all lanes, and sends what they give, in their order. `frame` is the place for it.
pub(crate) fn give_lanes(
    plan: &[Entry],
    emitter: &mut Emitter,
    engine: &mut Engine,
    bytes: &mut Vec<u8>,
    tuple: &Tuple,
    frame: &mut Given,
) -> Result<(), Memory>
    requires { AreUnread emitter.old }
    ensures work { OnOk result ((queries : List TypedQuery) (tables : Tables) (pieces : List Placed) (kept : Source → Set) (tuples : List (List ℕ)) →
        AreHeard plan.now queries tables pieces kept tuples emitter.old engine.old.lanes.items →
        AreHeard plan.now queries tables pieces kept (tuples ++ tuple.now ∷ []) emitter.new engine.new.lanes.items) }
    ensures sent { OnOk result (bytes.new.items ≡ bytes.old.items ++ flat_map (spelling 2) (flat_map (frames_given tuple.now) emitter.old)) }
    ensures unread { OnOk result (AreUnread emitter.new) }
    ensures lanes { OnOk result ((queries : List TypedQuery) (tables : Tables) (pieces : List Placed) → AreLanesOf queries tables pieces emitter.old →
        AreLanesOf queries tables pieces emitter.new) }
    ensures count { OnOk result (length emitter.new ≡ length emitter.old) }
    ensures queries { engine.new.t.queries ≡ engine.old.t.queries }
    ensures closed { engine.new.closed ≡ engine.old.closed }
    ensures prefixes { engine.new.kept ≡ engine.old.kept }
{
    for lane in 0..emitter.lanes() {
        give(plan, emitter, engine, bytes, lane, tuple, frame)?;
    }
    Ok(())
}

/// Reads all lanes out, one after another, and sends what they give. Then the engine holds all items of the window that it is to.
pub(crate) fn drain_lanes(
    plan: &[Entry],
    emitter: &mut Emitter,
    engine: &mut Engine,
    bytes: &mut Vec<u8>,
    window: u64,
) -> Result<(), Memory>
    ensures items { OnOk result ((typed_for : ℕ) (tables : Tables) (queries : List TypedQuery) (pieces : List Placed) (kept : Source → Set)
        (tuples : List (List ℕ)) →
        ∥ IsTyped typed_for queries ∥₁ → AllByRecursion (CanMake queries) pieces → AllByRecursion HasWidths tuples →
        AreHeard plan.now queries tables pieces kept tuples emitter.old engine.old.lanes.items →
        engine.new.lanes.items ≡ map (λ x. heard plan.now (done queries tables kept tuples window x)) pieces) }
    ensures sent { OnOk result (bytes.new.items ≡ bytes.old.items ++ flat_map (spelling 2) (flat_map (λ s. frames_left s window) emitter.old)) }
    ensures lanes { OnOk result ((queries : List TypedQuery) (tables : Tables) (pieces : List Placed) → AreLanesOf queries tables pieces emitter.old →
        AreLanesOf queries tables pieces emitter.new) }
    ensures count { OnOk result (length emitter.new ≡ length emitter.old) }
    ensures queries { engine.new.t.queries ≡ engine.old.t.queries }
    ensures closed { engine.new.closed ≡ engine.old.closed }
    ensures prefixes { engine.new.kept ≡ engine.old.kept }
{
    for lane in 0..emitter.lanes() {
        drain(plan, emitter, engine, bytes, lane, window)?;
    }
    Ok(())
}
