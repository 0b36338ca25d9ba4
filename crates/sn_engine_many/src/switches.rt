//! All switches at work.
ghost use Rattle.std.specs.Prelude.{◌≡◌, ◌++◌, ◌∷◌, [], ℕ, List, OnOk, fold, length, map};
ghost use Rattle.std.specs.List.{AllByRecursion, flat_map};
ghost use Rattle.sn_emit.specs.Making.{CanMake};
ghost use Rattle.sn_emit.specs.Plans.{Placed};
ghost use Rattle.sn_emit.specs.declared.tables.Tables.{Tables};
ghost use Rattle.sn_engine.specs.Intakes.{after_frame};
ghost use Rattle.sn_engine_lockstep.specs.Sources.{kept_in};
ghost use Rattle.sn_engine_lockstep.specs.Work.{done};
ghost use Rattle.sn_engine_lockstep.specs.declared.source.Source.{Source};
ghost use Rattle.sn_engine_many.specs.Switches.{AreWorking, CanBegin, CanTake, IsResting, IsWorking, given_to, no_tuples};
ghost use Rattle.sn_engine_many.specs.Frames.{frames_of};
ghost use Rattle.sn_refine.specs.Steps.{Set};
ghost use Rattle.sn_types.specs.Typed.{HasWidths, IsTyped};
ghost use Rattle.sn_types.specs.declared.typed_query.TypedQuery.{TypedQuery};

use crate::gather::gather;
use sn_base::memory::Memory;
use sn_engine::engine::Engine;
use sn_engine_lockstep::driver::Driver;
use sn_engine_lockstep::wire::Nobody;
use sn_fields::tuple::Tuple;
use sn_types::answers::Answers;

/// A switch begins a window.
fn begin_one(switch: &mut Driver, last: &Option<Answers>, window: u64) -> Result<(), Memory>
    requires { CanBegin switch.old }
    ensures can { OnOk result (CanTake switch.new) }
    ensures work { OnOk result ((queries : List TypedQuery) (tables : Tables) (pieces : List Placed) → IsResting queries tables pieces switch.old →
        IsWorking queries tables pieces (kept_in queries last.now window) [] switch.new) }
{
    switch.begin(last, window)?;
    Ok(())
}

/// These switches begin a window, `last` being the answers of the last one before it.
pub(crate) fn begin_all(
    switches: &mut [Driver],
    last: &Option<Answers>,
    window: u64,
) -> Result<(), Memory>
    requires { AllByRecursion CanBegin switches.old }
    ensures can { OnOk result (AllByRecursion CanTake switches.new) }
    ensures work { OnOk result ((queries : List TypedQuery) (tables : Tables) (pieces : List Placed) →
        AllByRecursion (IsResting queries tables pieces) switches.old →
        AreWorking queries tables pieces (kept_in queries last.now window) (no_tuples switches.old) switches.new) }
    ensures count { length switches.new ≡ length switches.old }
{
    if let Some((first, rest)) = switches.split_first_mut() {
        begin_one(first, last, window)?;
        begin_all(rest, last, window)?;
    }
    Ok(())
}

/// A switch takes a tuple.
pub(crate) fn give_one(switch: &mut Driver, tuple: &Tuple) -> Result<(), Memory>
    requires { CanTake switch.old }
    ensures can { OnOk result (CanTake switch.new) }
    ensures work { OnOk result ((queries : List TypedQuery) (tables : Tables) (pieces : List Placed) (kept : Source → Set) (tuples : List (List ℕ)) →
        IsWorking queries tables pieces kept tuples switch.old → IsWorking queries tables pieces kept (tuples ++ tuple.now ∷ []) switch.new) }
{
    switch.packet(&mut Nobody, tuple)?;
    Ok(())
}

/// A switch is read out, and the engine takes what it has sent in the window.
fn drain_one(switch: &mut Driver, engine: &mut Engine, window: u64) -> Result<(), Memory>
    requires { CanBegin switch.old }
    ensures can { OnOk result (CanBegin switch.new) }
    ensures work { OnOk result ((typed_for : ℕ) (tables : Tables) (queries : List TypedQuery) (pieces : List Placed) (kept : Source → Set)
        (tuples : List (List ℕ)) →
        ∥ IsTyped typed_for queries ∥₁ → AllByRecursion (CanMake queries) pieces → AllByRecursion HasWidths tuples →
        IsWorking queries tables pieces kept tuples switch.old →
        IsResting queries tables pieces switch.new ×
        (engine.new.lanes.items ≡ fold after_frame engine.old.lanes.items
        (flat_map (frames_of queries) (map (done queries tables kept tuples window) pieces)))) }
    ensures queries { engine.new.t.queries ≡ engine.old.t.queries }
    ensures closed { engine.new.closed ≡ engine.old.closed }
    ensures prefixes { engine.new.kept ≡ engine.old.kept }
{
    switch.drain(&mut Nobody, window)?;
    gather(engine, &mut switch.engine)?;
    Ok(())
}

/// These switches are read out, one after another, and the engine takes what they have sent in the window.
pub(crate) fn drain_all(
    switches: &mut [Driver],
    engine: &mut Engine,
    window: u64,
) -> Result<(), Memory>
    requires { AllByRecursion CanBegin switches.old }
    ensures can { OnOk result (AllByRecursion CanBegin switches.new) }
    ensures work { OnOk result ((typed_for : ℕ) (tables : Tables) (queries : List TypedQuery) (pieces : List Placed)
        (kept : Source → Set) (captures : List (List (List ℕ))) →
        ∥ IsTyped typed_for queries ∥₁ → AllByRecursion (CanMake queries) pieces → AllByRecursion (AllByRecursion HasWidths) captures →
        AreWorking queries tables pieces kept captures switches.old →
        AllByRecursion (IsResting queries tables pieces) switches.new ×
        (engine.new.lanes.items ≡ fold after_frame engine.old.lanes.items
        (flat_map (λ tuples. flat_map (frames_of queries) (map (done queries tables kept tuples window) pieces)) captures))) }
    ensures count { length switches.new ≡ length switches.old }
    ensures queries { engine.new.t.queries ≡ engine.old.t.queries }
    ensures closed { engine.new.closed ≡ engine.old.closed }
    ensures prefixes { engine.new.kept ≡ engine.old.kept }
{
    if let Some((first, rest)) = switches.split_first_mut() {
        drain_one(first, engine, window)?;
        drain_all(rest, engine, window)?;
    }
    Ok(())
}
