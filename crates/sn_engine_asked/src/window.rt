//! A window of a plan of which nobody asks for the answers: its frames, and what the next window's lanes admit.
ghost use Rattle.std.specs.Prelude.{◌≡◌, ◌++◌, ◌∷◌, [], ℕ, List, Some, length, IfOk, OnOk};
ghost use Rattle.std.specs.List.{AllByRecursion, flat_map};
ghost use Rattle.sn_emit.specs.Making.{CanMake};
ghost use Rattle.sn_emit.specs.Plans.{AreLanesOf, Placed, pieces_from};
ghost use Rattle.sn_emit.specs.Senders.{frames_left};
ghost use Rattle.sn_emit.specs.declared.tables.Tables.{Tables};
ghost use Rattle.sn_engine.specs.Keeping.{kept_for};
ghost use Rattle.sn_engine_asked.specs.Asked.{AdmitTheSame, AreHeard};
ghost use Rattle.sn_engine_lockstep.specs.Windows.{parts_from};
ghost use Rattle.sn_engine_lockstep.specs.Work.{AreIdle, AreKept, AreUnread, Recalls, frames_given};
ghost use Rattle.sn_engine_lockstep.specs.declared.source.Source.{Source};
ghost use Rattle.sn_plan_fit.specs.Fits.{AreEntriesOf};
ghost use Rattle.sn_refine.specs.Steps.{Set};
ghost use Rattle.sn_report.specs.Frames.{spelling};
ghost use Rattle.sn_types.specs.Typed.{HasWidths, IsTyped};
ghost use Rattle.sn_types.specs.declared.typed_query.TypedQuery.{TypedQuery};

use crate::lanes::{drain_lanes, give_lanes};
use sn_base::memory::Memory;
use sn_engine_lockstep::driver::Driver;
use sn_fields::tuple::Tuple;
use sn_plan_grammar::plan::Entry;
use sn_types::answers::Answers;

/// Gives a tuple of the window to all lanes, and adds the bytes of their frames to those before. The engine takes the rows of lanes
/// that a later level of this plan asks for, and of no other.
pub fn packet(
    plan: &[Entry],
    driver: &mut Driver,
    bytes: &mut Vec<u8>,
    tuple: &Tuple,
) -> Result<(), Memory>
    requires { AreUnread driver.old.emitter }
    ensures work { OnOk result ((queries : List TypedQuery) (tables : Tables) (pieces : List Placed) (kept : Source → Set) (tuples : List (List ℕ)) →
        AreHeard plan.now queries tables pieces kept tuples driver.old.emitter driver.old.engine.lanes.items →
        AreHeard plan.now queries tables pieces kept (tuples ++ tuple.now ∷ []) driver.new.emitter driver.new.engine.lanes.items) }
    ensures sent { OnOk result (bytes.new.items ≡ bytes.old.items ++ flat_map (spelling 2) (flat_map (frames_given tuple.now) driver.old.emitter)) }
    ensures unread { OnOk result (AreUnread driver.new.emitter) }
    ensures lanes { OnOk result ((queries : List TypedQuery) (tables : Tables) (pieces : List Placed) → AreLanesOf queries tables pieces driver.old.emitter →
        AreLanesOf queries tables pieces driver.new.emitter) }
    ensures count { OnOk result (length driver.new.emitter ≡ length driver.old.emitter) }
    ensures queries { driver.new.engine.t.queries ≡ driver.old.engine.t.queries }
    ensures closed { driver.new.engine.closed ≡ driver.old.engine.closed }
    ensures prefixes { driver.new.engine.kept ≡ driver.old.engine.kept }
    ensures sources { driver.new.sources ≡ driver.old.sources }
{
    give_lanes(
        plan,
        &mut driver.emitter,
        &mut driver.engine,
        bytes,
        tuple,
        &mut driver.place,
    )
}

/// Reads all lanes out, adds the bytes of their frames to those before, and closes the window. The answers have the prefixes of the
/// window's answers at each level that another one on a path of this plan admits. At the other levels, and in their count, they say nothing.
pub fn close(
    plan: &[Entry],
    driver: &mut Driver,
    bytes: &mut Vec<u8>,
    window: u64,
) -> Result<Answers, Memory>
    ensures window { IfOk result (λ answers. answers.window ≡ window) }
    ensures admitted { IfOk result (λ answers. (typed_for : ℕ) (tables : Tables) (kept : Source → Set) (tuples : List (List ℕ)) →
        let queries = driver.old.engine.t.queries in let pieces = pieces_from 0 plan.now in
        ∥ IsTyped typed_for queries ∥₁ → AreEntriesOf queries plan.now → AllByRecursion (CanMake queries) pieces → AllByRecursion HasWidths tuples →
        AreHeard plan.now queries tables pieces kept tuples driver.old.emitter driver.old.engine.lanes.items →
        AreKept pieces kept (kept_for driver.old.engine.closed driver.old.engine.kept window) →
        AdmitTheSame queries pieces answers.parts (parts_from queries kept tuples 0 plan.now)) }
    ensures recalls { IfOk result (λ answers. (typed_for : ℕ) (tables : Tables) (pieces : List Placed) (kept : Source → Set) (tuples : List (List ℕ)) →
        let queries = driver.old.engine.t.queries in
        ∥ IsTyped typed_for queries ∥₁ → AllByRecursion (CanMake queries) pieces → AllByRecursion HasWidths tuples →
        AreHeard plan.now queries tables pieces kept tuples driver.old.emitter driver.old.engine.lanes.items →
        Recalls queries pieces (Some answers) driver.new.engine.closed driver.new.engine.kept) }
    ensures empty { OnOk result ((typed_for : ℕ) (tables : Tables) (pieces : List Placed) (kept : Source → Set) (tuples : List (List ℕ)) →
        let queries = driver.old.engine.t.queries in
        ∥ IsTyped typed_for queries ∥₁ → AllByRecursion (CanMake queries) pieces → AllByRecursion HasWidths tuples →
        AreHeard plan.now queries tables pieces kept tuples driver.old.emitter driver.old.engine.lanes.items →
        AreLanesOf queries tables pieces driver.old.emitter → AreIdle queries tables pieces driver.new.emitter driver.new.engine.lanes.items) }
    ensures sent { OnOk result (bytes.new.items ≡ bytes.old.items ++ flat_map (spelling 2) (flat_map (λ s. frames_left s window) driver.old.emitter)) }
    ensures count { OnOk result (length driver.new.emitter ≡ length driver.old.emitter) }
    ensures queries { OnOk result (driver.new.engine.t.queries ≡ driver.old.engine.t.queries) }
    ensures sources { driver.new.sources ≡ driver.old.sources }
{
    drain_lanes(plan, &mut driver.emitter, &mut driver.engine, bytes, window)?;
    driver.finish(window)
}
