//! A plan at work, window by window.
ghost use Rattle.std.specs.Prelude.{◌≡◌, ◌<◌, ◌≤◌, ◌++◌, ◌∷◌, [], ℕ, List, None, Some, length, map, IfOk, OnOk};
ghost use Rattle.std.specs.List.{AllByRecursion, flat_map};
ghost use Rattle.sn_engine_lockstep.specs.declared.source.Source.{Source};
ghost use Rattle.sn_engine_lockstep.specs.Early.{early_total};
ghost use Rattle.sn_engine_lockstep.specs.Sources.{kept_in, source_of, sources_of};
ghost use Rattle.sn_engine_lockstep.specs.Work.{AreAtWork, AreIdle, AreKept, AreUnread, Recalls, done, frames_given, lanes_left, left_done};
ghost use Rattle.sn_emit.specs.Making.{CanMake};
ghost use Rattle.sn_emit.specs.Plans.{AreLanesOf, AreNewLanes, Placed, pieces_from, tables_of};
ghost use Rattle.sn_emit.specs.Senders.{frames_left};
ghost use Rattle.sn_emit.specs.declared.tables.Tables.{Tables};
ghost use Rattle.sn_engine.specs.Answers.{parts_of, window_of};
ghost use Rattle.sn_engine.specs.Keeping.{gathered, kept_for};
ghost use Rattle.sn_engine.specs.Intakes.{emptied, intakes_of, total};
ghost use Rattle.sn_plan_fit.specs.Fits.{Fits, HasShape};
ghost use Rattle.sn_refine.specs.Steps.{Set};
ghost use Rattle.sn_switch.specs.Texts.{IsSwitch};
ghost use Rattle.sn_types.specs.Typed.{HasWidths, IsTyped};
ghost use Rattle.sn_types.specs.declared.typed_query.TypedQuery.{TypedQuery};

use crate::early::early_total;
use crate::lanes::{begin_lanes, close, drain_lanes, give_lanes};
use crate::source::{Source, sources};
use crate::wire::Wire;
use sn_base::memory::Memory;
use sn_base::seq::Seq;
use sn_emit::given::Given;
use sn_emit::lanes::Emitter;
use sn_emit::tables::Tables;
use sn_engine::engine::Engine;
use sn_fields::tuple::Tuple;
use sn_plan_grammar::plan::Plan;
use sn_switch::switch::Switch;
use sn_types::answers::Answers;
use sn_types::typed::Typed;
use std::alloc::Global;

/// The lanes of a plan, and the engine that takes what they send at once.
///
/// A window is begun, its tuples are given in their order, and then it is closed. After an `Err` nothing is known of it.
#[derive(Drop)]
pub struct Driver {
    pub alloc: Global,
    /// By lane: whose prefixes it admits.
    pub sources: Seq<Source>,
    pub emitter: Emitter,
    pub engine: Engine,
    /// Where a lane writes what it gives for a tuple, before the engine takes it. What stands there is of no account after that.
    pub place: Given,
}

impl Driver {
    /// The lanes and the engine of a plan that fits. No window was begun.
    pub fn make(t: &Typed, s: &Switch, plan: &Plan) -> Result<Driver, Memory>
        requires switch { IsSwitch s.now }
        requires fits { Fits t.now.queries s.now plan.now.entries }
        ensures queries { IfOk result (λ driver. driver.engine.t.queries ≡ t.now.queries) }
        ensures sources { IfOk result (λ driver. driver.sources ≡ sources_of 0 plan.now.entries) }
        ensures lanes { IfOk result (λ driver. AreNewLanes t.now.queries (tables_of s.now) (pieces_from 0 plan.now.entries) driver.emitter) }
        ensures empty { IfOk result (λ driver. driver.engine.lanes.items ≡ intakes_of 0 plan.now.entries) }
        ensures closed { IfOk result (λ driver. driver.engine.closed ≡ None) }
        ensures many { IfOk result (λ driver. length driver.sources ≡ length driver.emitter) }
        ensures known { IfOk result (λ driver. AllByRecursion (λ source. source.query < length driver.engine.t.queries) driver.sources) }
    {
        let tables = Tables::of(s);
        Driver::of(t, tables, plan)
    }

    /// The lanes and the engine of pieces that can be made, in a switch with this room. No window was begun.
    pub fn of(t: &Typed, tables: Tables, plan: &Plan) -> Result<Driver, Memory>
        requires some_depth { 1 ≤ tables.depth }
        requires most_depth { tables.depth ≤ 4 }
        requires shape { HasShape t.now.queries plan.now.entries }
        requires most { length (pieces_from 0 plan.now.entries) ≤ 64 }
        requires can { AllByRecursion (CanMake t.now.queries) (pieces_from 0 plan.now.entries) }
        ensures queries { IfOk result (λ driver. driver.engine.t.queries ≡ t.now.queries) }
        ensures sources { IfOk result (λ driver. driver.sources ≡ sources_of 0 plan.now.entries) }
        ensures lanes { IfOk result (λ driver. AreNewLanes t.now.queries tables (pieces_from 0 plan.now.entries) driver.emitter) }
        ensures empty { IfOk result (λ driver. driver.engine.lanes.items ≡ intakes_of 0 plan.now.entries) }
        ensures closed { IfOk result (λ driver. driver.engine.closed ≡ None) }
        ensures many { IfOk result (λ driver. length driver.sources ≡ length driver.emitter) }
        ensures known { IfOk result (λ driver. AllByRecursion (λ source. source.query < length driver.engine.t.queries) driver.sources) }
    {
        let sources = sources(t.alloc, plan.entries.as_slice())?;
        let emitter = Emitter::of(t, tables, plan)?;
        let engine = Engine::make(t.alloc, t, plan)?;
        Ok(Driver {
            alloc: t.alloc,
            sources,
            emitter,
            engine,
            place: Given::unsent(),
        })
    }

    /// Begins a window, `last` being the answers of the last one before it. Each lane admits the prefixes that its source
    /// answered, where that was the window before this one.
    pub fn begin(&mut self, last: &Option<Answers>, window: u64) -> Result<(), Memory>
        requires many { length self.old.sources ≡ length self.old.emitter }
        requires known { AllByRecursion (λ source. source.query < length self.old.engine.t.queries) self.old.sources }
        ensures work { OnOk result ((tables : Tables) (pieces : List Placed) → self.old.sources ≡ map source_of pieces →
            AreIdle self.old.engine.t.queries tables pieces self.old.emitter self.old.engine.lanes.items →
            AreAtWork self.old.engine.t.queries tables pieces
            (kept_in self.old.engine.t.queries last.now window) [] self.new.emitter self.new.engine.lanes.items) }
        ensures unread { OnOk result (AreUnread self.new.emitter) }
        ensures lanes { OnOk result ((queries : List TypedQuery) (tables : Tables) (pieces : List Placed) → AreLanesOf queries tables pieces self.old.emitter →
            AreLanesOf queries tables pieces self.new.emitter) }
        ensures count { OnOk result (length self.new.emitter ≡ length self.old.emitter) }
        ensures queries { self.new.engine.t.queries ≡ self.old.engine.t.queries }
        ensures closed { self.new.engine.closed ≡ self.old.engine.closed }
        ensures prefixes { self.new.engine.kept ≡ self.old.engine.kept }
        ensures sources { self.new.sources ≡ self.old.sources }
    {
        let engine = &self.engine;
        begin_lanes(
            self.alloc,
            &engine.t,
            self.sources.as_slice(),
            &mut self.emitter,
            last,
            window,
        )
    }

    /// Gives a tuple of the window to all lanes. The engine takes what they send, and the wire is reported of it.
    pub fn packet<W: Wire>(&mut self, wire: &mut W, tuple: &Tuple) -> Result<(), Memory>
        requires { AreUnread self.old.emitter }
        ensures work { OnOk result ((queries : List TypedQuery) (tables : Tables) (pieces : List Placed) (kept : Source → Set) (tuples : List (List ℕ)) →
            AreAtWork queries tables pieces kept tuples self.old.emitter self.old.engine.lanes.items →
            AreAtWork queries tables pieces kept (tuples ++ tuple.now ∷ []) self.new.emitter self.new.engine.lanes.items) }
        ensures sent { OnOk result (W.reported wire.new ≡ W.reported wire.old ++ flat_map W.word (flat_map (frames_given tuple.now) self.old.emitter)) }
        ensures unread { OnOk result (AreUnread self.new.emitter) }
        ensures lanes { OnOk result ((queries : List TypedQuery) (tables : Tables) (pieces : List Placed) → AreLanesOf queries tables pieces self.old.emitter →
            AreLanesOf queries tables pieces self.new.emitter) }
        ensures count { OnOk result (length self.new.emitter ≡ length self.old.emitter) }
        ensures queries { self.new.engine.t.queries ≡ self.old.engine.t.queries }
        ensures closed { self.new.engine.closed ≡ self.old.engine.closed }
        ensures prefixes { self.new.engine.kept ≡ self.old.engine.kept }
        ensures sources { self.new.sources ≡ self.old.sources }
    {
        give_lanes(
            &mut self.emitter,
            &mut self.engine,
            wire,
            tuple,
            &mut self.place,
        )
    }

    /// Reads all lanes out. The engine takes what they send, and the wire is reported of it. Then the engine holds all items of the
    /// window.
    pub fn drain<W: Wire>(&mut self, wire: &mut W, window: u64) -> Result<(), Memory>
        ensures items { OnOk result ((typed_for : ℕ) (tables : Tables) (queries : List TypedQuery) (pieces : List Placed) (kept : Source → Set)
            (tuples : List (List ℕ)) →
            ∥ IsTyped typed_for queries ∥₁ → AllByRecursion (CanMake queries) pieces → AllByRecursion HasWidths tuples →
            AreAtWork queries tables pieces kept tuples self.old.emitter self.old.engine.lanes.items →
            self.new.engine.lanes.items ≡ map (done queries tables kept tuples window) pieces) }
        ensures sent { OnOk result (W.reported wire.new ≡ W.reported wire.old ++ flat_map W.word (flat_map (λ s. frames_left s window) self.old.emitter)) }
        ensures lanes { OnOk result ((queries : List TypedQuery) (tables : Tables) (pieces : List Placed) → AreLanesOf queries tables pieces self.old.emitter →
            AreLanesOf queries tables pieces self.new.emitter) }
        ensures count { OnOk result (length self.new.emitter ≡ length self.old.emitter) }
        ensures queries { self.new.engine.t.queries ≡ self.old.engine.t.queries }
        ensures closed { self.new.engine.closed ≡ self.old.engine.closed }
        ensures prefixes { self.new.engine.kept ≡ self.old.engine.kept }
        ensures sources { self.new.sources ≡ self.old.sources }
    {
        drain_lanes(&mut self.emitter, &mut self.engine, wire, window)
    }

    /// How many of the items that the engine holds left the switch before the cut of their piece.
    pub fn early(&self) -> u64
        ensures { result ≡ early_total self.now.engine.lanes.items }
    {
        // this counts all items, so the sum of the early ones is a u64
        let _most = self.engine.count;
        early_total(&self.engine.lanes)
    }

    /// Answers the window, whose lanes were read out: what the engine holds. It is then empty.
    pub fn finish(&mut self, window: u64) -> Result<Answers, Memory>
        ensures window { IfOk result (λ answers. answers.window ≡ window) }
        ensures emitted { IfOk result (λ answers. answers.emitted ≡ total self.old.engine.lanes.items) }
        ensures parts { IfOk result (λ answers. answers.parts ≡ parts_of self.old.engine.t.queries
            (lanes_left self.old.engine.t.queries self.old.engine.closed self.old.engine.kept self.old.engine.lanes.items)) }
        ensures closed { OnOk result (self.new.engine.closed ≡ Some (window_of self.old.engine.lanes.items)) }
        ensures prefixes { IfOk result (λ answers. self.new.engine.kept ≡ gathered self.old.engine.t.queries answers.parts self.old.engine.lanes.items) }
        ensures emptied { OnOk result (self.new.engine.lanes.items ≡ map emptied self.old.engine.lanes.items) }
        ensures lanes { self.new.emitter ≡ self.old.emitter }
        ensures queries { self.new.engine.t.queries ≡ self.old.engine.t.queries }
        ensures sources { self.new.sources ≡ self.old.sources }
    {
        let answers = close(&mut self.engine)?;
        Ok(Answers {
            window,
            emitted: answers.emitted,
            parts: answers.parts,
        })
    }

    /// Reads all lanes out, and answers the window. The engine takes what they send, and the wire is reported of it.
    pub fn close<W: Wire>(&mut self, wire: &mut W, window: u64) -> Result<Answers, Memory>
        ensures window { IfOk result (λ answers. answers.window ≡ window) }
        ensures answers { IfOk result (λ answers. (typed_for : ℕ) (tables : Tables) (pieces : List Placed) (kept : Source → Set) (tuples : List (List ℕ)) →
            let queries = self.old.engine.t.queries in
            ∥ IsTyped typed_for queries ∥₁ → AllByRecursion (CanMake queries) pieces → AllByRecursion HasWidths tuples →
            AreAtWork queries tables pieces kept tuples self.old.emitter self.old.engine.lanes.items →
            (answers.emitted ≡ total (map (done queries tables kept tuples window) pieces)) ×
            (AreKept pieces kept (kept_for self.old.engine.closed self.old.engine.kept window) →
            answers.parts ≡ parts_of queries (map (left_done queries tables kept tuples window) pieces))) }
        ensures recalls { IfOk result (λ answers. (typed_for : ℕ) (tables : Tables) (pieces : List Placed) (kept : Source → Set) (tuples : List (List ℕ)) →
            let queries = self.old.engine.t.queries in
            ∥ IsTyped typed_for queries ∥₁ → AllByRecursion (CanMake queries) pieces → AllByRecursion HasWidths tuples →
            AreAtWork queries tables pieces kept tuples self.old.emitter self.old.engine.lanes.items →
            Recalls queries pieces (Some answers) self.new.engine.closed self.new.engine.kept) }
        ensures empty { OnOk result ((typed_for : ℕ) (tables : Tables) (pieces : List Placed) (kept : Source → Set) (tuples : List (List ℕ)) →
            let queries = self.old.engine.t.queries in
            ∥ IsTyped typed_for queries ∥₁ → AllByRecursion (CanMake queries) pieces → AllByRecursion HasWidths tuples →
            AreAtWork queries tables pieces kept tuples self.old.emitter self.old.engine.lanes.items →
            AreLanesOf queries tables pieces self.old.emitter → AreIdle queries tables pieces self.new.emitter self.new.engine.lanes.items) }
        ensures sent { OnOk result (W.reported wire.new ≡ W.reported wire.old ++ flat_map W.word (flat_map (λ s. frames_left s window) self.old.emitter)) }
        ensures count { OnOk result (length self.new.emitter ≡ length self.old.emitter) }
        ensures queries { OnOk result (self.new.engine.t.queries ≡ self.old.engine.t.queries) }
        ensures sources { self.new.sources ≡ self.old.sources }
    {
        self.drain(wire, window)?;
        self.finish(window)
    }
}
