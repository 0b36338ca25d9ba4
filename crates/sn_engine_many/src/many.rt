//! Several switches that run one plan and answer as one.
ghost use Rattle.std.specs.Prelude.{◌≡◌, ◌<◌, ◌≤◌, ℕ, List, IfOk, IsErr, OnOk, OnErr, Some, None, false, length};
ghost use Rattle.std.specs.List.{AllByRecursion};
ghost use Rattle.sn_emit.specs.Making.{CanMake};
ghost use Rattle.sn_emit.specs.Plans.{pieces_from, tables_of};
ghost use Rattle.sn_emit.specs.declared.tables.Tables.{Tables};
ghost use Rattle.sn_engine_lockstep.specs.Sources.{kept_in};
ghost use Rattle.sn_engine_lockstep.specs.Windows.{parts_from};
ghost use Rattle.sn_engine_lockstep.specs.declared.source.Source.{Source};
ghost use Rattle.sn_engine_many.specs.Answers.{shared_sent};
ghost use Rattle.sn_engine_many.specs.Phases.{AreBegun, AreBetween, AreReady, are_ready_prop, is_begun, is_between};
ghost use Rattle.sn_engine_many.specs.Switches.{CanBegin, IsResting, given_to, no_tuples};
ghost use Rattle.sn_engine_many.specs.declared.phase.Phase.TheVariants as Phase;
ghost use Rattle.sn_multi.specs.Branches.{together};
ghost use Rattle.sn_plan_fit.specs.Fits.{AreEntriesOf, Fits, HasShape};
ghost use Rattle.sn_plan_grammar.specs.declared.plan.Entry.{Entry};
ghost use Rattle.sn_refine.specs.Steps.{Set};
ghost use Rattle.sn_switch.specs.Texts.{IsSwitch};
ghost use Rattle.sn_types.specs.Typed.{HasWidths, IsTyped};
ghost use Rattle.sn_types.specs.declared.typed_query.TypedQuery.{TypedQuery};

use crate::copies::copy_answers;
use crate::gather::{close, end_lanes};
use crate::phase::Phase;
use crate::short::short_plan;
use crate::switches::{begin_all, drain_all, give_one};
use sn_base::memory::Memory;
use sn_emit::tables::Tables;
use sn_engine::engine::Engine;
use sn_engine_lockstep::driver::Driver;
use sn_fields::tuple::Tuple;
use sn_plan_grammar::plan::Plan;
use sn_switch::switch::Switch;
use sn_types::answers::Answers;
use sn_types::typed::Typed;
use std::alloc::Global;

/// Several switches that run one plan, each on its own packets, and one engine that answers for them all.
///
/// A window is begun, its tuples are given, in any order between the switches, and then it is closed. Its answers are those of the
/// plan to the tuples of all switches together. After `Memory` each later call answers `Memory`.
#[derive(Drop)]
pub struct Many {
    pub alloc: Global,
    pub phase: Phase,
    /// By their numbers. Each runs a branch up to its first operator with registers, and gathers in an engine of its own what it sends
    /// in a window.
    pub switches: Vec<Driver>,
    /// Takes what all switches have gathered, when a window is closed.
    pub engine: Engine,
    /// The answers of the window that was closed last. The engine keeps their prefixes.
    pub last: Option<Answers>,
    ghost ready: { AreReady phase switches.items } by { are_ready_prop phase switches.items },
}

/// A switch that runs these pieces. No window was begun.
fn switch_of(t: &Typed, tables: Tables, short: &Plan) -> Result<Driver, Memory>
    requires some_depth { 1 ≤ tables.depth }
    requires most_depth { tables.depth ≤ 4 }
    requires shape { HasShape t.now.queries short.now.entries }
    requires most { length (pieces_from 0 short.now.entries) ≤ 64 }
    requires can { AllByRecursion (CanMake t.now.queries) (pieces_from 0 short.now.entries) }
    ensures can { IfOk result CanBegin }
    ensures resting { IfOk result (IsResting t.now.queries tables (pieces_from 0 short.now.entries)) }
{
    let switch = Driver::of(t, tables, short)?;
    Ok(switch)
}

/// As many switches as are asked for, each with these pieces.
fn switches_of(t: &Typed, tables: Tables, short: &Plan, count: u32) -> Result<Vec<Driver>, Memory>
    requires some_depth { 1 ≤ tables.depth }
    requires most_depth { tables.depth ≤ 4 }
    requires shape { HasShape t.now.queries short.now.entries }
    requires most { length (pieces_from 0 short.now.entries) ≤ 64 }
    requires can { AllByRecursion (CanMake t.now.queries) (pieces_from 0 short.now.entries) }
    ensures can { IfOk result (λ switches. AllByRecursion CanBegin switches.items) }
    ensures resting { IfOk result (λ switches. AllByRecursion (IsResting t.now.queries tables (pieces_from 0 short.now.entries)) switches.items) }
    ensures count { IfOk result (λ switches. length switches.items ≡ count) }
{
    let mut switches = Vec::new(t.alloc);
    for _ in 0..count {
        let switch = switch_of(t, tables, short)?;
        switches.push(switch)?;
    }
    Ok(switches)
}

/// Reads the switches out, ends each lane once, and answers the window.
fn answer(switches: &mut [Driver], engine: &mut Engine, window: u64) -> Result<Answers, Memory>
    requires { AllByRecursion CanBegin switches.old }
    ensures window { IfOk result (λ answers. answers.window ≡ window) }
    ensures answers { IfOk result (λ answers. (typed_for : ℕ) (tables : Tables) (queries : List TypedQuery) (entries : List Entry)
        (kept : Source → Set) (captures : List (List (List ℕ))) →
        ∥ IsTyped typed_for queries ∥₁ → AreEntriesOf queries entries → AllByRecursion (CanMake queries) (pieces_from 0 entries) →
        AllByRecursion HasWidths (together captures) → engine.old.t.queries ≡ queries →
        AreBegun queries tables entries kept window captures switches.old engine.old →
        (answers.emitted ≡ shared_sent queries tables (pieces_from 0 entries) kept captures) ×
        (answers.parts ≡ parts_from queries kept (together captures) 0 entries)) }
    ensures between { IfOk result (λ answers. (typed_for : ℕ) (tables : Tables) (queries : List TypedQuery) (entries : List Entry)
        (kept : Source → Set) (captures : List (List (List ℕ))) →
        ∥ IsTyped typed_for queries ∥₁ → AreEntriesOf queries entries → AllByRecursion (CanMake queries) (pieces_from 0 entries) →
        AllByRecursion HasWidths (together captures) → engine.old.t.queries ≡ queries →
        AreBegun queries tables entries kept window captures switches.old engine.old →
        AreBetween queries tables entries (Some answers) switches.new engine.new) }
    ensures can { OnOk result (AllByRecursion CanBegin switches.new) }
    ensures count { length switches.new ≡ length switches.old }
    ensures queries { engine.new.t.queries ≡ engine.old.t.queries }
{
    drain_all(switches, engine, window)?;
    // each switch has the lanes of the plan
    let Some((first, _)) = switches.split_first() else {
        return Err(Memory);
    };
    end_lanes(engine, &first.engine.lanes, window)?;
    let answers = close(engine)?;
    Ok(answers)
}

impl Many {
    /// As many switches as `switches` says, each with a plan that fits. No window is begun.
    pub fn make(t: &Typed, s: &Switch, plan: &Plan, switches: u32) -> Result<Many, Memory>
        requires switch { IsSwitch s.now }
        requires fits { Fits t.now.queries s.now plan.now.entries }
        ensures queries { IfOk result (λ many. many.engine.t.queries ≡ t.now.queries) }
        ensures between { IfOk result (λ many. AreBetween t.now.queries (tables_of s.now) plan.now.entries None many.switches.items many.engine) }
        ensures count { IfOk result (λ many. length many.switches.items ≡ switches) }
        ensures phase { IfOk result (λ many. many.phase ≡ Phase.Between) }
        ensures last { IfOk result (λ many. many.last ≡ None) }
    {
        let tables = Tables::of(s);
        let short = short_plan(t, plan)?;
        let switches = switches_of(t, tables, &short, switches)?;
        let engine = Engine::make_many(t.alloc, t, plan)?;
        Ok(Many {
            alloc: t.alloc,
            phase: Phase::Between,
            switches,
            engine,
            last: None,
        })
    }

    /// Begins a window, where none is begun, with a number above that of the last one. Each lane admits the prefixes that the level
    /// before answered, where the last window was the one before this one.
    pub fn begin(&mut self, window: u64) -> Result<(), Memory>
        requires { is_begun self.old.phase ≡ false }
        ensures begun { OnOk result (self.new.phase ≡ Phase.Begun window) }
        ensures work { OnOk result ((queries : List TypedQuery) (tables : Tables) (entries : List Entry) →
            AreBetween queries tables entries self.old.last self.old.switches.items self.old.engine →
            AreBegun queries tables entries (kept_in queries self.old.last window) window (no_tuples self.old.switches.items)
            self.new.switches.items self.new.engine) }
        ensures spent { self.old.phase ≡ Phase.Spent → IsErr result }
        ensures failed { OnErr result (self.new.phase ≡ Phase.Spent) }
        ensures last { self.new.last ≡ self.old.last }
        ensures count { length self.new.switches.items ≡ length self.old.switches.items }
        ensures queries { self.new.engine.t.queries ≡ self.old.engine.t.queries }
    {
        match self.phase {
            Phase::Between => {
                self.phase = Phase::Spent;
                begin_all(&mut self.switches, &self.last, window)?;
                self.phase = Phase::Begun(window);
                Ok(())
            }
            Phase::Spent => Err(Memory),
            Phase::Begun(_) => unreachable!(),
        }
    }

    /// Gives a tuple of the window that is begun to the switch of this number.
    pub fn packet(&mut self, switch: u32, tuple: &Tuple) -> Result<(), Memory>
        requires begun { is_between self.old.phase ≡ false }
        requires switch { switch < length self.old.switches.items }
        ensures work { OnOk result ((queries : List TypedQuery) (tables : Tables) (entries : List Entry) (kept : Source → Set) (window : ℕ)
            (captures : List (List (List ℕ))) →
            AreBegun queries tables entries kept window captures self.old.switches.items self.old.engine →
            AreBegun queries tables entries kept window (given_to switch tuple.now captures) self.new.switches.items self.new.engine) }
        ensures phase { OnOk result (self.new.phase ≡ self.old.phase) }
        ensures spent { self.old.phase ≡ Phase.Spent → IsErr result }
        ensures failed { OnErr result (self.new.phase ≡ Phase.Spent) }
        ensures last { self.new.last ≡ self.old.last }
        ensures count { length self.new.switches.items ≡ length self.old.switches.items }
        ensures queries { self.new.engine.t.queries ≡ self.old.engine.t.queries }
    {
        match self.phase {
            Phase::Begun(window) => {
                self.phase = Phase::Spent;
                give_one(&mut self.switches[switch as usize], tuple)?;
                self.phase = Phase::Begun(window);
                Ok(())
            }
            Phase::Spent => Err(Memory),
            Phase::Between => unreachable!(),
        }
    }

    /// Reads out all switches in order, gives each lane one End, and answers the window: its answers are those of the plan to the
    /// tuples of all switches together, and the number of items is that of all switches. Where a table stays open, items of other
    /// prefixes come too: they are counted, and then dropped.
    pub fn close_window(&mut self) -> Result<Answers, Memory>
        requires { is_between self.old.phase ≡ false }
        ensures window { IfOk result (λ answers. self.old.phase ≡ Phase.Begun answers.window) }
        ensures answers { IfOk result (λ answers. (typed_for : ℕ) (tables : Tables) (entries : List Entry) (kept : Source → Set)
            (captures : List (List (List ℕ))) →
            let queries = self.old.engine.t.queries in
            ∥ IsTyped typed_for queries ∥₁ → AreEntriesOf queries entries → AllByRecursion (CanMake queries) (pieces_from 0 entries) →
            AllByRecursion HasWidths (together captures) →
            AreBegun queries tables entries kept answers.window captures self.old.switches.items self.old.engine →
            (answers.emitted ≡ shared_sent queries tables (pieces_from 0 entries) kept captures) ×
            (answers.parts ≡ parts_from queries kept (together captures) 0 entries)) }
        ensures between { IfOk result (λ answers. (typed_for : ℕ) (tables : Tables) (entries : List Entry) (kept : Source → Set)
            (captures : List (List (List ℕ))) →
            let queries = self.old.engine.t.queries in
            ∥ IsTyped typed_for queries ∥₁ → AreEntriesOf queries entries → AllByRecursion (CanMake queries) (pieces_from 0 entries) →
            AllByRecursion HasWidths (together captures) →
            AreBegun queries tables entries kept answers.window captures self.old.switches.items self.old.engine →
            AreBetween queries tables entries (Some answers) self.new.switches.items self.new.engine) }
        ensures phase { OnOk result (self.new.phase ≡ Phase.Between) }
        ensures last { IfOk result (λ answers. self.new.last ≡ Some answers) }
        ensures spent { self.old.phase ≡ Phase.Spent → IsErr result }
        ensures failed { OnErr result (self.new.phase ≡ Phase.Spent) }
        ensures count { length self.new.switches.items ≡ length self.old.switches.items }
        ensures queries { self.new.engine.t.queries ≡ self.old.engine.t.queries }
    {
        match self.phase {
            Phase::Begun(window) => {
                self.phase = Phase::Spent;
                let answers = answer(&mut self.switches, &mut self.engine, window)?;
                self.last = Some(copy_answers(self.alloc, &answers)?);
                self.phase = Phase::Between;
                Ok(answers)
            }
            Phase::Spent => Err(Memory),
            Phase::Between => unreachable!(),
        }
    }
}
