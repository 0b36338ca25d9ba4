//! Windows one after another, under plans that the caller puts in place.

use crate::epoch::{Closed, Epoch};
use sn_base::memory::Memory;
use sn_fields::tuple::Tuple;
use sn_plan_grammar::plan::Plan;
use sn_switch::switch::Switch;
use sn_types::typed::Typed;

/// Epochs one after another. Each is a run of windows under one plan, and begins without answers before its first window.
///
/// The caller is reported where a window was over, and may then put another plan in place.
#[derive(Drop)]
pub struct Epochs {
    /// The current one. `None` once memory ran out: then each call answers `Memory`.
    pub epoch: Option<Epoch>,
    /// How many items of a window may leave the switch before the cut of their piece.
    pub most: u64,
}

impl Epochs {
    ghost use Rattle.std.specs.Prelude.{◌≡◌, ◌++◌, ◌∷◌, [], ℕ, nat_lt, List, None, Some, IsSome, IfOk, OnOk, OnErr};
    ghost use Rattle.sn_engine_lockstep.specs.Early.{plan_early};
    ghost use Rattle.sn_engine_lockstep.specs.Windows.{plan_answers};
    ghost use Rattle.sn_plan_fit.specs.Fits.{Fits};
    ghost use Rattle.sn_plan_grammar.specs.declared.plan.Entry.{Entry};
    ghost use Rattle.sn_refine.specs.Steps.{windows_of};
    ghost use Rattle.sn_replan.specs.Running.{Runs, last_window};
    ghost use Rattle.sn_switch.specs.Texts.{IsSwitch};
    ghost use Rattle.sn_types.specs.declared.typed_query.TypedQuery.{TypedQuery};
    ghost use Rattle.sn_windows.specs.Rising.{IsAbove, Window};
    ghost use Rattle.sn_emit.specs.declared.tables.Tables.{Tables};
    ghost use Rattle.sn_emit.specs.Plans.{tables_of};

    /// The first epoch, along a plan that fits, before its first window. A window is over where more than `most` of its items
    /// leave the switch before the cut of their piece.
    pub fn make(t: &Typed, s: &Switch, plan: &Plan, most: u64) -> Result<Epochs, Memory>
        requires switch { IsSwitch s.now }
        requires fits { Fits t.now.queries s.now plan.now.entries }
        ensures runs { IfOk result (λ epochs. Runs t.now.queries (tables_of s.now) plan.now.entries [] epochs) }
        ensures last { IfOk result (λ epochs. last_window epochs ≡ None) }
        ensures most { IfOk result (λ epochs. epochs.most ≡ most) }
    {
        let epoch = Epoch::make(t, s, plan)?;
        Ok(Epochs {
            epoch: Some(epoch),
            most,
        })
    }

    /// Answers the next window, along the plan that was put in place last. An `Err` is out of memory, and then each later call
    /// answers it too.
    pub fn window(&mut self, w: u64, tuples: &[Tuple]) -> Result<Closed, Memory>
        requires { IsAbove (last_window self.old) w }
        ensures answers { IfOk result (λ closed. (queries : List TypedQuery) (tables : Tables) (entries : List Entry) (windows : List Window) →
            Runs queries tables entries windows self.old →
            closed.answers ≡ plan_answers queries tables entries (windows_of (windows ++ (w, tuples.now) ∷ [])) w) }
        ensures early { IfOk result (λ closed. (queries : List TypedQuery) (tables : Tables) (entries : List Entry) (windows : List Window) →
            Runs queries tables entries windows self.old →
            closed.early ≡ plan_early queries tables entries (windows_of (windows ++ (w, tuples.now) ∷ [])) w) }
        ensures over { IfOk result (λ closed. closed.over ≡ nat_lt self.old.most closed.early) }
        ensures runs { OnOk result ((queries : List TypedQuery) (tables : Tables) (entries : List Entry) (windows : List Window) →
            Runs queries tables entries windows self.old → Runs queries tables entries (windows ++ (w, tuples.now) ∷ []) self.new) }
        ensures last { OnOk result (last_window self.new ≡ Some w) }
        ensures dead { OnErr result (self.new.epoch ≡ None) }
        ensures alive { OnOk result (IsSome self.old.epoch) }
        ensures most { self.new.most ≡ self.old.most }
    {
        match self.epoch.take() {
            Some(epoch) => {
                let (epoch, closed) = epoch.window(self.most, w, tuples)?;
                self.epoch = Some(epoch);
                Ok(closed)
            }
            None => Err(Memory),
        }
    }

    /// Begins the next epoch, along a plan that fits. An `Err` is out of memory, and then each later call answers it too.
    pub fn renew(&mut self, t: &Typed, s: &Switch, plan: &Plan) -> Result<(), Memory>
        requires switch { IsSwitch s.now }
        requires fits { Fits t.now.queries s.now plan.now.entries }
        ensures runs { OnOk result (Runs t.now.queries (tables_of s.now) plan.now.entries [] self.new) }
        ensures last { OnOk result (last_window self.new ≡ None) }
        ensures dead { OnErr result (self.new.epoch ≡ None) }
        ensures alive { OnOk result (IsSome self.old.epoch) }
        ensures most { self.new.most ≡ self.old.most }
    {
        match self.epoch.take() {
            Some(_) => {
                self.epoch = Some(Epoch::make(t, s, plan)?);
                Ok(())
            }
            None => Err(Memory),
        }
    }
}
