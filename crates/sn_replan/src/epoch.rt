//! Windows under one plan.
ghost use Rattle.std.specs.Prelude.{◌≡◌, length};
ghost use Rattle.sn_engine_lockstep.specs.Known.{AreKnown, are_known_prop};
ghost use Rattle.sn_emit.specs.declared.tables.Tables.{Tables};
ghost use Rattle.sn_emit.specs.Plans.{tables_of};

use crate::copies::copy_answers;
use crate::give::give;
use sn_base::memory::Memory;
use sn_engine_lockstep::driver::Driver;
use sn_engine_lockstep::wire::Nobody;
use sn_fields::tuple::Tuple;
use sn_plan_grammar::plan::Plan;
use sn_switch::switch::Switch;
use sn_types::answers::Answers;
use sn_types::typed::Typed;

/// What a window was answered.
#[derive(Drop)]
pub struct Closed {
    pub answers: Answers,
    /// How many of the items that were sent left the switch before the cut of their piece.
    pub early: u64,
    /// Whether these are more than what was said to be the most.
    pub over: bool,
}

/// A plan at work, between two windows.
#[derive(Drop)]
pub struct Epoch {
    pub driver: Driver,
    /// The answers of the last window since the plan was put in place.
    pub last: Option<Answers>,
    ghost many: { length driver.sources ≡ length driver.emitter },
    ghost known: { AreKnown driver.engine.t.queries driver.sources } by { are_known_prop driver.engine.t.queries driver.sources },
}

impl Epoch {
    ghost use Rattle.std.specs.Prelude.{◌++◌, ◌∷◌, [], ℕ, nat_lt, List, None, Some, IfOk};
    ghost use Rattle.sn_engine_lockstep.specs.Early.{plan_early};
    ghost use Rattle.sn_engine_lockstep.specs.Windows.{plan_answers, window_of};
    ghost use Rattle.sn_plan_fit.specs.Fits.{Fits};
    ghost use Rattle.sn_plan_grammar.specs.declared.plan.Entry.{Entry};
    ghost use Rattle.sn_refine.specs.Steps.{windows_of};
    ghost use Rattle.sn_replan.specs.Resting.{Rests};
    ghost use Rattle.sn_switch.specs.Texts.{IsSwitch};
    ghost use Rattle.sn_types.specs.declared.typed_query.TypedQuery.{TypedQuery};
    ghost use Rattle.sn_windows.specs.Rising.{IsAbove, Window};

    /// A plan that fits, before its first window.
    pub(crate) fn make(t: &Typed, s: &Switch, plan: &Plan) -> Result<Epoch, Memory>
        requires switch { IsSwitch s.now }
        requires fits { Fits t.now.queries s.now plan.now.entries }
        ensures rests { IfOk result (λ epoch. Rests t.now.queries (tables_of s.now) plan.now.entries [] epoch.driver epoch.last) }
        ensures last { IfOk result (λ epoch. epoch.last ≡ None) }
    {
        let driver = Driver::make(t, s, plan)?;
        Ok(Epoch { driver, last: None })
    }

    /// Answers a window, with how many items were early.
    pub(crate) fn window(
        self,
        most: u64,
        w: u64,
        tuples: &[Tuple],
    ) -> Result<(Epoch, Closed), Memory>
        requires { IsAbove (window_of self.last) w }
        ensures answers { IfOk result (λ both. (queries : List TypedQuery) (tables : Tables) (entries : List Entry) (windows : List Window) →
            Rests queries tables entries windows self.driver self.last →
            both.1.answers ≡ plan_answers queries tables entries (windows_of (windows ++ (w, tuples.now) ∷ [])) w) }
        ensures early { IfOk result (λ both. (queries : List TypedQuery) (tables : Tables) (entries : List Entry) (windows : List Window) →
            Rests queries tables entries windows self.driver self.last →
            both.1.early ≡ plan_early queries tables entries (windows_of (windows ++ (w, tuples.now) ∷ [])) w) }
        ensures over { IfOk result (λ both. both.1.over ≡ nat_lt most both.1.early) }
        ensures rests { IfOk result (λ both. (queries : List TypedQuery) (tables : Tables) (entries : List Entry) (windows : List Window) →
            Rests queries tables entries windows self.driver self.last →
            Rests queries tables entries (windows ++ (w, tuples.now) ∷ []) both.0.driver both.0.last) }
        ensures last { IfOk result (λ both. window_of both.0.last ≡ Some w) }
    {
        let last = self.last;
        let mut driver = self.driver;
        driver.begin(&last, w)?;
        give(&mut driver, tuples)?;
        driver.drain(&mut Nobody, w)?;
        let early = driver.early();
        let answers = driver.finish(w)?;
        let copied = copy_answers(driver.alloc, &answers)?;
        let over = most < early;
        Ok((
            Epoch {
                driver,
                last: Some(copied),
            },
            Closed {
                answers,
                early,
                over,
            },
        ))
    }
}
