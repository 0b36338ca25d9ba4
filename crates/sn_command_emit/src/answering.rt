//! A plan reports the windows of a capture.
ghost use Rattle.std.specs.Prelude.{◌≡◌, ◌++◌, ◌∷◌, [], ℕ, List, None, IfOk, OnOk};
ghost use Rattle.sn_command_capture.specs.Wording.{Holds};
ghost use Rattle.sn_command_emit.specs.Reporting.{IsAtHand, IsIdle, Rests, plan_of};
ghost use Rattle.sn_command_emit.specs.Sent.{frames_block};
ghost use Rattle.sn_plan_fit.specs.Fits.{Fits};
ghost use Rattle.sn_switch.specs.Texts.{IsSwitch};
ghost use Rattle.sn_windows.specs.Rising.{AreRising, Window};
ghost use Rattle.sn_emit.specs.Plans.{tables_of};

use crate::reporter::Reporter;
use sn_base::memory::Memory;
use sn_base::seq::Seq;
use sn_command_capture::answering::Answering;
use sn_command_capture::stop::Stop;
use sn_emit::tables::Tables;
use sn_engine_asked::window::{close, packet};
use sn_engine_lockstep::driver::Driver;
use sn_fields::tuple::Tuple;
use sn_pcap::packet::Ending;
use sn_plan_grammar::plan::Plan;
use sn_switch::switch::Switch;
use sn_types::typed::Typed;
use std::mem;

impl Reporter {
    /// A plan that fits, before any window.
    pub fn make(typed: Typed, switch: &Switch, plan: Plan) -> Result<Reporter, Memory>
        requires switch { IsSwitch switch.now }
        requires fits { Fits typed.queries switch.now plan.entries }
        ensures plan { IfOk result (λ a. plan_of a ≡ record { queries = typed.queries; tables = tables_of switch.now; entries = plan.entries }) }
        ensures begun { IfOk result (λ a. IsAtHand a [] 0 []) }
    {
        let mut reporter = Reporter::new(typed, switch, plan)?;
        reporter.begin(0)?;
        Ok(reporter)
    }

    /// A plan that fits, with no window open.
    fn new(typed: Typed, switch: &Switch, plan: Plan) -> Result<Reporter, Memory>
        requires switch { IsSwitch switch.now }
        requires fits { Fits typed.queries switch.now plan.entries }
        ensures plan { IfOk result (λ a. plan_of a ≡ record { queries = typed.queries; tables = tables_of switch.now; entries = plan.entries }) }
        ensures idle { IfOk result (λ a. IsIdle a []) }
    {
        let driver = Driver::make(&typed, switch, &plan)?;
        let sent = Vec::new(typed.alloc);
        Ok(Reporter {
            typed,
            plan,
            tables: Tables::of(switch),
            driver,
            last: None,
            sent,
        })
    }

    /// Begins a window, whose number is above those before.
    fn begin(&mut self, number: u64) -> Result<(), Memory>
        requires { Rests (IsIdle self.old) }
        ensures begun { OnOk result ((closed : List Window) → IsIdle self.old closed → AreRising None (closed ++ (number, []) ∷ []) →
            IsAtHand self.new closed number []) }
        ensures plan { plan_of self.new ≡ plan_of self.old }
    {
        self.driver.begin(&self.last, number)
    }

    /// Takes the next tuple of the current window.
    fn take(&mut self, tuple: &Tuple) -> Result<(), Memory>
        requires { (number : ℕ) × Holds (IsAtHand self.old) number }
        ensures given { OnOk result ((closed : List Window) (number : ℕ) (tuples : List (List ℕ)) → IsAtHand self.old closed number tuples →
            IsAtHand self.new closed number (tuples ++ tuple.now ∷ [])) }
        ensures plan { plan_of self.new ≡ plan_of self.old }
    {
        tuple.widths();
        let plan = self.plan.entries.as_slice();
        packet(plan, &mut self.driver, &mut self.sent, tuple)
    }

    /// Closes the current window, and gives its frames.
    fn end(&mut self, number: u64) -> Result<Seq<u8>, Memory>
        requires { Holds (IsAtHand self.old) number }
        ensures text { IfOk result (λ text. (closed : List Window) (tuples : List (List ℕ)) → IsAtHand self.old closed number tuples →
            text ≡ frames_block (plan_of self.old) (closed ++ (number, tuples) ∷ []) number tuples) }
        ensures closed { OnOk result ((closed : List Window) (tuples : List (List ℕ)) → IsAtHand self.old closed number tuples →
            IsIdle self.new (closed ++ (number, tuples) ∷ [])) }
        ensures plan { plan_of self.new ≡ plan_of self.old }
    {
        let plan = self.plan.entries.as_slice();
        let answers = close(plan, &mut self.driver, &mut self.sent, number)?;
        self.last = Some(answers);
        let sent = mem::replace(&mut self.sent, Vec::new(self.typed.alloc));
        Ok(Seq::from_vec(sent))
    }
}

impl Answering for Reporter {
    ghost use Rattle.std.specs.Prelude.{refl};
    ghost use Rattle.sn_command_capture.specs.Unstopped.{never_stopped};
    ghost use Rattle.sn_command_emit.specs.Causal.{frames_are_causal};
    ghost use Rattle.sn_command_emit.specs.Reporting.{IsAtHand, IsIdle, plan_of};
    ghost use Rattle.sn_command_emit.specs.Sent.{frames_wording};

    ghost wording = { λ a. frames_wording (plan_of a) };

    ghost idle = { λ a closed. IsIdle a closed };

    ghost hand = { λ a closed number tuples. IsAtHand a closed number tuples };

    fn first(&self) -> Result<Seq<u8>, Memory> {
        Ok(Seq::new(self.typed.alloc))
    }

    fn packet(&mut self, _: u64, tuple: &Tuple) -> Result<(), Memory> {
        self.take(tuple)
    }

    fn pass(&mut self, at_hand: u64, number: u64, tuple: &Tuple) -> Result<Seq<u8>, Stop> {
        let block = self.end(at_hand)?;
        self.begin(number)?;
        self.take(tuple)?;
        Ok(block)
    }

    fn close(&mut self, number: u64) -> Result<Seq<u8>, Stop> {
        let block = self.end(number)?;
        Ok(block)
    }

    fn unfinished(&self, _: u64) -> Result<Seq<u8>, Memory> {
        Ok(Seq::new(self.typed.alloc))
    }

    fn last(&self, windows: u64, ending: Ending) -> Result<Seq<u8>, Memory> {
        Ok(Seq::new(self.typed.alloc))
    }

    ghost causal = { λ a. frames_are_causal (plan_of a) };

    ghost in_time = { λ a. never_stopped (frames_wording (plan_of a)) (λ windows number tuples. refl) };
}
