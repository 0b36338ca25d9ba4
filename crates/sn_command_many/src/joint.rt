//! Several switches that answer as one.
ghost use Rattle.std.specs.Prelude.{◌≡◌, ◌≤◌, List, [], IfOk, None, length, map};
ghost use Rattle.std.specs.List.{AllByRecursion};
ghost use Rattle.sn_command_captures.specs.Answered.{Shared};
ghost use Rattle.sn_command_many.specs.Joining.{IsAfter, plan_of};
ghost use Rattle.sn_emit.specs.Plans.{tables_of};
ghost use Rattle.sn_engine_many.specs.Answers.{in_one};
ghost use Rattle.sn_plan_fit.specs.Fits.{Fits};
ghost use Rattle.sn_switch.specs.Texts.{IsSwitch};
ghost use Rattle.sn_windows.specs.Rising.{AreRising};

use crate::lines::last_lines;
use crate::taking::take_window;
use sn_base::memory::Memory;
use sn_base::seq::Seq;
use sn_command_captures::share::Share;
use sn_command_captures::team::Team;
use sn_command_run::windows::sum_of;
use sn_emit::tables::Tables;
use sn_engine_many::many::Many;
use sn_out::block::block;
use sn_plan_grammar::plan::Plan;
use sn_switch::switch::Switch;
use sn_types::typed::Typed;

/// A plan that fits, the switches that run it, and how many items they have sent so far.
#[derive(Drop)]
pub struct Joint {
    pub typed: Typed,
    pub plan: Plan,
    /// The room of each switch for registers and prefixes.
    pub tables: Tables,
    pub many: Many,
    pub emitted: u64,
}

impl Joint {
    /// This many switches that run a plan that fits, before any window.
    pub fn make(typed: Typed, switch: &Switch, plan: Plan, switches: u32) -> Result<Joint, Memory>
        requires switch { IsSwitch switch.now }
        requires fits { Fits typed.queries switch.now plan.entries }
        requires few { switches ≤ 8 }
        ensures plan { IfOk result (λ joint. plan_of joint ≡ record { queries = typed.queries; tables = tables_of switch.now; entries = plan.entries }) }
        ensures begun { IfOk result (λ joint. (all : List Shared) → AllByRecursion (λ w. length w.1 ≡ switches) all →
            AreRising None (map in_one all) → IsAfter joint all []) }
    {
        let many = Many::make(&typed, switch, &plan, switches)?;
        Ok(Joint {
            typed,
            plan,
            tables: Tables::of(switch),
            many,
            emitted: 0,
        })
    }
}

impl Team for Joint {
    ghost use Rattle.sn_command_many.specs.Joining.{IsAfter, plan_of};
    ghost use Rattle.sn_command_many.specs.Together.{many_wording};

    ghost wording = { λ a. many_wording (plan_of a) };

    ghost answered = { λ a all done. IsAfter a all done };

    fn window(&mut self, number: u64, shares: &mut [Share]) -> Result<Seq<u8>, Memory> {
        self.many.begin(number)?;
        take_window(&mut self.many, 0, shares, number)?;
        let answers = self.many.close_window()?;
        self.emitted = sum_of(self.emitted, answers.emitted)?;
        block(self.typed.alloc, &self.typed, &answers, true)
    }

    fn last(&self, windows: u64, shares: &[Share]) -> Result<Seq<u8>, Memory> {
        last_lines(self.typed.alloc, windows, self.emitted, shares)
    }
}
