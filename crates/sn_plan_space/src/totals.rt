//! What choices take up together.
ghost use Rattle.std.specs.Prelude.{◌≡◌, ◌<◌, ◌≤◌, [], ◌++◌, List};
ghost use Rattle.sn_plan_fit.specs.Loads.{AreLoads};
ghost use Rattle.sn_plan_fit.specs.Registers.{Register};
ghost use Rattle.sn_plan_choices.specs.Planning.{Taken, is_full, is_too_much};
ghost use Rattle.sn_plan_space.specs.Positions.{IsRegister, IsTook};
ghost use Rattle.sn_plan_space.specs.Totals.{AreTotals, HasLimits, any_full};

use crate::position::{Standing, Took};
use sn_plan_fit::loads::Loads;
use sn_switch::switch::Switch;

/// Adds a register, if there is one.
fn add_register(loads: &mut Loads, register: Option<Standing>)
    ensures { (standing more : List Register) → AreLoads loads.old standing → IsRegister register more → AreLoads loads.new (standing ++ more) }
{
    match register {
        None => {}
        Some(register) => loads.add(register.stage, register.bits),
    }
}

/// The registers in each stage, the metadata, and whether a table is past the last stage.
#[derive(Clone, Copy)]
pub struct Totals {
    pub loads: Loads,
    /// At most 2^64 - 1.
    pub metadata: u64,
    pub is_past: bool,
}

impl Totals {
    /// Nothing is taken up.
    pub fn new() -> Totals
        ensures { AreTotals result [] }
    {
        Totals {
            loads: Loads::new(),
            metadata: 0,
            is_past: false,
        }
    }

    /// Adds what a choice takes up.
    pub fn add(&mut self, took: Took)
        ensures { (taken more : List Taken) → AreTotals self.old taken → IsTook took more → AreTotals self.new (taken ++ more) }
    {
        add_register(&mut self.loads, took.register);
        self.metadata = self.metadata.saturating_add(took.metadata);
        self.is_past = self.is_past | took.is_past;
    }

    /// Whether a stage has more registers or more bits than the switch has room for.
    fn is_full(&self, s: &Switch, stage: u32) -> bool
        requires switch { HasLimits s.now }
        requires stage { stage < s.now.stages }
        ensures { (taken : List Taken) → AreTotals self.now taken → result ≡ is_full s.now taken stage }
    {
        let load = self.loads.at(stage);
        load.registers > u64::from(s.actions) || load.bits > s.bits
    }

    /// Whether some stage has.
    fn any_full(&self, s: &Switch) -> bool
        requires { HasLimits s.now }
        ensures { (taken : List Taken) → AreTotals self.now taken → result ≡ any_full s.now taken }
    {
        for stage in 0..s.stages {
            if self.is_full(s, stage) {
                return true;
            }
        }
        false
    }

    /// Whether this is too much for a switch.
    pub fn is_too_much(&self, s: &Switch) -> bool
        requires { HasLimits s.now }
        ensures { (taken : List Taken) → AreTotals self.now taken → result ≡ is_too_much s.now taken }
    {
        self.is_past || self.any_full(s) || self.metadata > u64::from(s.meta)
    }
}
