//! Whether a plan is refused.
ghost use Rattle.std.specs.Prelude.{◌≡◌, OnOk};
ghost use Rattle.sn_plan_fit.specs.Fits.{Fits, HasShape};
ghost use Rattle.sn_plan_fit.specs.Pieces.{fit_misfit, shape_misfit};
ghost use Rattle.sn_command_texts.specs.Fitting.{misfit_verdict};
ghost use Rattle.sn_command.specs.Refusals.{refusing};
ghost use Rattle.sn_switch.specs.Texts.{IsSwitch};

use sn_command::fault::Fault;
use sn_command::refusal::Refusal;
use sn_plan_fit::{fits, shape};
use sn_plan_grammar::plan::Plan;
use sn_switch::switch::Switch;
use sn_types::typed::Typed;

/// Refuses a plan that doesn't fit the switch, for the first check that fails.
pub fn test_fit(t: &Typed, switch: &Switch, plan: &Plan) -> Result<(), Refusal>
    requires { IsSwitch switch.now }
    ensures verdict { result ≡ refusing (misfit_verdict (fit_misfit t.now.queries switch.now plan.now.entries)) }
    ensures fits { OnOk result (Fits t.now.queries switch.now plan.now.entries) }
{
    match fits(t, switch, plan) {
        Ok(()) => Ok(()),
        Err(misfit) => Err(Refusal::Refused(Fault::Misfit(misfit))),
    }
}

/// Refuses a plan that doesn't have the shape of the queries, for the first check that fails.
pub fn test_shape(t: &Typed, plan: &Plan) -> Result<(), Refusal>
    ensures verdict { result ≡ refusing (misfit_verdict (shape_misfit t.now.queries plan.now.entries)) }
    ensures shape { OnOk result (HasShape t.now.queries plan.now.entries) }
{
    match shape(t, plan) {
        Ok(()) => Ok(()),
        Err(misfit) => Err(Refusal::Refused(Fault::Misfit(misfit))),
    }
}
