//! A capture is answered along a plan.
ghost use Rattle.std.specs.Prelude.{[], ◌∷◌};
ghost use Rattle.sn_plan_fit.specs.Fits.{Fits};
ghost use Rattle.sn_command_texts.specs.Queries.{queries_of};
ghost use Rattle.sn_command_run.specs.Run.{AlongIn};
ghost use Rattle.sn_command.specs.Desks.{world};
ghost use Rattle.sn_command.specs.Runs.{Runs};
ghost use Rattle.sn_switch.specs.Texts.{IsSwitch};

use crate::along::Along;
use crate::form::Form;
use sn_command::desk::Desk;
use sn_command::refusal::Refusal;
use sn_command_capture::capture::answer_capture;
use sn_core_drive::machine::Machine;
use sn_io::inputs::Inputs;
use sn_io::sink::Sink;
use sn_plan_grammar::plan::Plan;
use sn_switch::switch::Switch;
use sn_types::typed::Typed;
use std::alloc::Global;

/// Reads a capture, and answers it along a plan that fits by a machine, window by window, in this form.
pub fn answer_along<M: Machine, I: Inputs, O: Sink>(
    alloc: Global,
    form: Form,
    typed: Typed,
    limits: &Switch,
    plan: Plan,
    capture: &str,
    desk: &mut Desk<'_, I, O>,
) -> Result<(), Refusal>
    requires limits { IsSwitch limits.now }
    requires fits { Fits typed.queries limits.now plan.entries }
    ensures { Runs (capture.now ∷ []) (AlongIn form M.reported capture.now (queries_of typed) limits.now plan) (world I.Inputs O.Sink desk.old) result
        (world I.Inputs O.Sink desk.new) }
{
    let window_ns = typed.window_ns();
    let mut along: Along<M> = Along::make(form, typed, limits, plan)?;
    answer_capture(alloc, window_ns, capture, &mut along, desk)
}
