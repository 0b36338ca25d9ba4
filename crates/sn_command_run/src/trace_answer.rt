//! A capture is answered along a plan by a machine that is watched.
ghost use Rattle.std.specs.Prelude.{[], ◌∷◌};
ghost use Rattle.sn_plan_fit.specs.Fits.{Fits};
ghost use Rattle.sn_command_texts.specs.Queries.{queries_of};
ghost use Rattle.sn_command.specs.Desks.{world};
ghost use Rattle.sn_command.specs.Runs.{Runs};
ghost use Rattle.sn_switch.specs.Texts.{IsSwitch};
ghost use Rattle.sn_command_run.specs.TraceWording.{TracedAlong};

use crate::traced::Traced;
use sn_command::desk::Desk;
use sn_command::refusal::Refusal;
use sn_command_capture::capture::answer_capture;
use sn_core_drive::machine::Machine;
use sn_io::inputs::Inputs;
use sn_io::sink::Sink;
use sn_plan_grammar::plan::Plan;
use sn_switch::switch::Switch;
use sn_types::typed::Typed;
use std::alloc::Global;

/// Reads a capture, and answers it along a plan that fits by a machine, window by window. The machine is driven by draws that follow this
/// number, and each of its events has a line.
pub fn answer_traced<M: Machine, I: Inputs, O: Sink>(
    alloc: Global,
    schedule: u32,
    typed: Typed,
    limits: &Switch,
    plan: Plan,
    capture: &str,
    desk: &mut Desk<'_, I, O>,
) -> Result<(), Refusal>
    requires limits { IsSwitch limits.now }
    requires fits { Fits typed.queries limits.now plan.entries }
    ensures { Runs (capture.now ∷ []) (TracedAlong schedule M.reported capture.now (queries_of typed) limits.now plan) (world I.Inputs O.Sink desk.old) result
        (world I.Inputs O.Sink desk.new) }
{
    let window_ns = typed.window_ns();
    let mut traced: Traced<M> = Traced::make(schedule, typed, limits, plan)?;
    answer_capture(alloc, window_ns, capture, &mut traced, desk)
}
