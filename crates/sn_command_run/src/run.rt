//! The command `run`.
ghost use Rattle.std.specs.Prelude.{[], ◌∷◌};
ghost use Rattle.sn_command_run.specs.Run.{Run};
ghost use Rattle.sn_command.specs.Desks.{world};
ghost use Rattle.sn_command.specs.Runs.{WorksFrom};

use crate::answer::answer_along;
use crate::form::Form;
use sn_command::desk::Desk;
use sn_command::refusal::Refusal;
use sn_command_texts::fit::test_fit;
use sn_command_texts::queries::read_queries;
use sn_command_texts::texts::{read_plan, read_switch};
use sn_core_drive::machine::Machine;
use sn_io::inputs::Inputs;
use sn_io::sink::Sink;
use std::alloc::Global;

/// `run SWITCH QUERIES PLAN CAPTURE [--csv]`: reads the queries, the switch and the plan, tests the plan, and answers the capture
/// along it by a machine, window by window. With `csv` the answers are comma-separated values, and else blocks.
pub fn run<M: Machine, I: Inputs, O: Sink>(
    alloc: Global,
    csv: bool,
    switch: &str,
    queries: &str,
    plan: &str,
    capture: &str,
    desk: &mut Desk<'_, I, O>,
) -> Result<(), Refusal>
    ensures { WorksFrom 2 (queries.now ∷ switch.now ∷ plan.now ∷ capture.now ∷ []) (Run M.reported csv switch.now queries.now plan.now capture.now)
        (world I.Inputs O.Sink desk.old) result (world I.Inputs O.Sink desk.new) }
{
    let typed = read_queries(alloc, desk, queries)?;
    let limits = read_switch(alloc, desk, switch)?;
    let entries = read_plan(alloc, desk, plan)?;
    test_fit(&typed, &limits, &entries)?;
    let form = Form::of_csv(csv);
    answer_along::<M, I, O>(alloc, form, typed, &limits, entries, capture, desk)
}
