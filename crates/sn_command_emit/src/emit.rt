//! The command `emit`.
ghost use Rattle.std.specs.Prelude.{[], ◌∷◌};
ghost use Rattle.sn_command_emit.specs.Emit.{Emit};
ghost use Rattle.sn_command.specs.Desks.{world};
ghost use Rattle.sn_command.specs.Runs.{WorksFrom};

use crate::reporter::Reporter;
use sn_command::desk::Desk;
use sn_command::refusal::Refusal;
use sn_command_capture::capture::answer_capture;
use sn_command_texts::fit::test_fit;
use sn_command_texts::queries::read_queries;
use sn_command_texts::texts::{read_plan, read_switch};
use sn_io::inputs::Inputs;
use sn_io::sink::Sink;
use std::alloc::Global;

/// `emit SWITCH QUERIES PLAN CAPTURE`: reads the queries, the switch and the plan, tests the plan, and writes the frames that its
/// lanes send over the capture, window by window.
pub fn emit<I: Inputs, O: Sink>(
    alloc: Global,
    switch: &str,
    queries: &str,
    plan: &str,
    capture: &str,
    desk: &mut Desk<'_, I, O>,
) -> Result<(), Refusal>
    ensures { WorksFrom 2 (queries.now ∷ switch.now ∷ plan.now ∷ capture.now ∷ []) (Emit switch.now queries.now plan.now capture.now)
        (world I.Inputs O.Sink desk.old) result (world I.Inputs O.Sink desk.new) }
{
    let typed = read_queries(alloc, desk, queries)?;
    let limits = read_switch(alloc, desk, switch)?;
    let entries = read_plan(alloc, desk, plan)?;
    test_fit(&typed, &limits, &entries)?;
    let window_ns = typed.window_ns();
    let mut reporter = Reporter::make(typed, &limits, entries)?;
    answer_capture(alloc, window_ns, capture, &mut reporter, desk)
}
