//! The command `detect`.
ghost use Rattle.std.specs.Prelude.{[], ◌∷◌};
ghost use Rattle.sn_command.specs.Desks.{world};
ghost use Rattle.sn_command.specs.Runs.{WorksFrom};
ghost use Rattle.sn_command_detect.specs.Detects.{Detects};

use crate::watch::Watch;
use sn_command::desk::Desk;
use sn_command::refusal::Refusal;
use sn_command_capture::capture::answer_capture;
use sn_command_texts::fit::test_shape;
use sn_command_texts::queries::read_queries;
use sn_command_texts::texts::read_plan;
use sn_io::inputs::Inputs;
use sn_io::sink::Sink;
use std::alloc::Global;

/// `detect QUERIES PLAN CAPTURE`: reads the queries, the plan and the capture, and writes of each refined query the stays of
/// its addresses, and when each was printed.
pub fn detect<I: Inputs, O: Sink>(
    alloc: Global,
    queries: &str,
    plan: &str,
    capture: &str,
    desk: &mut Desk<'_, I, O>,
) -> Result<(), Refusal>
    ensures { WorksFrom 2 (queries.now ∷ plan.now ∷ capture.now ∷ []) (Detects queries.now plan.now capture.now) (world I.Inputs O.Sink desk.old) result
        (world I.Inputs O.Sink desk.new) }
{
    let typed = read_queries(alloc, desk, queries)?;
    let chosen = read_plan(alloc, desk, plan)?;
    test_shape(&typed, &chosen)?;
    let window_ns = typed.window_ns();
    let mut watch = Watch::make(alloc, typed, chosen)?;
    answer_capture(alloc, window_ns, capture, &mut watch, desk)
}
