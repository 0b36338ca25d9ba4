//! The command `finish`.
ghost use Rattle.std.specs.Prelude.{[], ◌∷◌};
ghost use Rattle.sn_command_finish.specs.Finish.{Finish};
ghost use Rattle.sn_command.specs.Desks.{world};
ghost use Rattle.sn_command.specs.Runs.{WorksFrom};

use crate::reports::answer_reports;
use sn_command::desk::Desk;
use sn_command::refusal::Refusal;
use sn_command_texts::fit::test_shape;
use sn_command_texts::queries::read_queries;
use sn_command_texts::texts::read_plan;
use sn_io::inputs::Inputs;
use sn_io::sink::Sink;
use std::alloc::Global;

/// `finish QUERIES PLAN REPORTS`: reads the queries and the plan, and then the reports frame by frame, and writes the answers of
/// each window as soon as the reports have ended it.
pub fn finish<I: Inputs, O: Sink>(
    alloc: Global,
    queries: &str,
    plan: &str,
    reports: &str,
    desk: &mut Desk<'_, I, O>,
) -> Result<(), Refusal>
    ensures { WorksFrom 2 (queries.now ∷ plan.now ∷ reports.now ∷ []) (Finish queries.now plan.now reports.now) (world I.Inputs O.Sink desk.old) result
        (world I.Inputs O.Sink desk.new) }
{
    let typed = read_queries(alloc, desk, queries)?;
    let chosen = read_plan(alloc, desk, plan)?;
    test_shape(&typed, &chosen)?;
    answer_reports(alloc, &typed, &chosen, reports, desk)
}
