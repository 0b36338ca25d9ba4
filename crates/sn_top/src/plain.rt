//! The command `plain`.
ghost use Rattle.std.specs.Prelude.{[], ◌∷◌};
ghost use Rattle.sn_command.specs.Desks.{world};
ghost use Rattle.sn_command.specs.Runs.{WorksFrom};
ghost use Rattle.sn_top.specs.Plain.{Plain};

use crate::unsplit::Unsplit;
use sn_command::desk::Desk;
use sn_command::refusal::Refusal;
use sn_command_capture::capture::answer_capture;
use sn_command_texts::queries::read_queries;
use sn_io::inputs::Inputs;
use sn_io::sink::Sink;
use std::alloc::Global;

/// `plain QUERIES CAPTURE`: reads the queries, then the capture, and writes the answers of each window.
pub fn plain<I: Inputs, O: Sink>(
    alloc: Global,
    queries: &str,
    capture: &str,
    desk: &mut Desk<'_, I, O>,
) -> Result<(), Refusal>
    ensures { WorksFrom 2 (queries.now ∷ capture.now ∷ []) (Plain queries.now capture.now) (world I.Inputs O.Sink desk.old) result
        (world I.Inputs O.Sink desk.new) }
{
    let typed = read_queries(alloc, desk, queries)?;
    let window_ns = typed.window_ns();
    let mut unsplit = Unsplit::begin(alloc, &typed)?;
    answer_capture(alloc, window_ns, capture, &mut unsplit, desk)
}
