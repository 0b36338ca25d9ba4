//! The command `replan`.
ghost use Rattle.std.specs.Prelude.{[], ◌∷◌};
ghost use Rattle.sn_command.specs.Desks.{world};
ghost use Rattle.sn_command.specs.Runs.{WorksFrom};
ghost use Rattle.sn_command_replan.specs.Replan.{Replans};

use crate::replanning::Replanning;
use sn_command::desk::Desk;
use sn_command::refusal::Refusal;
use sn_command_capture::capture::answer_capture;
use sn_command_live::certify::certify_after;
use sn_io::inputs::Inputs;
use sn_io::sink::Sink;
use std::alloc::Global;

/// `replan SWITCH QUERIES TRAIN CAPTURE MOST --nodes NODES`: does what `plan` does after the line of the first epoch, and then reads the capture
/// and answers it, window by window. After a window of which more than `most` items left the switch before their cut, the next plan is searched
/// for on that window alone.
pub fn replan<I: Inputs, O: Sink>(
    alloc: Global,
    switch: &str,
    queries: &str,
    train: &str,
    capture: &str,
    most: u32,
    nodes: u32,
    desk: &mut Desk<'_, I, O>,
) -> Result<(), Refusal>
    ensures { WorksFrom 2 (queries.now ∷ switch.now ∷ train.now ∷ capture.now ∷ []) (Replans switch.now queries.now train.now capture.now most nodes)
        (world I.Inputs O.Sink desk.old) result (world I.Inputs O.Sink desk.new) }
{
    let certified = certify_after(alloc, b"epoch 0\n", switch, queries, train, nodes, desk)?;
    let window_ns = certified.typed.window_ns();
    let mut replanning = Replanning::make(certified, u64::from(most), nodes)?;
    answer_capture(alloc, window_ns, capture, &mut replanning, desk)
}
