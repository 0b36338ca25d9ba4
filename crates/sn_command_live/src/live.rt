//! The command `live`.
ghost use Rattle.std.specs.Prelude.{[], ◌∷◌};
ghost use Rattle.sn_command_live.specs.Live.{Live};
ghost use Rattle.sn_command.specs.Desks.{world};
ghost use Rattle.sn_command.specs.Runs.{WorksFrom};

use crate::certified::Certified;
use crate::certify::certify;
use sn_command::desk::Desk;
use sn_command::refusal::Refusal;
use sn_command_run::answer::answer_along;
use sn_command_run::form::Form;
use sn_core_drive::machine::Machine;
use sn_io::inputs::Inputs;
use sn_io::sink::Sink;
use std::alloc::Global;

/// `live SWITCH QUERIES TRAIN CAPTURE --nodes NODES`: does what `plan` does, and then reads the capture and answers it along the
/// plan by a machine, window by window.
pub fn live<M: Machine, I: Inputs, O: Sink>(
    alloc: Global,
    switch: &str,
    queries: &str,
    train: &str,
    capture: &str,
    nodes: u32,
    desk: &mut Desk<'_, I, O>,
) -> Result<(), Refusal>
    ensures { WorksFrom 2 (queries.now ∷ switch.now ∷ train.now ∷ capture.now ∷ []) (Live M.reported switch.now queries.now train.now capture.now nodes)
        (world I.Inputs O.Sink desk.old) result (world I.Inputs O.Sink desk.new) }
{
    let certified = certify(alloc, switch, queries, train, nodes, desk)?;
    let Certified {
        typed,
        limits,
        certificate,
    } = certified;
    let plan = certificate.plan;
    answer_along::<M, I, O>(alloc, Form::Blocks, typed, &limits, plan, capture, desk)
}
