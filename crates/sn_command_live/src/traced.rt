//! The command `live` with a trace.
ghost use Rattle.std.specs.Prelude.{[], ◌∷◌};
ghost use Rattle.sn_command_live.specs.Live.{TracedLive};
ghost use Rattle.sn_command.specs.Desks.{world};
ghost use Rattle.sn_command.specs.Runs.{WorksFrom};

use crate::certified::Certified;
use crate::certify::certify;
use sn_command::desk::Desk;
use sn_command::refusal::Refusal;
use sn_command_run::trace_answer::answer_traced;
use sn_core_drive::machine::Machine;
use sn_io::inputs::Inputs;
use sn_io::sink::Sink;
use std::alloc::Global;

/// `live SWITCH QUERIES TRAIN CAPTURE --nodes NODES --schedule SCHEDULE --trace`: does what `live` does, by a machine that is driven by draws
/// that follow the number of the schedule, and writes a line for each of its events.
pub fn live_traced<M: Machine, I: Inputs, O: Sink>(
    alloc: Global,
    switch: &str,
    queries: &str,
    train: &str,
    capture: &str,
    nodes: u32,
    schedule: u32,
    desk: &mut Desk<'_, I, O>,
) -> Result<(), Refusal>
    ensures { WorksFrom 2 (queries.now ∷ switch.now ∷ train.now ∷ capture.now ∷ [])
        (TracedLive schedule M.reported switch.now queries.now train.now capture.now nodes) (world I.Inputs O.Sink desk.old) result
        (world I.Inputs O.Sink desk.new) }
{
    let certified = certify(alloc, switch, queries, train, nodes, desk)?;
    let Certified {
        typed,
        limits,
        certificate,
    } = certified;
    let plan = certificate.plan;
    answer_traced::<M, I, O>(alloc, schedule, typed, &limits, plan, capture, desk)
}
