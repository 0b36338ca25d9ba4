//! The command `plan`.
ghost use Rattle.std.specs.Prelude.{[], ◌∷◌};
ghost use Rattle.sn_command_live.specs.Live.{Plan};
ghost use Rattle.sn_command.specs.Desks.{world};
ghost use Rattle.sn_command.specs.Runs.{WorksFrom};

use crate::certify::certify;
use sn_command::desk::Desk;
use sn_command::refusal::Refusal;
use sn_io::inputs::Inputs;
use sn_io::sink::Sink;
use std::alloc::Global;

/// `plan SWITCH QUERIES TRAIN --nodes NODES`: reads the queries, the switch and the training capture, and writes the plan that
/// costs least on it, its cost and its tree.
pub fn plan<I: Inputs, O: Sink>(
    alloc: Global,
    switch: &str,
    queries: &str,
    train: &str,
    nodes: u32,
    desk: &mut Desk<'_, I, O>,
) -> Result<(), Refusal>
    ensures { WorksFrom 2 (queries.now ∷ switch.now ∷ train.now ∷ []) (Plan switch.now queries.now train.now nodes) (world I.Inputs O.Sink desk.old) result
        (world I.Inputs O.Sink desk.new) }
{
    certify(alloc, switch, queries, train, nodes, desk)?;
    Ok(())
}
