//! The command `plan` with the word `--prices`.
ghost use Rattle.sn_command.specs.Desks.{world};
ghost use Rattle.sn_command_priced.specs.PlanPrices.{PlansByPrices};

use crate::asked::Asked;
use crate::read::read_asked;
use crate::write::write_priced;
use sn_command::desk::Desk;
use sn_command::refusal::Refusal;
use sn_command_prices::make::make;
use sn_io::inputs::Inputs;
use sn_io::sink::Sink;
use std::alloc::Global;

/// `plan SWITCH QUERIES TRAIN --prices --nodes NODES`: reads the queries, the switch and the training capture, and writes a plan that fits,
/// what it costs on that capture, prices, and the number that they show no plan costs less than. Each of up to three attempts to find a cheap
/// plan takes at most so many steps.
pub fn plan_by_prices<I: Inputs, O: Sink>(
    alloc: Global,
    switch: &str,
    queries: &str,
    train: &str,
    nodes: u32,
    desk: &mut Desk<'_, I, O>,
) -> Result<(), Refusal>
    ensures { PlansByPrices switch.now queries.now train.now (world I.Inputs O.Sink desk.old) result (world I.Inputs O.Sink desk.new) }
{
    let asked = read_asked(alloc, switch, queries, train, desk)?;
    let Asked {
        typed,
        limits,
        training,
    } = asked;
    let priced = make(&typed, &limits, &training, nodes)?;
    write_priced(alloc, &priced, desk)
}
