//! A plan with prices goes out.
ghost use Rattle.std.specs.Prelude.{[]};
ghost use Rattle.sn_command.specs.Desks.{world};
ghost use Rattle.sn_command.specs.Runs.{Runs};
ghost use Rattle.sn_command.specs.Stages.{Adds};
ghost use Rattle.sn_command_prices.specs.Made.{priced_text};

use sn_command::desk::Desk;
use sn_command::refusal::Refusal;
use sn_command::texts::write_text;
use sn_command_prices::make::PricedPlan;
use sn_command_prices::text::priced_text;
use sn_io::inputs::Inputs;
use sn_io::sink::Sink;
use std::alloc::Global;

/// Writes a plan with its cost, prices and what they show.
pub fn write_priced<I: Inputs, O: Sink>(
    alloc: Global,
    priced: &PricedPlan,
    desk: &mut Desk<'_, I, O>,
) -> Result<(), Refusal>
    ensures { Runs [] (Adds (priced_text priced.now)) (world I.Inputs O.Sink desk.old) result (world I.Inputs O.Sink desk.new) }
{
    let text = priced_text(alloc, priced)?;
    write_text(text.as_slice(), desk)
}
