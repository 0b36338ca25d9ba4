//! Text that goes out.
ghost use Rattle.std.specs.Prelude.{[]};
ghost use Rattle.sn_command.specs.Desks.{world};
ghost use Rattle.sn_command.specs.Runs.{Runs};
ghost use Rattle.sn_command.specs.Stages.{Adds};

use crate::desk::Desk;
use crate::refusal::Refusal;
use sn_io::inputs::Inputs;
use sn_io::sink::{Sink, write_all_to};

/// Writes a text.
pub fn write_text<I: Inputs, O: Sink>(text: &[u8], desk: &mut Desk<'_, I, O>) -> Result<(), Refusal>
    ensures { Runs [] (Adds text.now) (world I.Inputs O.Sink desk.old) result (world I.Inputs O.Sink desk.new) }
{
    match write_all_to(desk.out, text) {
        Ok(()) => Ok(()),
        Err(_) => Err(Refusal::WriteFault),
    }
}
