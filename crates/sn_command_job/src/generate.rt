//! The command `gen`.
ghost use Rattle.std.specs.Prelude.{[]};
ghost use Rattle.sn_command_job.specs.Gen.{Gen};
ghost use Rattle.sn_command.specs.Desks.{world};
ghost use Rattle.sn_command.specs.Runs.{WorksFrom};

use sn_command::desk::Desk;
use sn_command::refusal::Refusal;
use sn_command::texts::write_text;
use sn_gen::capture::capture;
use sn_io::inputs::Inputs;
use sn_io::sink::Sink;
use std::alloc::Global;

/// `gen NUMBER`: writes the capture of the number, of 1,400,024 bytes. It reads no file.
pub fn generate<I: Inputs, O: Sink>(
    alloc: Global,
    number: u32,
    desk: &mut Desk<'_, I, O>,
) -> Result<(), Refusal>
    ensures { WorksFrom 2 [] (Gen number) (world I.Inputs O.Sink desk.old) result (world I.Inputs O.Sink desk.new) }
{
    let file = capture(alloc, u64::from(number))?;
    write_text(file.as_slice(), desk)
}
