//! The lines of what shows what it says.
ghost use Rattle.std.specs.Prelude.{[]};
ghost use Rattle.sn_command_check.specs.Check.{bounded_line, yes_line};
ghost use Rattle.sn_command.specs.Desks.{world};
ghost use Rattle.sn_command.specs.Runs.{Runs};
ghost use Rattle.sn_command.specs.Stages.{Adds};

use sn_command::desk::Desk;
use sn_command::pieces::{Piece, tell_pieces};
use sn_command::refusal::Refusal;
use sn_io::inputs::Inputs;
use sn_io::sink::Sink;

/// Writes that a cost and a tree with this many nodes show what they say. It takes no memory.
pub(crate) fn say_yes<I: Inputs, O: Sink>(
    cost: u64,
    nodes: u64,
    desk: &mut Desk<'_, I, O>,
) -> Result<(), Refusal>
    ensures { Runs [] (Adds (yes_line cost nodes)) (world I.Inputs O.Sink desk.old) result (world I.Inputs O.Sink desk.new) }
{
    let line = [
        Piece::Text(b"yes cost "),
        Piece::Number(cost),
        Piece::Text(b" nodes "),
        Piece::Number(nodes),
        Piece::Text(b"\n"),
    ];
    if tell_pieces(&line, desk.out) {
        Ok(())
    } else {
        Err(Refusal::WriteFault)
    }
}

/// Writes that prices show that no plan costs less than a number, where the plan has this cost. It takes no memory.
pub(crate) fn say_bounded<I: Inputs, O: Sink>(
    cost: u64,
    least: u64,
    desk: &mut Desk<'_, I, O>,
) -> Result<(), Refusal>
    ensures { Runs [] (Adds (bounded_line cost least)) (world I.Inputs O.Sink desk.old) result (world I.Inputs O.Sink desk.new) }
{
    let line = [
        Piece::Text(b"yes cost "),
        Piece::Number(cost),
        Piece::Text(b" least "),
        Piece::Number(least),
        Piece::Text(b"\n"),
    ];
    if tell_pieces(&line, desk.out) {
        Ok(())
    } else {
        Err(Refusal::WriteFault)
    }
}
