//! One frame of the reports, and the window that it may close.
ghost use Rattle.std.specs.Prelude.{◌≡◌, ◌<◌, ◌≤◌, ◌+◌, ◌^◌, [], true, IfOk};
ghost use Rattle.std.specs.List.{AllByRecursion};
ghost use Rattle.sn_engine.specs.Intakes.{total};
ghost use Rattle.sn_command_finish.specs.Standings.{standing};
ghost use Rattle.sn_command_finish.specs.Taken.{close_ended, take_frame};
ghost use Rattle.sn_out.specs.Text.{IsPartOf, block_text};
ghost use Rattle.sn_command.specs.Desks.{world};
ghost use Rattle.sn_command.specs.Refusals.{seen_as};
ghost use Rattle.sn_command.specs.Runs.{Runs};
ghost use Rattle.sn_command.specs.Stages.{Adds, Does};

use crate::taking::take;
use crate::tally::Tally;
use sn_base::row::Row;
use sn_command::desk::Desk;
use sn_command::refusal::Refusal;
use sn_command::texts::write_text;
use sn_engine::fault::CloseFault;
use sn_io::inputs::Inputs;
use sn_io::sink::Sink;
use sn_out::block::block;
use sn_report::frame::Frame;
use sn_types::answers::Answers;
use sn_types::typed::Typed;
use std::alloc::Global;

/// Writes the block of a window.
fn write_block<I: Inputs, O: Sink>(
    alloc: Global,
    t: &Typed,
    answers: &Answers,
    desk: &mut Desk<'_, I, O>,
) -> Result<(), Refusal>
    requires { AllByRecursion (IsPartOf t.now.queries) answers.now.parts }
    ensures { Runs [] (Adds (block_text t.now.queries answers.now true)) (world I.Inputs O.Sink desk.old) result (world I.Inputs O.Sink desk.new) }
{
    let text = block(alloc, t, answers, true)?;
    write_text(text.as_slice(), desk)
}

/// Closes the window if all lanes have ended it, and writes its block.
fn close_ended<I: Inputs, O: Sink>(
    alloc: Global,
    tally: Tally,
    desk: &mut Desk<'_, I, O>,
) -> Result<Tally, Refusal>
    requires windows { tally.windows < 2 ^ 63 }
    requires emitted { tally.emitted + total tally.engine.lanes.items < 2 ^ 63 }
    ensures runs { Runs [] (Does (close_ended tally.engine.t.queries (standing tally))) (world I.Inputs O.Sink desk.old) (seen_as standing result)
        (world I.Inputs O.Sink desk.new) }
    ensures queries { IfOk result (λ after. after.engine.t.queries ≡ tally.engine.t.queries) }
    ensures windows { IfOk result (λ after. after.windows ≤ tally.windows + 1) }
    ensures emitted { IfOk result (λ after. after.emitted + total after.engine.lanes.items ≤ tally.emitted + total tally.engine.lanes.items) }
{
    let Tally {
        mut engine,
        windows,
        emitted,
    } = tally;
    match engine.close_window() {
        Ok(answers) => {
            write_block(alloc, &engine.t, &answers, desk)?;
            Ok(Tally {
                engine,
                windows: windows + 1,
                emitted: emitted + answers.emitted,
            })
        }
        Err(CloseFault::Unfinished(_)) => Ok(Tally {
            engine,
            windows,
            emitted,
        }),
        Err(CloseFault::Memory) => Err(Refusal::Memory),
    }
}

/// Takes a frame that begins at this byte, and closes the window if all lanes have then ended it.
pub(crate) fn take_frame<I: Inputs, O: Sink>(
    alloc: Global,
    tally: Tally,
    frame: &Frame<Row>,
    at: u64,
    desk: &mut Desk<'_, I, O>,
) -> Result<Tally, Refusal>
    requires windows { tally.windows < 2 ^ 62 }
    requires emitted { tally.emitted + total tally.engine.lanes.items < 2 ^ 62 }
    ensures runs { Runs [] (Does (take_frame tally.engine.t.queries at frame.now (standing tally))) (world I.Inputs O.Sink desk.old) (seen_as standing result)
        (world I.Inputs O.Sink desk.new) }
    ensures queries { IfOk result (λ after. after.engine.t.queries ≡ tally.engine.t.queries) }
    ensures windows { IfOk result (λ after. after.windows ≤ tally.windows + 1) }
    ensures emitted { IfOk result (λ after. after.emitted + total after.engine.lanes.items ≤ tally.emitted + total tally.engine.lanes.items + 1) }
{
    let Tally {
        mut engine,
        windows,
        emitted,
    } = tally;
    take(&mut engine, frame, at)?;
    let taken = Tally {
        engine,
        windows,
        emitted,
    };
    close_ended(alloc, taken, desk)
}
