//! The stage of reports: their frames are read and taken one after another, and the block of each window is written as soon as all
//! lanes have ended it. Nothing is kept of the frames but what the engine keeps, and of the file no more than one buffer.
ghost use Rattle.std.specs.Prelude.{◌≡◌, ◌+◌, [], ◌∷◌, Some};
ghost use Rattle.sn_engine.specs.Intakes.{total};
ghost use Rattle.sn_command_finish.specs.Reported.{Answered, ReportedIn};
ghost use Rattle.sn_command_finish.specs.Standings.{standing};
ghost use Rattle.sn_command_finish.specs.Taken.{ended};
ghost use Rattle.sn_plan_fit.specs.Fits.{HasShape};
ghost use Rattle.sn_out.specs.Text.{total_line};
ghost use Rattle.sn_command.specs.Desks.{world};
ghost use Rattle.sn_command.specs.Runs.{Runs};
ghost use Rattle.sn_command.specs.Stages.{Adds, Does, Then};
ghost use Rattle.sn_command_capture.specs.Capture.{Whole};

use crate::taking::refusal_at;
use crate::tally::Tally;
use crate::window::take_frame;
use sn_command::desk::Desk;
use sn_command::fault::ReportKind;
use sn_command::files::read_refusal;
use sn_command::refusal::Refusal;
use sn_command::texts::write_text;
use sn_engine::engine::Engine;
use sn_io::inputs::Inputs;
use sn_io::sink::Sink;
use sn_out::lines::total;
use sn_plan_grammar::plan::Plan;
use sn_report_reader::reader::{Next, Reader};
use sn_types::typed::Typed;
use std::alloc::Global;

/// Writes the total.
fn write_total<I: Inputs, O: Sink>(
    alloc: Global,
    windows: u64,
    emitted: u64,
    desk: &mut Desk<'_, I, O>,
) -> Result<(), Refusal>
    ensures { Runs [] (Adds (total_line windows (Some emitted))) (world I.Inputs O.Sink desk.old) result (world I.Inputs O.Sink desk.new) }
{
    let line = total(alloc, windows, Some(emitted))?;
    write_text(line.as_slice(), desk)
}

/// Ends a file of this many bytes, after the last frame.
fn end_reports<I: Inputs, O: Sink>(
    alloc: Global,
    tally: &Tally,
    size: u64,
    desk: &mut Desk<'_, I, O>,
) -> Result<(), Refusal>
    ensures { Runs [] (Does (ended size (standing tally.now))) (world I.Inputs O.Sink desk.old) result (world I.Inputs O.Sink desk.new) }
{
    if tally.engine.started() {
        return Err(refusal_at(ReportKind::Unfinished, size));
    }
    write_total(alloc, tally.windows, tally.emitted, desk)
}

/// Takes the frames of a file, one after another.
fn take_frames<I: Inputs, O: Sink>(
    alloc: Global,
    begun: Tally,
    name: &str,
    desk: &mut Desk<'_, I, O>,
) -> Result<(), Refusal>
    requires windows { begun.windows ≡ 0 }
    requires emitted { begun.emitted + total begun.engine.lanes.items ≡ 0 }
    ensures { Runs (name.now ∷ []) (Then (Whole name.now) (λ file. Answered begun.engine.t.queries (standing begun) file)) (world I.Inputs O.Sink desk.old)
        result (world I.Inputs O.Sink desk.new) }
{
    let mut reader = Reader::make(alloc)?;
    let mut tally = begun;
    'frames: loop {
        let at = reader.offset();
        match reader.next(desk.files, name) {
            Ok(Next::Frame(frame)) => tally = take_frame(alloc, tally, &frame, at, desk)?,
            Ok(Next::Bad(place)) => return Err(refusal_at(ReportKind::Bad, place)),
            Ok(Next::Cut) => return Err(refusal_at(ReportKind::Cut, at)),
            Ok(Next::End) => return end_reports(alloc, &tally, at, desk),
            Err(error) => return Err(read_refusal(error)),
        }
    }
}

/// Answers the reports of a plan that has the shape of the queries.
pub(crate) fn answer_reports<I: Inputs, O: Sink>(
    alloc: Global,
    t: &Typed,
    plan: &Plan,
    name: &str,
    desk: &mut Desk<'_, I, O>,
) -> Result<(), Refusal>
    requires { HasShape t.now.queries plan.now.entries }
    ensures { Runs (name.now ∷ []) (ReportedIn t.now.queries plan.now.entries name.now) (world I.Inputs O.Sink desk.old) result (world I.Inputs O.Sink desk.new) }
{
    let engine = Engine::make(alloc, t, plan)?;
    let begun = Tally {
        engine,
        windows: 0,
        emitted: 0,
    };
    take_frames(alloc, begun, name, desk)
}
