//! Frames that the engine takes, and why reports are refused.
ghost use Rattle.std.specs.Prelude.{◌≡◌, OnOk};
ghost use Rattle.sn_engine.specs.Intakes.{after_frame};
ghost use Rattle.sn_engine.specs.Taking.{take_fault};
ghost use Rattle.sn_command_finish.specs.Taken.{fault_at, take_verdict};
ghost use Rattle.sn_command.specs.declared.refusal.Refusal.TheVariants.{Refused};
ghost use Rattle.sn_command.specs.Runs.{Answers};

use sn_base::row::Row;
use sn_command::fault::{Fault, ReportFault, ReportKind};
use sn_command::refusal::Refusal;
use sn_engine::engine::Engine;
use sn_engine::fault::TakeFault;
use sn_report::frame::Frame;

/// The refusal of reports for this, at this byte.
pub(crate) fn refusal_at(kind: ReportKind, at: u64) -> Refusal
    ensures { result ≡ Refused (fault_at kind at) }
{
    Refusal::Refused(Fault::Reports(ReportFault { kind, at }))
}

/// The engine takes a frame that begins at this byte.
pub(crate) fn take(engine: &mut Engine, frame: &Frame<Row>, at: u64) -> Result<(), Refusal>
    ensures verdict { Answers (λ verdict. verdict ≡
        take_verdict at (take_fault engine.old.t.queries engine.old.lanes.items engine.old.closed frame.now)) result }
    ensures taken { OnOk result (engine.new.lanes.items ≡ after_frame engine.old.lanes.items frame.now) }
    ensures closed { engine.new.closed ≡ engine.old.closed }
    ensures prefixes { engine.new.kept ≡ engine.old.kept }
    ensures queries { engine.new.t.queries ≡ engine.old.t.queries }
{
    match engine.take(frame) {
        Ok(()) => Ok(()),
        Err(TakeFault::Stranger) => Err(refusal_at(ReportKind::Stranger, at)),
        Err(TakeFault::Width) => Err(refusal_at(ReportKind::Width, at)),
        Err(TakeFault::AfterEnd) => Err(refusal_at(ReportKind::AfterEnd, at)),
        Err(TakeFault::Window) => Err(refusal_at(ReportKind::Window, at)),
        Err(TakeFault::Memory) => Err(Refusal::Memory),
    }
}
