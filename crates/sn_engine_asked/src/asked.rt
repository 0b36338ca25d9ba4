//! The lanes whose answers a later level asks for, and an engine that takes the rows of these alone.
ghost use Rattle.std.specs.Prelude.{◌≡◌, OnOk};
ghost use Rattle.sn_engine_asked.specs.Asked.{after_heard, is_asked, is_heard};
ghost use Rattle.sn_report.specs.Items.{frame_by};

use sn_base::any_row::AnyRow;
use sn_base::lane::Lane;
use sn_base::memory::Memory;
use sn_emit::given::{AnyFrame, Given};
use sn_engine::engine::Engine;
use sn_engine::lane_row::LaneRow;
use sn_plan_grammar::plan::Entry;
use sn_report::frame::Frame;

/// Whether another level comes after that of a lane on the path of its query: it admits what the lane's level is answered.
pub fn is_asked(plan: &[Entry], lane: Lane) -> bool
    ensures { result ≡ is_asked plan.now lane }
{
    match plan.get(usize::from(lane.query)) {
        Some(entry) => usize::from(lane.level) + 1 < entry.levels.as_slice().len(),
        None => false,
    }
}

/// Whether the engine takes a frame: rows of lanes that a later level asks for, and the Ends of all, without which no window closes.
fn is_heard<R: AnyRow>(plan: &[Entry], frame: &Frame<R>) -> bool
    ensures { result ≡ is_heard plan.now (frame_by R.columns frame.now) }
{
    match frame {
        Frame::Row(lane, _) => is_asked(plan, *lane),
        Frame::End(_, _) => true,
    }
}

/// The engine takes a frame over rows of one kind, if it is to.
fn hear_row<R: LaneRow>(plan: &[Entry], engine: &mut Engine, frame: &Frame<R>) -> Result<(), Memory>
    ensures taken { OnOk result (engine.new.lanes.items ≡ after_heard plan.now engine.old.lanes.items (frame_by R.columns frame.now)) }
    ensures queries { engine.new.t.queries ≡ engine.old.t.queries }
    ensures closed { engine.new.closed ≡ engine.old.closed }
    ensures prefixes { engine.new.kept ≡ engine.old.kept }
{
    if !is_heard(plan, frame) {
        return Ok(());
    }
    match engine.take(frame) {
        Ok(()) => Ok(()),
        Err(_) => Err(Memory),
    }
}

/// The engine takes a frame, whatever kind of rows it has, if it is to.
pub(crate) fn hear(plan: &[Entry], engine: &mut Engine, frame: &Given) -> Result<(), Memory>
    ensures taken { OnOk result (engine.new.lanes.items ≡ after_heard plan.now engine.old.lanes.items frame.now) }
    ensures queries { engine.new.t.queries ≡ engine.old.t.queries }
    ensures closed { engine.new.closed ≡ engine.old.closed }
    ensures prefixes { engine.new.kept ≡ engine.old.kept }
{
    match frame.kind() {
        AnyFrame::Short(frame) => hear_row(plan, engine, frame),
        AnyFrame::Wide(frame) => hear_row(plan, engine, frame),
    }
}
