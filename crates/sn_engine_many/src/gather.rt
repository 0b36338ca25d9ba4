//! What the switches have gathered goes to the one engine.
ghost use Rattle.std.specs.Prelude.{◌≡◌, ◌<◌, ◌⊎◌, ◌↔◌, IfOk, IfSome, IsNone, OnOk, Some, fold, map, true};
ghost use Rattle.std.specs.List.{flat_map, list_all, list_any};
ghost use Rattle.sn_engine.specs.Answers.{parts_of, window_of};
ghost use Rattle.sn_engine.specs.Intakes.{after_frame, emptied, has_ended, total};
ghost use Rattle.sn_engine.specs.Keeping.{gathered};
ghost use Rattle.sn_engine.specs.Moving.{name_of};
ghost use Rattle.sn_engine_lockstep.specs.Work.{lanes_left};
ghost use Rattle.sn_engine_many.specs.Frames.{end_of, frames_of};

use sn_base::lane::Lane;
use sn_base::memory::Memory;
use sn_base::short_row::ShortRow;
use sn_engine::engine::Engine;
use sn_engine::intake::Intake;
use sn_report::frame::Frame;
use sn_types::answers::Answers;

/// The name of a lane in frames. `None` exactly where one of its numbers has no byte there, as no plan's.
fn name_of(x: &Intake) -> Option<Lane>
    ensures some { IfSome result (λ lane. lane ≡ name_of x.now) }
    ensures none { IsNone result ↔ ((255 < x.now.query) ⊎ (255 < x.now.place) ⊎ (255 < x.now.branch)) }
{
    if x.query > 255 || x.place > 255 || x.branch > 255 {
        return None;
    }
    Some(Lane {
        query: x.query as u8,
        level: x.place as u8,
        branch: x.branch as u8,
    })
}

/// The engine takes the items of all lanes of a switch, each with its tag among several switches; the engine of the switch is then empty.
/// `Memory` also where the engine has no lane of the name and columns of one of the switch, as it has for each switch of its plan.
pub(crate) fn gather(engine: &mut Engine, switch: &mut Engine) -> Result<(), Memory>
    ensures taken { OnOk result (engine.new.lanes.items
        ≡ fold after_frame engine.old.lanes.items (flat_map (frames_of switch.old.t.queries) switch.old.lanes.items)) }
    ensures queries { engine.new.t.queries ≡ engine.old.t.queries }
    ensures closed { engine.new.closed ≡ engine.old.closed }
    ensures prefixes { engine.new.kept ≡ engine.old.kept }
    ensures switch_emptied { OnOk result (switch.new.lanes.items ≡ map emptied switch.old.lanes.items) }
    ensures switch_queries { switch.new.t.queries ≡ switch.old.t.queries }
{
    if !engine.has_lanes_of(switch) {
        return Err(Memory);
    }
    engine.take_all(switch)
}

/// The engine takes the End of a lane.
fn end_lane(engine: &mut Engine, x: &Intake, window: u64) -> Result<(), Memory>
    ensures taken { OnOk result (engine.new.lanes.items ≡ after_frame engine.old.lanes.items (end_of window x.now)) }
    ensures ended { OnOk result (list_any (has_ended window) engine.new.lanes.items ≡ true) }
    ensures queries { engine.new.t.queries ≡ engine.old.t.queries }
    ensures closed { engine.new.closed ≡ engine.old.closed }
    ensures prefixes { engine.new.kept ≡ engine.old.kept }
{
    let Some(lane) = name_of(x) else {
        return Err(Memory);
    };
    let end: Frame<ShortRow> = Frame::End(lane, window);
    match engine.take(&end) {
        Ok(()) => Ok(()),
        Err(_) => Err(Memory),
    }
}

/// The engine takes one End for each of these lanes. `Memory` also where there is none, though each plan has one.
pub(crate) fn end_lanes(engine: &mut Engine, lanes: &[Intake], window: u64) -> Result<(), Memory>
    ensures taken { OnOk result (engine.new.lanes.items ≡ fold after_frame engine.old.lanes.items (map (end_of window) lanes.now)) }
    ensures ended { OnOk result (list_any (has_ended window) engine.new.lanes.items ≡ true) }
    ensures queries { engine.new.t.queries ≡ engine.old.t.queries }
    ensures closed { engine.new.closed ≡ engine.old.closed }
    ensures prefixes { engine.new.kept ≡ engine.old.kept }
{
    if lanes.is_empty() {
        return Err(Memory);
    }
    for x in lanes {
        end_lane(engine, x, window)?;
    }
    Ok(())
}

/// The engine answers the window that all lanes have ended: of the items that are left, once it has dropped those of other prefixes than
/// it keeps of the window before.
pub(crate) fn close(engine: &mut Engine) -> Result<Answers, Memory>
    ensures ended { IfOk result (λ answers. list_all (has_ended answers.window) engine.old.lanes.items ≡ true) }
    ensures emitted { IfOk result (λ answers. answers.emitted ≡ total engine.old.lanes.items) }
    ensures parts { IfOk result (λ answers. answers.parts ≡ parts_of engine.old.t.queries
        (lanes_left engine.old.t.queries engine.old.closed engine.old.kept engine.old.lanes.items)) }
    ensures closed { OnOk result (engine.new.closed ≡ Some (window_of engine.old.lanes.items)) }
    ensures prefixes { IfOk result (λ answers. engine.new.kept ≡ gathered engine.old.t.queries answers.parts engine.old.lanes.items) }
    ensures emptied { OnOk result (engine.new.lanes.items ≡ map emptied engine.old.lanes.items) }
    ensures queries { engine.new.t.queries ≡ engine.old.t.queries }
{
    match engine.close_window() {
        Ok(answers) => Ok(answers),
        Err(_) => Err(Memory),
    }
}
