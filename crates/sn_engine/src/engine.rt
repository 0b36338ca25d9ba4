//! The engine.
ghost use Rattle.std.specs.Prelude.{◌≡◌, ◌<◌, ◌^◌, [], length, map, position, slice_get, is_some, fold, true, false, Some, None, IfOk, OnOk, OnErr};
ghost use Rattle.std.specs.List.{list_all, list_any};
ghost use Rattle.std.specs.Option.{option_map_or};
ghost use Rattle.sn_engine.specs.Intakes.{AreIntakes, are_intakes_prop, EndsAgree, ends_agree_prop, total, with_item, with_end};
ghost use Rattle.sn_engine.specs.Intakes.{is_lane, after_frame, emptied, shared};
ghost use Rattle.sn_engine.specs.Intakes.{has_ended, has_started, intakes_of};
ghost use Rattle.sn_base.specs.Changed.{with_first};
ghost use Rattle.sn_engine.specs.Taking.{take_fault, Refuses};
ghost use Rattle.sn_engine.specs.Moving.{after_lane, has_lane_for};
ghost use Rattle.sn_engine.specs.Answers.{Closes, window_of};
ghost use Rattle.sn_engine.specs.Keeping.{gathered, kept_for};
ghost use Rattle.sn_plan_fit.specs.Fits.{HasShape};
ghost use Rattle.sn_report.specs.Items.{frame_by, item_by};
ghost use Rattle.sn_report.specs.declared.frame.Frame.TheVariants as Frame;

use crate::answers::{first_open, parts, window_of};
use crate::fault::{CloseFault, TakeFault};
use crate::intake::Intake;
use crate::keep::{gather, kept_for};
use crate::lane_row::LaneRow;
use crate::make::intakes;
use crate::moving::{has_lanes_for, move_counted};
use crate::refuse::{place_for_end, place_for_item};
use sn_base::lane::Lane;
use sn_base::members::Members;
use sn_base::memory::Memory;
use sn_base::seq::Seq;
use sn_plan_grammar::plan::Plan;
use sn_report::frame::{Frame, Item};
use sn_types::answers::Answers;
use sn_types::typed::Typed;
use std::alloc::Global;

/// Takes the frames of a plan's lanes, in any order between the lanes, and answers each window once all lanes have ended it.
#[derive(Drop)]
pub struct Engine {
    pub alloc: Global,
    pub t: Typed,
    /// By lane: the pieces of the plan in their order.
    pub lanes: Vec<Intake>,
    /// How many items came since the last close.
    pub count: u64,
    /// The window that was closed last.
    pub closed: Option<u64>,
    /// By lane: the prefixes that the answers of that window have at the level before the lane's own.
    pub kept: Seq<Members>,
    ghost counted: { count ≡ total lanes.items },
    // so that the number of a lane is one for `Unfinished`
    ghost few: { length lanes.items < 2 ^ 32 },
    ghost agreed: { EndsAgree lanes.items } by { ends_agree_prop lanes.items },
    ghost sound: { AreIntakes t.queries lanes.items } by { are_intakes_prop t.queries lanes.items },
}

/// Adds an item to a lane.
fn push_item<R: LaneRow>(
    lanes: &mut Vec<Intake>,
    at: usize,
    lane: Lane,
    item: &Item<R>,
) -> Result<(), TakeFault>
    requires { position (is_lane lane) lanes.old.items ≡ Some at }
    ensures ok { OnOk result (lanes.new.items ≡ with_first (is_lane lane) (with_item (item_by R.columns item.now)) lanes.old.items) }
    ensures err { OnErr result (lanes.new.items ≡ lanes.old.items) }
    ensures fault { OnErr result (result ≡ Err TakeFault.Memory) }
{
    lanes[at].push(item)
}

/// Ends a lane's window.
fn put_end(lanes: &mut Vec<Intake>, at: usize, lane: Lane, window: u64)
    requires { position (is_lane lane) lanes.old.items ≡ Some at }
    ensures { lanes.new.items ≡ with_first (is_lane lane) (with_end window) lanes.old.items }
{
    lanes[at].end(window);
}

/// Empties all lanes.
fn empty_all(lanes: &mut [Intake])
    ensures { lanes.new ≡ map emptied lanes.old }
{
    for x in lanes.iter_mut() {
        x.empty();
    }
}

/// From now on several switches send on all lanes.
fn share_all(lanes: &mut [Intake])
    ensures { lanes.new ≡ map shared lanes.old }
{
    for x in lanes.iter_mut() {
        x.share();
    }
}

impl Engine {
    /// The engine of a plan that has the shape of the queries. Nothing has come, and no window was closed.
    pub fn make(alloc: Global, t: &Typed, plan: &Plan) -> Result<Engine, Memory>
        requires { HasShape t.now.queries plan.now.entries }
        ensures queries { IfOk result (λ engine. engine.t.queries ≡ t.now.queries) }
        ensures lanes { IfOk result (λ engine. engine.lanes.items ≡ intakes_of 0 plan.now.entries) }
        ensures closed { IfOk result (λ engine. engine.closed ≡ None) }
        ensures prefixes { IfOk result (λ engine. engine.kept ≡ []) }
    {
        let lanes = intakes(alloc, plan.entries.as_slice())?;
        let copied = t.copy()?;
        Ok(Engine {
            alloc,
            t: copied,
            lanes,
            count: 0,
            closed: None,
            kept: Seq::new(alloc),
        })
    }

    /// The engine of a plan that several switches run. Each stops in a branch at the first operator that has registers, and what it
    /// sends of this operator has its number: rows of an overflow and the rows that a distinct saw first as `At`, what a reduce
    /// holds as `Partial`. Where no operator before the cut has registers, a switch sends the rows that come to the cut, as `At` the cut.
    /// Nothing has come, and no window was closed.
    pub fn make_many(alloc: Global, t: &Typed, plan: &Plan) -> Result<Engine, Memory>
        requires { HasShape t.now.queries plan.now.entries }
        ensures queries { IfOk result (λ engine. engine.t.queries ≡ t.now.queries) }
        ensures lanes { IfOk result (λ engine. engine.lanes.items ≡ map shared (intakes_of 0 plan.now.entries)) }
        ensures closed { IfOk result (λ engine. engine.closed ≡ None) }
        ensures prefixes { IfOk result (λ engine. engine.kept ≡ []) }
    {
        let mut engine = Engine::make(alloc, t, plan)?;
        engine.share();
        Ok(engine)
    }

    /// From now on several switches send on all lanes.
    fn share(&mut self)
        ensures lanes { self.new.lanes.items ≡ map shared self.old.lanes.items }
        ensures closed { self.new.closed ≡ self.old.closed }
        ensures prefixes { self.new.kept ≡ self.old.kept }
        ensures queries { self.new.t.queries ≡ self.old.t.queries }
    {
        share_all(&mut self.lanes);
    }

    fn take_item<R: LaneRow>(&mut self, lane: Lane, item: &Item<R>) -> Result<(), TakeFault>
        ensures fault { Refuses result (take_fault self.old.t.queries self.old.lanes.items self.old.closed (Frame.Row lane (item_by R.columns item.now))) }
        ensures taken { OnOk result (self.new.lanes.items ≡ after_frame self.old.lanes.items (Frame.Row lane (item_by R.columns item.now))) }
        ensures kept { OnErr result (self.new.lanes.items ≡ self.old.lanes.items) }
        ensures closed { self.new.closed ≡ self.old.closed }
        ensures prefixes { self.new.kept ≡ self.old.kept }
        ensures queries { self.new.t.queries ≡ self.old.t.queries }
    {
        let at = place_for_item(&self.t, &self.lanes, lane, item)?;
        if self.count == u64::MAX {
            return Err(TakeFault::Memory);
        }
        push_item(&mut self.lanes, at, lane, item)?;
        self.count += 1;
        Ok(())
    }

    fn take_end(&mut self, lane: Lane, window: u64) -> Result<(), TakeFault>
        ensures fault { Refuses result (take_fault self.old.t.queries self.old.lanes.items self.old.closed (Frame.End lane window)) }
        ensures taken { OnOk result (self.new.lanes.items ≡ after_frame self.old.lanes.items (Frame.End lane window)) }
        ensures kept { OnErr result (self.new.lanes.items ≡ self.old.lanes.items) }
        ensures closed { self.new.closed ≡ self.old.closed }
        ensures prefixes { self.new.kept ≡ self.old.kept }
        ensures queries { self.new.t.queries ≡ self.old.t.queries }
    {
        let at = place_for_end(&self.lanes, self.closed, lane, window)?;
        put_end(&mut self.lanes, at, lane, window);
        Ok(())
    }

    /// Takes a frame. A refusal changes nothing. Refusals are looked for in the order of the variants, out of memory last.
    pub fn take<R: LaneRow>(&mut self, frame: &Frame<R>) -> Result<(), TakeFault>
        ensures fault { Refuses result (take_fault self.old.t.queries self.old.lanes.items self.old.closed (frame_by R.columns frame.now)) }
        ensures taken { OnOk result (self.new.lanes.items ≡ after_frame self.old.lanes.items (frame_by R.columns frame.now)) }
        ensures kept { OnErr result (self.new.lanes.items ≡ self.old.lanes.items) }
        ensures closed { self.new.closed ≡ self.old.closed }
        ensures prefixes { self.new.kept ≡ self.old.kept }
        ensures queries { self.new.t.queries ≡ self.old.t.queries }
    {
        match frame {
            Frame::Row(lane, item) => self.take_item(*lane, item),
            Frame::End(lane, window) => self.take_end(*lane, *window),
        }
    }

    /// Whether this engine has a lane for each lane of the engine of one of several switches, of the same name and of the columns of its
    /// rows. It has, where both are of one plan and its queries.
    pub fn has_lanes_of(&self, switch: &Engine) -> bool
        ensures { result ≡ list_all (has_lane_for self.now.t.queries self.now.lanes.items switch.now.t.queries) switch.now.lanes.items }
    {
        has_lanes_for(&self.t, &self.lanes, &switch.t, &switch.lanes)
    }

    /// Moves all items of the engine of one of several switches to the lanes of the same names, after those that they have. An item that
    /// stands after the operator whose rows its lane keeps gets the tag of these. The other engine is then empty, without Ends, and
    /// both keep a room for the next window. Out of memory, what came to this engine since the last close is dropped too.
    pub fn take_all(&mut self, switch: &mut Engine) -> Result<(), Memory>
        requires { list_all (has_lane_for self.old.t.queries self.old.lanes.items switch.old.t.queries) switch.old.lanes.items ≡ true }
        ensures taken { OnOk result (self.new.lanes.items ≡ fold (after_lane switch.old.t.queries) self.old.lanes.items switch.old.lanes.items) }
        ensures dropped { OnErr result (self.new.lanes.items ≡ map emptied self.old.lanes.items) }
        ensures closed { self.new.closed ≡ self.old.closed }
        ensures prefixes { self.new.kept ≡ self.old.kept }
        ensures queries { self.new.t.queries ≡ self.old.t.queries }
        ensures switch_emptied { switch.new.lanes.items ≡ map emptied switch.old.lanes.items }
        ensures switch_closed { switch.new.closed ≡ switch.old.closed }
        ensures switch_prefixes { switch.new.kept ≡ switch.old.kept }
        ensures switch_queries { switch.new.t.queries ≡ switch.old.t.queries }
    {
        let lanes = &mut switch.lanes;
        let counted = move_counted(&mut self.lanes, self.count, &switch.t, lanes, switch.count);
        empty_all(&mut switch.lanes);
        switch.count = 0;
        let Ok(count) = counted else {
            empty_all(&mut self.lanes);
            self.count = 0;
            return Err(Memory);
        };
        self.count = count;
        Ok(())
    }

    /// What `close_window` would answer. Nothing changes.
    pub fn value(&self) -> Result<Answers, CloseFault>
        ensures answers { let lanes = self.now.lanes.items in
            Closes self.now.t.queries (kept_for self.now.closed self.now.kept (window_of lanes)) lanes result }
        ensures ended { IfOk result (λ answers. list_all (has_ended answers.window) self.now.lanes.items ≡ true) }
    {
        if let Some(lane) = first_open(&self.lanes) {
            return Err(CloseFault::Unfinished(lane as u32));
        }
        let window = window_of(&self.lanes);
        let sets = kept_for(self.closed, self.kept.as_slice(), window);
        match parts(self.alloc, &self.t, &self.lanes, sets) {
            Ok(parts) => Ok(Answers {
                window,
                emitted: self.count,
                parts,
            }),
            Err(_) => Err(CloseFault::Memory),
        }
    }

    /// What an engine keeps of answers, by lane: the prefixes that they have at the level before the lane's own.
    pub fn gathered(&self, answers: &Answers) -> Result<Seq<Members>, Memory>
        ensures { IfOk result (λ sets. sets ≡ gathered self.now.t.queries answers.now.parts self.now.lanes.items) }
    {
        gather(self.alloc, &self.t, answers.parts.as_slice(), &self.lanes)
    }

    /// The answers of the window that all lanes have ended: the value of the items that came since the last close, sorted,
    /// and their number. On a lane with a level before its own, items of other prefixes than the window before was answered
    /// with at that level are dropped before, and counted nevertheless; all of them, if that window wasn't closed last.
    /// The engine is then empty, and keeps the number of the window and its prefixes. A refusal changes nothing.
    pub fn close_window(&mut self) -> Result<Answers, CloseFault>
        ensures answers { let lanes = self.old.lanes.items in
            Closes self.old.t.queries (kept_for self.old.closed self.old.kept (window_of lanes)) lanes result }
        // All lanes have ended the one window that is answered.
        ensures ended { IfOk result (λ answers. list_all (has_ended answers.window) self.old.lanes.items ≡ true) }
        ensures emptied { OnOk result (self.new.lanes.items ≡ map emptied self.old.lanes.items) }
        ensures last { IfOk result (λ answers. self.new.closed ≡ Some answers.window) }
        ensures prefixes { IfOk result (λ answers. self.new.kept ≡ gathered self.old.t.queries answers.parts self.old.lanes.items) }
        ensures kept { OnErr result ((self.new.lanes.items ≡ self.old.lanes.items) × (self.new.closed ≡ self.old.closed)
            × (self.new.kept ≡ self.old.kept)) }
        ensures queries { self.new.t.queries ≡ self.old.t.queries }
    {
        let answers = self.value()?;
        match self.gathered(&answers) {
            Ok(sets) => self.empty(answers.window, sets),
            Err(_) => return Err(CloseFault::Memory),
        }
        Ok(answers)
    }

    /// Closes the window that all lanes have ended, without its answers, which `value` gave. The engine is then empty, and keeps
    /// the number of the window and these prefixes by lane, which `gathered` gave. Takes no memory.
    pub fn empty(&mut self, window: u64, sets: Seq<Members>)
        requires { list_all (has_ended window) self.old.lanes.items ≡ true }
        ensures emptied { self.new.lanes.items ≡ map emptied self.old.lanes.items }
        ensures last { self.new.closed ≡ Some window }
        ensures prefixes { self.new.kept ≡ sets }
        ensures queries { self.new.t.queries ≡ self.old.t.queries }
    {
        empty_all(&mut self.lanes);
        self.count = 0;
        self.closed = Some(window);
        self.kept = sets;
    }

    /// Drops what came since the last close, as if it hadn't come. Takes no memory.
    pub fn clear(&mut self)
        ensures emptied { self.new.lanes.items ≡ map emptied self.old.lanes.items }
        ensures closed { self.new.closed ≡ self.old.closed }
        ensures prefixes { self.new.kept ≡ self.old.kept }
        ensures queries { self.new.t.queries ≡ self.old.t.queries }
    {
        empty_all(&mut self.lanes);
        self.count = 0;
    }

    /// Whether a lane has ended the window. A lane that is no piece of the plan never has.
    pub fn lane_ended(&self, lane: u32) -> bool
        ensures { result ≡ option_map_or (λ x. is_some x.end) (slice_get self.now.lanes.items lane) false }
    {
        match self.lanes.get(lane as usize) {
            Some(x) => !x.is_open(),
            None => false,
        }
    }

    /// Whether a frame came since the last close.
    pub fn started(&self) -> bool
        ensures { result ≡ list_any has_started self.now.lanes.items }
    {
        self.lanes.iter().any(|x| x.has_started())
    }
}
