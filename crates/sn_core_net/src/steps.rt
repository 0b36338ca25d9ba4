//! The events.
ghost use Rattle.std.specs.Prelude.{◌≡◌, ◌<◌, suc, map, nat_eq, length, true, IfOk, OnOk, OnErr, None};
ghost use Rattle.sn_core.specs.Events.{after_event, kept_for_held, window_of_held};
ghost use Rattle.sn_core.specs.Needs.{first_need_that_fails};
ghost use Rattle.sn_core.specs.declared.event.Event.TheVariants as Event;
ghost use Rattle.sn_core.specs.declared.supply.Window.TheVariants as Window;
ghost use Rattle.sn_engine_lockstep.specs.Sources.{prefixes_in};
ghost use Rattle.sn_engine.specs.Answers.{answers_of, window_of};
ghost use Rattle.sn_engine.specs.Keeping.{kept_for};
ghost use Rattle.sn_core_net.specs.Holders.{all_begun};
ghost use Rattle.sn_core_net.specs.Nets.{state, works};
ghost use Rattle.sn_core_net.specs.Reports.{window_number};
ghost use Rattle.sn_core_net.specs.Steps.{IsOneOf, Steps, takes_memory};

use crate::fault::StepFault;
use crate::holder::Holder;
use crate::lanes::{begin_all, begin_all_bare, take_in_all};
use crate::marks::Marks;
use crate::net::Net;
use crate::prefixes::prefix_sets;
use sn_base::members::Members;
use sn_base::memory::Memory;
use sn_base::seq::Seq;
use sn_core::event::Event;
use sn_core::supply::{Supply, Window};
use sn_engine::engine::Engine;
use sn_fields::tuple::Tuple;
use sn_types::answers::Answers;
use std::alloc::Global;

/// Whether a window is the next one.
fn is_next(closed: u64, number: u64) -> bool
    ensures { result ≡ nat_eq number (suc closed) }
{
    if number == 0 {
        return false;
    }
    number - 1 == closed
}

/// The window that what is held begins.
fn window_of_held(held: &Option<Supply<Tuple>>) -> Window
    ensures { result ≡ window_of_held held.now }
{
    match held {
        Some(Supply::Numbered(number, _)) => Window::Begun(*number),
        _ => Window::Idle,
    }
}

/// Begins the window of what is held in all lanes, with the prefixes of the closed window if that was the one before it.
fn begin_next(
    alloc: Global,
    lanes: &mut Vec<Holder>,
    closed: u64,
    installs: &mut Vec<Members>,
    held: &Option<Supply<Tuple>>,
)
    ensures { lanes.new.items ≡ all_begun lanes.old.items (kept_for_held closed installs.old.items held.now) }
{
    match held {
        Some(Supply::Numbered(number, _)) => {
            if is_next(closed, *number) {
                begin_all(alloc, lanes, installs);
            } else {
                begin_all_bare(alloc, lanes);
            }
        }
        _ => begin_all_bare(alloc, lanes),
    }
}

/// The number of the window that is begun or closed, and 0 where none is.
fn window_number(window: &Window) -> u64
    ensures { result ≡ window_number window.now }
{
    match window {
        Window::Idle => 0,
        Window::Begun(number) => *number,
        Window::Closed(number) => *number,
    }
}

/// The answers of the window that all lanes have ended.
fn value(engine: &Engine) -> Result<Answers, Memory>
    ensures { let lanes = engine.now.lanes.items in
        IfOk result (λ answers. answers ≡ answers_of engine.now.t.queries (kept_for engine.now.closed engine.now.kept (window_of lanes)) lanes) }
{
    match engine.value() {
        Ok(answers) => Ok(answers),
        Err(_) => Err(Memory),
    }
}

impl Net {
    /// The held tuple goes to every lane.
    fn packet(&mut self)
        requires { first_need_that_fails (state self.old) Event.Packet ≡ None }
        ensures state { state self.new ≡ after_event (works self.old) (state self.old) Event.Packet }
        ensures works { works self.new ≡ works self.old }
    {
        if let Some(held) = &self.held {
            if let Supply::Numbered(_, tuple) = held {
                take_in_all(&mut self.lanes, tuple, self.room, &mut self.marks);
                self.held = None;
            }
        }
    }

    /// A lane appends its next row, or its End.
    fn read_out(&mut self, lane: u32)
        requires lane { lane < length self.old.lanes.items }
        requires may { first_need_that_fails (state self.old) (Event.ReadOut lane) ≡ None }
        ensures state { state self.new ≡ after_event (works self.old) (state self.old) (Event.ReadOut lane) }
        ensures works { works self.new ≡ works self.old }
    {
        let window = window_number(&self.window);
        self.lanes[lane as usize].append_next(window);
        self.marks.see(lane, &self.lanes[lane as usize], self.room);
    }

    /// The engine takes the first frame of a lane. The frame stays where memory runs out.
    fn deliver(&mut self, lane: u32) -> Result<(), Memory>
        requires lane { lane < length self.old.lanes.items }
        requires may { first_need_that_fails (state self.old) (Event.Deliver lane) ≡ None }
        ensures ok { OnOk result (state self.new ≡ after_event (works self.old) (state self.old) (Event.Deliver lane)) }
        ensures err { OnErr result (state self.new ≡ state self.old) }
        ensures works { works self.new ≡ works self.old }
    {
        let taken = self.lanes[lane as usize].deliver(&mut self.engine);
        self.marks.see(lane, &self.lanes[lane as usize], self.room);
        taken
    }

    /// The answers of the window that all lanes have ended, and twice the prefixes that they keep for each lane: to install, and
    /// for the engine to keep.
    fn answer(&self) -> Result<(Answers, Vec<Members>, Seq<Members>), Memory>
        ensures answers { let engine = self.now.engine in let lanes = engine.lanes.items in
            IfOk result (λ found. found.0 ≡ answers_of engine.t.queries (kept_for engine.closed engine.kept (window_of lanes)) lanes) }
        ensures sets { IfOk result (λ found. found.1.items ≡ map (prefixes_in self.now.engine.t.queries found.0.parts) self.now.sources) }
        ensures kept { IfOk result (λ found. found.2 ≡ map (prefixes_in self.now.engine.t.queries found.0.parts) self.now.sources) }
    {
        let answers = value(&self.engine)?;
        let sets = prefix_sets(&self.engine, &answers, &self.sources)?;
        let kept = prefix_sets(&self.engine, &answers, &self.sources)?;
        Ok((answers, sets.into_vec(), kept))
    }

    /// Closes the window, whose answers and prefixes these are.
    fn close_with(&mut self, number: u64, answers: Answers, sets: Vec<Members>, kept: Seq<Members>)
        requires begun { self.old.window ≡ Window.Begun number }
        requires may { first_need_that_fails (state self.old) Event.CloseWindow ≡ None }
        requires answers { let engine = self.old.engine in let lanes = engine.lanes.items in
            answers ≡ answers_of engine.t.queries (kept_for engine.closed engine.kept (window_of lanes)) lanes }
        requires sets { sets.items ≡ map (prefixes_in self.old.engine.t.queries answers.parts) self.old.sources }
        requires kept { kept ≡ map (prefixes_in self.old.engine.t.queries answers.parts) self.old.sources }
        ensures state { state self.new ≡ after_event (works self.old) (state self.old) Event.CloseWindow }
        ensures works { works self.new ≡ works self.old }
    {
        self.engine.empty(number, kept);
        self.installs = sets;
        self.waiting = Some(answers);
        self.window = Window::Closed(number);
    }

    /// The engine answers the window. It is emptied once all is made that the answers need.
    fn close_window(&mut self) -> Result<(), Memory>
        requires { first_need_that_fails (state self.old) Event.CloseWindow ≡ None }
        ensures ok { OnOk result (state self.new ≡ after_event (works self.old) (state self.old) Event.CloseWindow) }
        ensures err { OnErr result (state self.new ≡ state self.old) }
        ensures works { works self.new ≡ works self.old }
    {
        match self.window {
            Window::Begun(number) => {
                let (answers, sets, kept) = self.answer()?;
                self.close_with(number, answers, sets, kept);
                Ok(())
            }
            _ => Ok(()),
        }
    }

    /// The lanes begin the window of the held tuple, if one is held.
    fn install(&mut self)
        requires { first_need_that_fails (state self.old) Event.Install ≡ None }
        ensures state { state self.new ≡ after_event (works self.old) (state self.old) Event.Install }
        ensures works { works self.new ≡ works self.old }
    {
        if let Window::Closed(closed) = self.window {
            begin_next(
                self.engine.alloc,
                &mut self.lanes,
                closed,
                &mut self.installs,
                &self.held,
            );
            self.window = window_of_held(&self.held);
            self.marks = Marks::of(&self.lanes, self.room);
            self.installs.clear();
        }
    }

    /// Does an event whose needs hold. A lane that it names must be one of the net's. After an `Err` the net is as it was.
    /// Only `Deliver` and `CloseWindow` take memory.
    pub fn happen(&mut self, event: Event) -> Result<(), Memory>
        requires lane { IsOneOf (length self.old.lanes.items) event }
        requires may { first_need_that_fails (state self.old) event ≡ None }
        ensures ok { OnOk result (state self.new ≡ after_event (works self.old) (state self.old) event) }
        ensures err { OnErr result (state self.new ≡ state self.old) }
        ensures memory { OnErr result (takes_memory event ≡ true) }
        ensures works { works self.new ≡ works self.old }
    {
        match event {
            Event::Packet => {
                self.packet();
                Ok(())
            }
            Event::ReadOut(lane) => {
                self.read_out(lane);
                Ok(())
            }
            Event::Deliver(lane) => self.deliver(lane),
            Event::CloseWindow => self.close_window(),
            Event::Install => {
                self.install();
                Ok(())
            }
        }
    }

    /// Does an event where its needs hold, which it asks. A lane that it names must be one of the net's. After an `Err` the net is as
    /// it was. Only `Deliver` and `CloseWindow` take memory.
    pub fn step(&mut self, event: Event) -> Result<(), StepFault>
        requires { IsOneOf (length self.old.lanes.items) event }
        ensures steps { Steps (works self.old) (state self.old) event (state self.new) result }
        ensures works { works self.new ≡ works self.old }
    {
        if let Some(why) = self.first_need(event) {
            return Err(StepFault::NotEnabled(why));
        }
        match self.happen(event) {
            Ok(()) => Ok(()),
            Err(_) => Err(StepFault::Memory),
        }
    }
}
