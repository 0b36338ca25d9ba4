//! The first need of an event that fails.
ghost use Rattle.std.specs.Prelude.{◌≡◌, ◌<◌, ◌^◌, ℕ, length, not, position, IfSome, is_none};
ghost use Rattle.std.specs.Int.{bit_at};
ghost use Rattle.sn_core.specs.Needs.{first_full, first_need_that_fails, first_open, has_room, is_begun_with, is_empty, is_over, passes};
ghost use Rattle.sn_core.specs.declared.event.Event.TheVariants as Event;
ghost use Rattle.sn_core_net.specs.Marks.{bit_of};
ghost use Rattle.sn_core_net.specs.Nets.{state};
ghost use Rattle.sn_core_net.specs.Steps.{IsOneOf};

use crate::net::Net;
use sn_core::event::{Event, Why};
use sn_core::supply::{Supply, Window};
use sn_engine::intake::Intake;

/// The least lane whose End the engine hasn't taken.
fn first_open(lanes: &[Intake]) -> Option<usize>
    ensures first { result ≡ position (λ x. is_none x.end) lanes.now }
    ensures within { IfSome result (λ n. n < length lanes.now) }
{
    lanes.iter().position(|x| x.end.is_none())
}

impl Net {
    /// The least lane that has no room.
    fn full_lane(&self) -> Option<u32>
        ensures { result ≡ first_full (state self.now).room (state self.now).lanes }
    {
        if self.marks.full == 0 {
            None
        } else {
            Some(self.marks.full.trailing_zeros())
        }
    }

    /// The least lane whose End the engine hasn't taken.
    fn open_lane(&self) -> Option<usize>
        ensures lane { result ≡ first_open (state self.now).lanes }
        ensures within { IfSome result (λ n. n < 2 ^ 32) }
    {
        first_open(&self.engine.lanes)
    }

    /// Whether a lane hasn't appended its End.
    fn runs(&self, lane: u32) -> bool
        requires { lane < length self.now.lanes.items }
        ensures { result ≡ passes (λ x. not x.ended) (state self.now).lanes lane }
    {
        !self.lanes[lane as usize].has_ended()
    }

    /// Whether a lane has room for one more frame.
    fn has_room(&self, lane: u32) -> bool
        requires { lane < length self.now.lanes.items }
        ensures { result ≡ passes (has_room (state self.now).room) (state self.now).lanes lane }
    {
        self.lanes[lane as usize].has_room(self.room)
    }

    /// Whether a lane holds a frame.
    fn has_frame(&self, lane: u32) -> bool
        requires { lane < length self.now.lanes.items }
        ensures { result ≡ passes (λ x. not (is_empty x)) (state self.now).lanes lane }
    {
        !self.lanes[lane as usize].is_empty()
    }

    fn packet_need(&self) -> Option<Why>
        ensures { result ≡ first_need_that_fails (state self.now) Event.Packet }
    {
        let (Window::Begun(window), Some(Supply::Numbered(number, _))) = (&self.window, &self.held)
        else {
            return Some(Why::NoInput);
        };
        if number != window {
            return Some(Why::Reading);
        }
        match self.full_lane() {
            Some(lane) => Some(Why::Full(lane)),
            None => None,
        }
    }

    /// Whether a window is begun of which nothing more comes.
    fn is_over(&self) -> bool
        ensures { result ≡ is_begun_with (λ number. is_over number (state self.now).held) (state self.now).window }
    {
        let Window::Begun(window) = &self.window else {
            return false;
        };
        match &self.held {
            None => false,
            Some(Supply::End) => true,
            Some(Supply::Numbered(number, _)) => window < number,
        }
    }

    fn read_out_need(&self, lane: u32) -> Option<Why>
        requires { lane < length self.now.lanes.items }
        ensures { result ≡ first_need_that_fails (state self.now) (Event.ReadOut lane) }
    {
        if !self.is_over() {
            return Some(Why::NotReading);
        }
        if !self.runs(lane) {
            return Some(Why::Ended(lane));
        }
        if !self.has_room(lane) {
            return Some(Why::Full(lane));
        }
        None
    }

    fn deliver_need(&self, lane: u32) -> Option<Why>
        requires { lane < length self.now.lanes.items }
        ensures { result ≡ first_need_that_fails (state self.now) (Event.Deliver lane) }
    {
        if !self.has_frame(lane) {
            return Some(Why::Empty(lane));
        }
        None
    }

    fn close_need(&self) -> Option<Why>
        ensures { result ≡ first_need_that_fails (state self.now) Event.CloseWindow }
    {
        let Window::Begun(_) = &self.window else {
            return Some(Why::NotReading);
        };
        if let Some(lane) = self.open_lane() {
            return Some(Why::Unfinished(lane as u32));
        }
        if self.waiting.is_some() {
            return Some(Why::Waiting);
        }
        None
    }

    fn install_need(&self) -> Option<Why>
        ensures { result ≡ first_need_that_fails (state self.now) Event.Install }
    {
        match &self.window {
            Window::Closed(_) => None,
            _ => Some(Why::NoAnswer),
        }
    }

    /// The first need of an event that fails, in their order.
    pub(crate) fn first_need(&self, event: Event) -> Option<Why>
        requires { IsOneOf (length self.now.lanes.items) event }
        ensures { result ≡ first_need_that_fails (state self.now) event }
    {
        match event {
            Event::Packet => self.packet_need(),
            Event::ReadOut(lane) => self.read_out_need(lane),
            Event::Deliver(lane) => self.deliver_need(lane),
            Event::CloseWindow => self.close_need(),
            Event::Install => self.install_need(),
        }
    }

    /// Whether every need of an event holds. A lane that it names must be one of the net's. Takes no memory. It is asked of each event
    /// whenever one is picked, so it looks at the needs without saying which one fails.
    pub fn enabled(&self, event: Event) -> bool
        requires { IsOneOf (length self.now.lanes.items) event }
        ensures { result ≡ is_none (first_need_that_fails (state self.now) event) }
    {
        match event {
            Event::Packet => self.packet_need().is_none(),
            Event::ReadOut(lane) => self.read_out_need(lane).is_none(),
            Event::Deliver(lane) => self.deliver_need(lane).is_none(),
            Event::CloseWindow => self.close_need().is_none(),
            Event::Install => self.install_need().is_none(),
        }
    }

    /// The lanes that may be read out: bit n is 1 exactly where the read-out of lane n may happen. Takes no memory.
    pub fn read_outs(&self) -> u64
        ensures { (lane : ℕ) → bit_at result lane ≡ bit_of (is_none (first_need_that_fails (state self.now) (Event.ReadOut lane))) }
    {
        let readable = self.marks.readable;
        if self.is_over() { readable } else { 0 }
    }

    /// The lanes whose first frame may be delivered: bit n is 1 exactly where the delivery of lane n may happen. Takes no memory.
    pub fn deliveries(&self) -> u64
        ensures { (lane : ℕ) → bit_at result lane ≡ bit_of (is_none (first_need_that_fails (state self.now) (Event.Deliver lane))) }
    {
        self.marks.holding
    }
}
