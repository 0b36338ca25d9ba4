//! What a net is asked and given.
ghost use Rattle.std.specs.Prelude.{◌≡◌, ◌<◌, length, true};
ghost use Rattle.sn_core.specs.Events.{given, window_from, without_answers};
ghost use Rattle.sn_core.specs.Needs.{is_done, wants};
ghost use Rattle.sn_core.specs.Standing.{IsNoEarlier};
ghost use Rattle.sn_core_net.specs.Nets.{state, works};

use crate::net::Net;
use sn_core::supply::{Supply, Window};
use sn_fields::tuple::Tuple;
use sn_types::answers::Answers;

/// The window once something is given: the first tuple begins its window.
fn window_from(window: &Window, next: &Supply<Tuple>) -> Window
    ensures { result ≡ window_from window.now next.now }
{
    match (window, next) {
        (Window::Idle, Supply::Numbered(number, _)) => Window::Begun(*number),
        (window, _) => *window,
    }
}

impl Net {
    /// Whether it is to be given a tuple or the end. Takes no memory.
    pub fn wants(&self) -> bool
        ensures { result ≡ wants (state self.now) }
    {
        self.held.is_none()
    }

    /// Whether all is done: the end was given, no window is begun or closed, and no answers wait. Takes no memory.
    pub fn done(&self) -> bool
        ensures { result ≡ is_done (state self.now) }
    {
        match (&self.held, &self.window, &self.waiting) {
            (Some(Supply::End), Window::Idle, None) => true,
            _ => false,
        }
    }

    /// How many lanes there are: one for each piece of the plan.
    pub fn lanes(&self) -> u32
        ensures lanes { result ≡ length (state self.now).lanes }
        ensures count { result ≡ length self.now.lanes.items }
    {
        self.lanes.len() as u32
    }

    /// Gives a tuple of a window, or the end, where one is wanted. The numbers of windows don't fall. The first tuple begins
    /// its window. Takes no memory.
    pub fn give(&mut self, next: Supply<Tuple>)
        requires wants { wants (state self.old) ≡ true }
        requires rises { IsNoEarlier next (state self.old).window }
        ensures state { state self.new ≡ given (state self.old) next }
        ensures works { works self.new ≡ works self.old }
    {
        self.window = window_from(&self.window, &next);
        self.held = Some(next);
    }

    /// Takes the answers that wait. `None` exactly where none do. Takes no memory.
    pub fn take_answers(&mut self) -> Option<Answers>
        ensures answers { result ≡ (state self.old).waiting }
        ensures rest { state self.new ≡ without_answers (state self.old) }
        ensures works { works self.new ≡ works self.old }
    {
        self.waiting.take()
    }
}
