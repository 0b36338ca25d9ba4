//! Nets of small plans, event by event.
ghost use Rattle.std.specs.Prelude.{◌≤◌, IfSome};
ghost use Rattle.sn_core.specs.Standing.{IsNet};
ghost use Rattle.sn_core_net.specs.Nets.{state, works};

use crate::texts::{COUNTS, FOUR, NET, ONE_SLOT, REFINED, TWO_LEVELS, fitting_of, row, rows, syn};
use sn_core::event::{Event, Why};
use sn_core::supply::{Supply, Window};
use sn_core_net::fault::StepFault;
use sn_core_net::net::Net;
use sn_fields::tuple::Tuple;

/// The net of these texts, with room for so many frames in each lane. `None` where one of them isn't read, or the plan
/// doesn't fit.
pub(crate) fn net(rt: &HostRuntime, queries_text: &[u8], plan_text: &[u8], room: u32) -> Option<Net>
    requires { 1 ≤ room }
    ensures stands { IfSome result (λ net. IsNet (works net) (state net)) }
{
    let fitting = fitting_of(rt.alloc(), queries_text, FOUR, plan_text)?;
    match Net::make(&fitting.typed, &fitting.switch, &fitting.plan, room) {
        Ok(net) => Some(net),
        Err(_) => None,
    }
}

/// What a step answers.
#[derive(Clone, Copy)]
enum Did {
    Happened,
    /// This need fails.
    Not(Why),
    NoMemory,
    /// The net has no such lane.
    NoLane,
}

fn outcome_of(answer: Result<(), StepFault>) -> Did {
    match answer {
        Ok(()) => Did::Happened,
        Err(StepFault::NotEnabled(why)) => Did::Not(why),
        Err(StepFault::Memory) => Did::NoMemory,
    }
}

/// Steps an event.
fn step(net: &mut Net, event: Event) -> Did {
    match event {
        Event::Packet => outcome_of(net.step(Event::Packet)),
        Event::ReadOut(lane) => {
            if lane < net.lanes() {
                outcome_of(net.step(Event::ReadOut(lane)))
            } else {
                Did::NoLane
            }
        }
        Event::Deliver(lane) => {
            if lane < net.lanes() {
                outcome_of(net.step(Event::Deliver(lane)))
            } else {
                Did::NoLane
            }
        }
        Event::CloseWindow => outcome_of(net.step(Event::CloseWindow)),
        Event::Install => outcome_of(net.step(Event::Install)),
    }
}

/// Gives a tuple, if one is wanted and it is of no earlier window.
fn give(net: &mut Net, number: u64, tuple: Tuple) -> bool {
    if !net.wants() {
        return false;
    }
    match net.window {
        Window::Begun(begun) => {
            if number < begun {
                return false;
            }
            net.give(Supply::Numbered(number, tuple));
        }
        Window::Idle => net.give(Supply::Numbered(number, tuple)),
        Window::Closed(_) => net.give(Supply::Numbered(number, tuple)),
    }
    true
}

/// Gives the end, if a supply is wanted.
fn end(net: &mut Net) -> bool {
    if !net.wants() {
        return false;
    }
    match net.window {
        Window::Begun(_) => net.give(Supply::End),
        Window::Idle => net.give(Supply::End),
        Window::Closed(_) => net.give(Supply::End),
    }
    true
}

/// Tries each event but the close a few times, for two lanes.
fn move_on(net: &mut Net) {
    for _ in 0..10 {
        for lane in 0..2 {
            let _ = step(net, Event::ReadOut(lane));
            let _ = step(net, Event::Deliver(lane));
        }
        let _ = step(net, Event::Packet);
        let _ = step(net, Event::Install);
    }
}

#[test]
fn a_new_net_wants_a_supply(rt: HostRuntime) {
    let mut net = net(&rt, COUNTS, ONE_SLOT, 1).expect(&rt, "a plan that fits");
    assert!(rt; net.wants());
    assert!(rt; !net.done());
    assert!(rt; net.take_answers().is_none());
    assert!(rt; matches!(step(&mut net, Event::Packet), Did::Not(Why::NoInput)));
    assert!(rt; matches!(step(&mut net, Event::Install), Did::Not(Why::NoAnswer)));
}

#[test]
fn the_first_tuple_begins_a_window(rt: HostRuntime) {
    let mut net = net(&rt, COUNTS, ONE_SLOT, 1).expect(&rt, "a plan that fits");
    assert!(rt; give(&mut net, 0, syn(1, 1)));
    assert!(rt; matches!(step(&mut net, Event::ReadOut(0)), Did::Not(Why::NotReading)));
    assert!(rt;
        matches!(
            step(&mut net, Event::CloseWindow),
            Did::Not(Why::Unfinished(0))
        )
    );
    assert!(rt; net.enabled(Event::Packet));
}

#[test]
fn a_full_lane_takes_no_tuple(rt: HostRuntime) {
    let mut net = net(&rt, COUNTS, ONE_SLOT, 1).expect(&rt, "a plan that fits");
    assert!(rt; matches!(step(&mut net, Event::Deliver(0)), Did::Not(Why::Empty(0))));
    assert!(rt; give(&mut net, 0, syn(1, 1)));
    assert!(rt; matches!(step(&mut net, Event::Packet), Did::Happened));
    assert!(rt; give(&mut net, 0, syn(1, 2)));
    assert!(rt; matches!(step(&mut net, Event::Packet), Did::Happened));
    assert!(rt; give(&mut net, 0, syn(1, 1)));
    assert!(rt; matches!(step(&mut net, Event::Packet), Did::Not(Why::Full(0))));
    assert!(rt; matches!(step(&mut net, Event::Deliver(0)), Did::Happened));
    assert!(rt; matches!(step(&mut net, Event::Packet), Did::Happened));
}

#[test]
fn says_the_first_need_that_fails(rt: HostRuntime) {
    let mut net = net(&rt, COUNTS, ONE_SLOT, 1).expect(&rt, "a plan that fits");
    assert!(rt; give(&mut net, 0, syn(1, 1)));
    assert!(rt; matches!(step(&mut net, Event::Packet), Did::Happened));
    assert!(rt; give(&mut net, 1, syn(1, 1)));
    assert!(rt; matches!(step(&mut net, Event::Packet), Did::Not(Why::Reading)));
    assert!(rt; matches!(step(&mut net, Event::ReadOut(0)), Did::Happened));
    assert!(rt; matches!(step(&mut net, Event::ReadOut(0)), Did::Not(Why::Full(0))));
    assert!(rt; matches!(step(&mut net, Event::Deliver(0)), Did::Happened));
    assert!(rt; matches!(step(&mut net, Event::ReadOut(0)), Did::Happened));
    // The lane has ended, and its ring is full too.
    assert!(rt; matches!(step(&mut net, Event::ReadOut(0)), Did::Not(Why::Ended(0))));
    assert!(rt; matches!(step(&mut net, Event::Deliver(0)), Did::Happened));
    assert!(rt; matches!(step(&mut net, Event::CloseWindow), Did::Happened));
    assert!(rt; matches!(step(&mut net, Event::Install), Did::Happened));
    // The lane hasn't ended window 1, and the answers of window 0 wait too.
    assert!(rt;
        matches!(
            step(&mut net, Event::CloseWindow),
            Did::Not(Why::Unfinished(0))
        )
    );
}

#[test]
fn counts_in_one_register(rt: HostRuntime) {
    let mut net = net(&rt, COUNTS, ONE_SLOT, 1).expect(&rt, "a plan that fits");
    for destination in [1, 2, 1, 2, 3] {
        assert!(rt; give(&mut net, 0, syn(1, destination)));
        move_on(&mut net);
    }
    assert!(rt; end(&mut net));
    move_on(&mut net);
    assert!(rt; matches!(step(&mut net, Event::CloseWindow), Did::Happened));
    let answers = net.take_answers().expect(&rt, "answers");
    assert_eq!(rt; answers.emitted, 4);
    let expected = [row(&[NET + 1, 2]), row(&[NET + 2, 2]), row(&[NET + 3, 1])];
    assert_eq!(rt; rows(&answers, 0), &expected[..]);
    move_on(&mut net);
    assert!(rt; net.done());
}

#[test]
fn answers_wait_to_be_taken(rt: HostRuntime) {
    let mut net = net(&rt, REFINED, TWO_LEVELS, 1).expect(&rt, "a plan that fits");
    for number in [0, 0, 1, 1] {
        assert!(rt; give(&mut net, number, syn(1, 9)));
        move_on(&mut net);
        if number == 1 {
            let _ = step(&mut net, Event::CloseWindow);
            move_on(&mut net);
        }
    }
    assert!(rt; end(&mut net));
    move_on(&mut net);
    assert!(rt; matches!(step(&mut net, Event::CloseWindow), Did::Not(Why::Waiting)));
    let first = net.take_answers().expect(&rt, "answers");
    assert_eq!(rt; first.window, 0);
    assert_eq!(rt; first.emitted, 2);
    assert!(rt; rows(&first, 1).is_empty());
    assert!(rt; matches!(step(&mut net, Event::CloseWindow), Did::Happened));
    assert!(rt; !net.done());
    let second = net.take_answers().expect(&rt, "answers");
    assert_eq!(rt; second.emitted, 4);
    assert_eq!(rt; rows(&second, 1), &[row(&[NET + 9, 2])][..]);
    move_on(&mut net);
    assert!(rt; net.done());
}
