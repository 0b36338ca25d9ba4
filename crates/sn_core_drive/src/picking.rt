//! Which event happens next.
ghost use Rattle.std.specs.Prelude.{◌≡◌, ◌<◌, ◌≤◌, ◌%◌, Some, None, false, length, slice_get};
ghost use Rattle.sn_core.specs.Needs.{first_need_that_fails};
ghost use Rattle.sn_core.specs.Standing.{IsNet};
ghost use Rattle.sn_core_drive.specs.Picking.{AreFound, deliveries_found, events_found, lanes_found, lasts_found};
ghost use Rattle.sn_core_drive.specs.Schedules.{is_still, picked};
ghost use Rattle.sn_gen.specs.Generated.{drawn, next_number};
ghost use Rattle.sn_core_net.specs.Marks.{bit_of};
ghost use Rattle.sn_core_net.specs.Steps.{IsOneOf};

use crate::machine::Machine;
use crate::marks::{count_marked, nth_marked};
use sn_core::event::Event;
use sn_gen::draws::Draws;

/// The events that may happen: of the read-outs and the deliveries a bit for each lane.
#[derive(Clone, Copy)]
struct Enabled {
    packet: bool,
    read_outs: u64,
    deliveries: u64,
    close: bool,
    install: bool,
}

/// The events that may happen.
fn look<M: Machine>(machine: &M) -> Enabled
    ensures { AreFound (M.state machine.now) result }
{
    Enabled {
        packet: machine.enabled(Event::Packet),
        read_outs: machine.read_outs(),
        deliveries: machine.deliveries(),
        close: machine.enabled(Event::CloseWindow),
        install: machine.enabled(Event::Install),
    }
}

/// 1 where this holds, and else 0.
fn one_if(holds: bool) -> u32
    ensures value { result ≡ bit_of holds }
    ensures most { result ≤ 1 }
{
    if holds { 1 } else { 0 }
}

/// How many there are.
fn count_found(found: Enabled) -> u32
    ensures { result ≡ length (events_found found) }
{
    let lanes = count_marked(found.read_outs) + count_marked(found.deliveries);
    one_if(found.packet) + lanes + one_if(found.close) + one_if(found.install)
}

/// Of the close and the install, the one of this number.
fn nth_last(found: Enabled, n: u32) -> Event
    requires { n < length (lasts_found found) }
    ensures { slice_get (lasts_found found) n ≡ Some result }
{
    if !found.close {
        Event::Install
    } else if n == 0 {
        Event::CloseWindow
    } else {
        Event::Install
    }
}

/// Of the deliveries and what comes after them, the one of this number.
fn nth_delivery(found: Enabled, n: u32) -> Event
    requires { n < length (deliveries_found found) }
    ensures { slice_get (deliveries_found found) n ≡ Some result }
{
    let count = count_marked(found.deliveries);
    if n < count {
        Event::Deliver(nth_marked(found.deliveries, n))
    } else {
        nth_last(found, n - count)
    }
}

/// Of the read-outs and what comes after them, the one of this number.
fn nth_read_out(found: Enabled, n: u32) -> Event
    requires { n < length (lanes_found found) }
    ensures { slice_get (lanes_found found) n ≡ Some result }
{
    let count = count_marked(found.read_outs);
    if n < count {
        Event::ReadOut(nth_marked(found.read_outs, n))
    } else {
        nth_delivery(found, n - count)
    }
}

/// Of the events that may happen, the one of this number.
fn nth_found(found: Enabled, n: u32) -> Event
    requires { n < length (events_found found) }
    ensures { slice_get (events_found found) n ≡ Some result }
{
    if !found.packet {
        nth_read_out(found, n)
    } else if n == 0 {
        Event::Packet
    } else {
        nth_read_out(found, n - 1)
    }
}

/// The remainder of a drawn number by how many events may happen. Mostly that is one, which takes no division.
fn place_of(drawn: u64, count: u32) -> u32
    requires { 0 < count }
    ensures { result ≡ drawn % count }
{
    if count == 1 {
        0
    } else {
        (drawn % count as u64) as u32
    }
}

/// The event that the next draw picks, in a machine that goes on and whose answers were taken: there is one that may happen.
pub(crate) fn pick<M: Machine>(machine: &M, draws: &mut Draws) -> Event
    requires stands { IsNet (M.works machine.now) (M.state machine.now) }
    requires going { is_still (M.state machine.now) ≡ false }
    requires taken { (M.state machine.now).waiting ≡ None }
    ensures picked { picked (M.state machine.now) (drawn (next_number draws.old.number)) ≡ Some result }
    ensures lane { IsOneOf (length (M.state machine.now).lanes) result }
    ensures may { first_need_that_fails (M.state machine.now) result ≡ None }
    ensures draws { draws.new.number ≡ next_number draws.old.number }
{
    let found = look(machine);
    let n = place_of(draws.draw(), count_found(found));
    nth_found(found, n)
}
