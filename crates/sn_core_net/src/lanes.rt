//! All lanes of the switch.
ghost use Rattle.std.specs.Prelude.{◌≡◌, ◌<◌, ◌≤◌, ◌+◌, [], length, true};
ghost use Rattle.sn_core_net.specs.Facts.{are_unread};
ghost use Rattle.sn_core_net.specs.Holders.{all_begun, all_took, took};
ghost use Rattle.sn_core_net.specs.Marks.{AreMarksFrom, AreSameBelow, IsSeen, Sees};

use crate::holder::Holder;
use crate::marks::Marks;
use sn_base::members::Members;
use sn_fields::tuple::Tuple;
use std::alloc::Global;
use std::mem;

/// Gives a tuple to a lane, before any read-out. Where the lane gives a frame, what it then holds is marked.
#[inline(always)]
fn take_in(lane: &mut Holder, tuple: &Tuple, place: u32, room: u32, marks: &mut Marks)
    requires unread { lane.old.sender.pipe.prefix.place ≡ 0 }
    requires few { place < 64 }
    ensures lane { lane.new ≡ took tuple.now lane.old }
    ensures marks { IsSeen place room lane.old marks.old → Sees place room lane.new marks.old marks.new }
{
    if lane.take_tuple(tuple) {
        marks.see(place, lane, room);
    }
}

/// Gives a tuple to these lanes, before any read-out, and marks what they then hold. The first has this number.
fn take_tuple(lanes: &mut [Holder], tuple: &Tuple, first: u32, room: u32, marks: &mut Marks)
    requires unread { are_unread lanes.old ≡ true }
    requires few { first + length lanes.old ≤ 64 }
    ensures lanes { lanes.new ≡ all_took tuple.now lanes.old }
    ensures marks { AreMarksFrom first room lanes.old marks.old → AreMarksFrom first room lanes.new marks.new }
    ensures others { AreMarksFrom first room lanes.old marks.old → AreSameBelow first marks.old marks.new }
{
    if let Some((lane, rest)) = lanes.split_first_mut() {
        take_in(lane, tuple, first, room, marks);
        take_tuple(rest, tuple, first + 1, room, marks);
    }
}

/// Begins a window in these lanes, with no prefixes.
fn begin_bare(alloc: Global, lanes: &mut [Holder])
    ensures { lanes.new ≡ all_begun lanes.old [] }
{
    if let Some((first, rest)) = lanes.split_first_mut() {
        first.begin(Members::new(alloc));
        begin_bare(alloc, rest);
    }
}

/// Begins a window in these lanes, each with its prefixes, and with none where there are none for it.
fn begin(alloc: Global, lanes: &mut [Holder], kepts: &mut [Members])
    ensures { lanes.new ≡ all_begun lanes.old kepts.old }
{
    match kepts.split_first_mut() {
        None => begin_bare(alloc, lanes),
        Some((kept, others)) => {
            if let Some((first, rest)) = lanes.split_first_mut() {
                first.begin(mem::replace(kept, Members::new(alloc)));
                begin(alloc, rest, others);
            }
        }
    }
}

/// Gives a tuple to all lanes, at most 64, before any read-out, and marks what they then hold. Takes no memory.
pub(crate) fn take_in_all(lanes: &mut Vec<Holder>, tuple: &Tuple, room: u32, marks: &mut Marks)
    requires unread { are_unread lanes.old.items ≡ true }
    requires few { length lanes.old.items ≤ 64 }
    ensures lanes { lanes.new.items ≡ all_took tuple.now lanes.old.items }
    ensures marks { AreMarksFrom 0 room lanes.old.items marks.old → AreMarksFrom 0 room lanes.new.items marks.new }
{
    take_tuple(lanes, tuple, 0, room, marks);
}

/// Begins a window in all lanes, with no prefixes. Takes no memory.
pub(crate) fn begin_all_bare(alloc: Global, lanes: &mut Vec<Holder>)
    ensures { lanes.new.items ≡ all_begun lanes.old.items [] }
{
    begin_bare(alloc, lanes);
}

/// Begins a window in all lanes, each with its prefixes, and with none where there are none for it. Takes no memory.
pub(crate) fn begin_all(alloc: Global, lanes: &mut Vec<Holder>, kepts: &mut [Members])
    ensures { lanes.new.items ≡ all_begun lanes.old.items kepts.old }
{
    begin(alloc, lanes, kepts);
}
