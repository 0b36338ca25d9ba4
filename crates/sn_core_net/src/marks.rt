//! Which lanes hold frames, and which may be read out.
ghost use Rattle.std.specs.Prelude.{◌≡◌, ◌<◌, ◌≤◌, length};
ghost use Rattle.sn_core_net.specs.Marks.{AreMarksFrom, IsMarkedAt, Sees};

use crate::holder::Holder;

/// Of each lane a bit of each word, that of its number. There are at most 64 lanes, so whoever looks for some of them finds them
/// without a look at the others.
#[derive(Clone, Copy)]
pub struct Marks {
    /// Those that hold a frame.
    pub holding: u64,
    /// Those that have no room for one more.
    pub full: u64,
    /// Those that have room for one more, and haven't appended their End.
    pub readable: u64,
}

/// A word whose bit of this place is set exactly where this holds, and else as it was.
fn marked(word: u64, place: u32, holds: bool) -> u64
    requires { place < 64 }
    ensures { IsMarkedAt word result place holds }
{
    if holds {
        word | 1 << place
    } else {
        word & !(1 << place)
    }
}

impl Marks {
    /// The marks of these lanes, at most 64.
    pub(crate) fn of(lanes: &[Holder], room: u32) -> Marks
        requires { length lanes.now ≤ 64 }
        ensures { AreMarksFrom 0 room lanes.now result }
    {
        let mut marks = Marks {
            holding: 0,
            full: 0,
            readable: 0,
        };
        for place in 0..lanes.len() {
            marks.see(place as u32, &lanes[place], room);
        }
        marks
    }

    /// Marks what the lane of a number holds now.
    pub(crate) fn see(&mut self, place: u32, lane: &Holder, room: u32)
        requires { place < 64 }
        ensures { Sees place room lane.now self.old self.new }
    {
        let has_room = lane.has_room(room);
        let runs = !lane.has_ended();
        self.holding = marked(self.holding, place, !lane.is_empty());
        self.full = marked(self.full, place, !has_room);
        self.readable = marked(self.readable, place, runs && has_room);
    }
}
