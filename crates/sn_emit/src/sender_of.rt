//! One lane of the emitter, over rows of a kind that is known.
ghost use Rattle.std.specs.Prelude.{◌≡◌, ◌≤◌, IfSome, slice_get};
ghost use Rattle.std.specs.Bool.{then_some};
ghost use Rattle.std.specs.FinSet as set;
ghost use Rattle.std.specs.Option.{option_map};
ghost use Rattle.std.specs.Ordering.{nat_cmp};
ghost use Rattle.sn_emit.specs.Making.{CanEncode, InRange};
ghost use Rattle.sn_emit.specs.Runs.{IsReadOut};
ghost use Rattle.sn_emit.specs.Senders.{ended_after, row_frame, sender_next, sender_start};
ghost use Rattle.sn_pipe.specs.Pipes.{at_start, item_of};
ghost use Rattle.sn_pipe.specs.Prefixes.{left_in};
ghost use Rattle.sn_pipe.specs.Stages.{item_at};
ghost use Rattle.sn_report.specs.Items.{frame_by};

use sn_base::any_row::AnyRow;
use sn_base::lane::Lane;
use sn_base::members::Members;
use sn_fields::tuple::Tuple;
use sn_pipe::pipe::Pipe;
use sn_report::frame::{Frame, Item, Tag};

/// A pipe that gives frames. Contracts see any pipe as its state, so that lanes over rows of either kind are the same to them.
#[derive(Drop)]
pub struct SenderOf<P> {
    /// What its frames are named by.
    pub lane: Lane,
    /// What gives their rows.
    pub pipe: P,
    /// How many frames with rows it gave in this window, or 2^64 - 1 where they are more.
    pub given: u64,
    /// Whether the End of this window was given.
    pub ended: bool,
}

impl<R: AnyRow> SenderOf<Pipe<R>> {
    /// Takes a tuple, before any read-out. `Some` exactly where the pipe gives an item: the number of its operator, and `row` is then
    /// its row. Takes no memory.
    #[inline(always)]
    fn give(&mut self, tuple: &Tuple, row: &mut R) -> Option<u8>
        requires { self.old.pipe.prefix.place ≡ 0 }
        ensures item { option_map (λ i. item_at i (R.columns row.new)) result ≡ item_of self.old.pipe tuple.now }
        ensures after { self.new ≡ sender_next self.old tuple.now }
        ensures operator { IfSome result (λ i. i ≤ 12) }
    {
        let Some(operator) = self.pipe.packet(tuple, row) else {
            return None;
        };
        self.given = self.given.saturating_add(1);
        Some(operator)
    }

    /// The frame that it gives for a tuple, before any read-out. `Some` exactly where the pipe gives an item. Takes no memory.
    #[inline(always)]
    pub fn packet(&mut self, tuple: &Tuple) -> Option<Frame<R>>
        requires { self.old.pipe.prefix.place ≡ 0 }
        ensures frame { option_map (frame_by R.columns) result ≡ option_map (row_frame self.old.lane) (item_of self.old.pipe tuple.now) }
        ensures after { self.new ≡ sender_next self.old tuple.now }
        ensures range { InRange self.old.lane → IfSome result (λ frame. CanEncode (frame_by R.columns frame)) }
    {
        let mut row = R::empty();
        match self.give(tuple, &mut row) {
            Some(operator) => {
                let tag = Tag::At(operator);
                Some(Frame::Row(self.lane, Item { tag, row }))
            }
            None => None,
        }
    }

    /// Takes a tuple, before any read-out. What it gives takes the place of an End. It stands apart from `packet_into`, which would clear
    /// room for that frame for each tuple. Takes no memory.
    #[inline(never)]
    fn replace(&mut self, tuple: &Tuple, into: &mut Frame<R>) -> bool
        requires { self.old.pipe.prefix.place ≡ 0 }
        ensures frame { then_some result (frame_by R.columns into.new) ≡ option_map (row_frame self.old.lane) (item_of self.old.pipe tuple.now) }
        ensures after { self.new ≡ sender_next self.old tuple.now }
        ensures range { InRange self.old.lane → IfSome (then_some result (frame_by R.columns into.new)) CanEncode }
    {
        match self.packet(tuple) {
            Some(frame) => {
                *into = frame;
                true
            }
            None => false,
        }
    }

    /// Takes a tuple, before any read-out. `true` exactly where the pipe gives an item, whose frame is then in `into`. Where a row stands
    /// there, the item's row is made in its place: one that is moved right after it was made is read before it has reached the
    /// processor's cache. Takes no memory.
    #[inline(always)]
    pub fn packet_into(&mut self, tuple: &Tuple, into: &mut Frame<R>) -> bool
        requires { self.old.pipe.prefix.place ≡ 0 }
        ensures frame { then_some result (frame_by R.columns into.new) ≡ option_map (row_frame self.old.lane) (item_of self.old.pipe tuple.now) }
        ensures after { self.new ≡ sender_next self.old tuple.now }
        ensures range { InRange self.old.lane → IfSome (then_some result (frame_by R.columns into.new)) CanEncode }
    {
        if let Frame::Row(lane, item) = into {
            let Some(operator) = self.give(tuple, &mut item.row) else {
                return false;
            };
            *lane = self.lane;
            item.tag = Tag::At(operator);
            return true;
        }
        self.replace(tuple, into)
    }

    /// The next frame of the read-out: the rows, then one End, then `None`. Takes no memory.
    pub fn read_out(&mut self, window: u64) -> Option<Frame<R>>
        ensures frame { IsReadOut window self.old (option_map (frame_by R.columns) result) self.new }
        ensures lane { self.new.lane ≡ self.old.lane }
        ensures pipe { (kept : set.FinSet nat_cmp) → at_start self.new.pipe kept ≡ at_start self.old.pipe kept }
        ensures rest { self.new.pipe ≡ record self.old.pipe { prefix = record self.old.pipe.prefix { place = self.new.pipe.prefix.place } } }
        ensures ended { self.new.ended ≡ ended_after self.old.ended (slice_get (left_in self.old.pipe.prefix) 0) }
        ensures range { InRange self.old.lane → IfSome result (λ frame. CanEncode (frame_by R.columns frame)) }
    {
        if let Some(item) = self.pipe.read_out_next() {
            self.given = self.given.saturating_add(1);
            return Some(Frame::Row(self.lane, item));
        }
        if self.ended {
            return None;
        }
        self.ended = true;
        Some(Frame::End(self.lane, window))
    }

    /// Begins a window: empty registers, this prefix set, and nothing given. Takes no memory.
    pub fn next_window(&mut self, kept: Members)
        ensures { self.new ≡ sender_start self.old kept }
    {
        self.pipe.next_window(kept);
        self.given = 0;
        self.ended = false;
    }
}
