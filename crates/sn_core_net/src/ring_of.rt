//! The frames that a lane holds.
ghost use Rattle.std.specs.Prelude.{◌≡◌, ◌<◌, ◌==◌, ◌++◌, ◌∷◌, [], length, drop, is_some, nat_lt, slice_get, option_copied, IfOk, Some};
ghost use Rattle.std.specs.Option.{option_map};
ghost use Rattle.circular_buffer.specs.Buffer.{buffer};
ghost use Rattle.sn_emit.specs.Senders.{row_frame, sender_next};
ghost use Rattle.sn_pipe.specs.Pipes.{item_of};
ghost use Rattle.sn_report.specs.Items.{frame_by};
ghost use Rattle.sn_core_net.specs.Rings.{appended};

use circular_buffer::HeapCircularBuffer;
use sn_base::any_row::AnyRow;
use sn_base::memory::Memory;
use sn_emit::given::unsent;
use sn_emit::sender_of::SenderOf;
use sn_fields::tuple::Tuple;
use sn_pipe::pipe::Pipe;
use sn_report::frame::Frame;
use std::alloc::Global;
use std::marker::Model;

/// Frames over rows of one kind, in the order in which they came. Contracts see the frames alone.
#[derive(Drop)]
pub struct RingOf<R: AnyRow> {
    held: HeapCircularBuffer<Frame<R>>,
    /// The place in which the row of the next frame is made.
    next: Frame<R>,
}

impl<R: AnyRow> Model for RingOf<R> {
    ghost use Rattle.std.specs.Prelude.{map};
    ghost use Rattle.circular_buffer.specs.Buffer.{Buffer, buffer};
    ghost use Rattle.sn_report.specs.Items.{Frame, frame_by};

    ghost Value = { Buffer Frame };

    ghost view = { λ a. buffer (map (frame_by R.columns) a.held.items) a.held.capacity };
}

impl<R: AnyRow> RingOf<R> {
    /// A ring with room for this many frames, of which it holds none.
    pub(crate) fn new(alloc: Global, room: u32) -> Result<RingOf<R>, Memory>
        ensures { IfOk result (λ ring. ring ≡ buffer [] room) }
    {
        match HeapCircularBuffer::with_capacity(alloc, room as usize) {
            Ok(held) => Ok(RingOf {
                held,
                next: unsent(),
            }),
            Err(_) => Err(Memory),
        }
    }

    /// Whether it holds fewer frames than this.
    pub(crate) fn has_room(&self, room: u32) -> bool
        ensures { result ≡ nat_lt (length self.now.items) room }
    {
        self.held.len() < room as usize
    }

    /// Whether it holds no frame.
    pub(crate) fn is_empty(&self) -> bool
        ensures { result ≡ (length self.now.items == 0) }
    {
        self.held.is_empty()
    }

    /// A lane takes a tuple, before any read-out, and the frame that it gives, if there is one, comes after the others. A full ring loses
    /// its first. Says whether there is one.
    #[inline(always)]
    #[tactic(auto, using(crate::proofs::Rings::map_kept))]
    pub(crate) fn take_from(&mut self, sender: &mut SenderOf<Pipe<R>>, tuple: &Tuple) -> bool
        requires { sender.old.pipe.prefix.place ≡ 0 }
        ensures taken { self.new ≡ appended self.old (option_map (row_frame sender.old.lane) (item_of sender.old.pipe tuple.now)) }
        ensures after { sender.new ≡ sender_next sender.old tuple.now }
        ensures gives { result ≡ is_some (item_of sender.old.pipe tuple.now) }
    {
        if sender.packet_into(tuple, &mut self.next) {
            self.held.push_back(self.next);
            true
        } else {
            false
        }
    }

    /// Adds a frame after the others. A full ring loses its first.
    #[inline(always)]
    #[tactic(auto, using(crate::proofs::Rings::map_kept))]
    pub(crate) fn push(&mut self, frame: Frame<R>)
        ensures { self.new ≡ appended self.old (Some (frame_by R.columns frame)) }
    {
        self.held.push_back(frame);
    }

    /// Adds a frame after the others of a ring that isn't full.
    pub(crate) fn append(&mut self, frame: Frame<R>)
        requires { length self.old.items < self.old.capacity }
        ensures { self.new ≡ buffer (self.old.items ++ frame_by R.columns frame ∷ []) self.old.capacity }
    {
        self.push(frame);
    }

    /// The first frame.
    pub(crate) fn first(&self) -> Option<&Frame<R>>
        ensures { option_map (frame_by R.columns) (option_copied result) ≡ slice_get self.now.items 0 }
    {
        self.held.front()
    }

    /// Drops the first frame, if there is one.
    pub(crate) fn drop_first(&mut self)
        ensures { self.new ≡ buffer (drop 1 self.old.items) self.old.capacity }
    {
        self.held.pop_front();
    }
}
