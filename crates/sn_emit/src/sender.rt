//! One lane of the emitter.
ghost use Rattle.std.specs.Prelude.{◌≡◌, IfSome, slice_get};
ghost use Rattle.std.specs.FinSet as set;
ghost use Rattle.std.specs.Bool.{then_some};
ghost use Rattle.std.specs.Option.{option_map};
ghost use Rattle.std.specs.Ordering.{nat_cmp};
ghost use Rattle.sn_emit.specs.Making.{CanEncode, InRange};
ghost use Rattle.sn_emit.specs.Senders.{row_frame, sender_next};
ghost use Rattle.sn_pipe.specs.Pipes.{at_start, item_of};
ghost use Rattle.sn_pipe.specs.Prefixes.{left_in};

use crate::any_sender::AnySender;
use crate::given::{AnyFrame, Given};
use crate::sender_of::SenderOf;
use sn_base::members::Members;
use sn_base::row::Row;
use sn_base::short_row::ShortRow;
use sn_fields::tuple::Tuple;
use sn_pipe::pipe::Pipe;
use sn_report::frame::Frame;
use std::marker::Model;

/// A lane, over rows of the kind that its branch has, which is chosen when it is made. Contracts see the lane alone.
#[derive(Drop)]
pub struct Sender {
    held: AnySender,
}

impl Model for Sender {
    ghost use Rattle.std.specs.Coded.{codes, coded_ℕ};
    ghost use Rattle.std.specs.FinSet as set;
    ghost use Rattle.std.specs.Ordering.{nat_cmp};
    ghost use Rattle.sn_pipe.specs.Pipes.{PipeState};
    ghost use Rattle.sn_emit.specs.declared.sender_of.SenderOf.{SenderOf};

    ghost Value = { SenderOf PipeState };

    ghost coded = { Prim.hlevel (codes, set.code {R = nat_cmp} coded_ℕ) };

    ghost use Rattle.sn_emit.specs.Kinds.{sender_in};

    ghost view = { λ a. sender_in a.held };
}

fn of_short(frame: Option<Frame<ShortRow>>) -> Option<Given>
    ensures { result ≡ frame }
{
    match frame {
        Some(frame) => Some(Given::of_short(frame)),
        None => None,
    }
}

fn of_wide(frame: Option<Frame<Row>>) -> Option<Given>
    ensures { result ≡ frame }
{
    match frame {
        Some(frame) => Some(Given::of_wide(frame)),
        None => None,
    }
}

/// A lane over short rows takes a tuple. What it gives takes the place of a frame over other rows. It stands apart from `give_short`, which
/// would clear room for that frame for each tuple.
#[inline(never)]
fn replace_short(sender: &mut SenderOf<Pipe<ShortRow>>, tuple: &Tuple, into: &mut Given) -> bool
    requires { sender.old.pipe.prefix.place ≡ 0 }
    ensures frame { then_some result into.new ≡ option_map (row_frame sender.old.lane) (item_of sender.old.pipe tuple.now) }
    ensures after { sender.new ≡ sender_next sender.old tuple.now }
    ensures range { InRange sender.old.lane → IfSome (then_some result into.new) CanEncode }
{
    match sender.packet(tuple) {
        Some(frame) => {
            *into = Given::of_short(frame);
            true
        }
        None => false,
    }
}

/// A lane over short rows takes a tuple. `true` exactly where it gives a frame, which is then in `into`: in the place of the one that
/// stands there, if that is over short rows too.
#[inline(always)]
fn give_short(sender: &mut SenderOf<Pipe<ShortRow>>, tuple: &Tuple, into: &mut Given) -> bool
    requires { sender.old.pipe.prefix.place ≡ 0 }
    ensures frame { then_some result into.new ≡ option_map (row_frame sender.old.lane) (item_of sender.old.pipe tuple.now) }
    ensures after { sender.new ≡ sender_next sender.old tuple.now }
    ensures range { InRange sender.old.lane → IfSome (then_some result into.new) CanEncode }
{
    if let AnyFrame::Short(frame) = &mut into.frame {
        return sender.packet_into(tuple, frame);
    }
    replace_short(sender, tuple, into)
}

/// A lane over rows with columns of 128 bits takes a tuple. What it gives takes the place of a frame over other rows.
#[inline(never)]
fn replace_wide(sender: &mut SenderOf<Pipe<Row>>, tuple: &Tuple, into: &mut Given) -> bool
    requires { sender.old.pipe.prefix.place ≡ 0 }
    ensures frame { then_some result into.new ≡ option_map (row_frame sender.old.lane) (item_of sender.old.pipe tuple.now) }
    ensures after { sender.new ≡ sender_next sender.old tuple.now }
    ensures range { InRange sender.old.lane → IfSome (then_some result into.new) CanEncode }
{
    match sender.packet(tuple) {
        Some(frame) => {
            *into = Given::of_wide(frame);
            true
        }
        None => false,
    }
}

/// A lane over rows with columns of 128 bits takes a tuple, as `give_short` does for one over short rows.
#[inline(never)]
fn give_wide(sender: &mut SenderOf<Pipe<Row>>, tuple: &Tuple, into: &mut Given) -> bool
    requires { sender.old.pipe.prefix.place ≡ 0 }
    ensures frame { then_some result into.new ≡ option_map (row_frame sender.old.lane) (item_of sender.old.pipe tuple.now) }
    ensures after { sender.new ≡ sender_next sender.old tuple.now }
    ensures range { InRange sender.old.lane → IfSome (then_some result into.new) CanEncode }
{
    if let AnyFrame::Wide(frame) = &mut into.frame {
        return sender.packet_into(tuple, frame);
    }
    replace_wide(sender, tuple, into)
}

impl Sender {
    ghost use Rattle.sn_emit.specs.Kinds.{sender_in};
    ghost use Rattle.sn_emit.specs.Making.{CanEncode, InRange};
    ghost use Rattle.sn_emit.specs.Runs.{IsReadOut};
    ghost use Rattle.sn_emit.specs.Senders.{ended_after, row_frame, sender_next, sender_start};

    /// A lane over short rows.
    pub fn of_short(sender: SenderOf<Pipe<ShortRow>>) -> Sender
        ensures { result ≡ sender }
    {
        Sender {
            held: AnySender::Short(sender),
        }
    }

    /// A lane over rows with columns of 128 bits.
    pub fn of_wide(sender: SenderOf<Pipe<Row>>) -> Sender
        ensures { result ≡ sender }
    {
        Sender {
            held: AnySender::Wide(sender),
        }
    }

    /// The lane, over rows of its kind.
    pub fn into_kind(self) -> AnySender
        ensures { sender_in result ≡ self }
    {
        self.held
    }

    /// How many frames with rows it gave in this window, or 2^64 - 1 where they are more.
    pub fn given(&self) -> u64
        ensures { result ≡ self.now.given }
    {
        match &self.held {
            AnySender::Short(sender) => sender.given,
            AnySender::Wide(sender) => sender.given,
        }
    }

    /// Whether the End of this window was given.
    pub fn has_ended(&self) -> bool
        ensures { result ≡ self.now.ended }
    {
        match &self.held {
            AnySender::Short(sender) => sender.ended,
            AnySender::Wide(sender) => sender.ended,
        }
    }

    /// Takes a tuple, before any read-out. `true` exactly where the pipe gives an item, whose frame is then written into `into`. Takes no memory.
    #[inline(always)]
    pub fn packet(&mut self, tuple: &Tuple, into: &mut Given) -> bool
        requires { self.old.pipe.prefix.place ≡ 0 }
        ensures frame { then_some result into.new ≡ option_map (row_frame self.old.lane) (item_of self.old.pipe tuple.now) }
        ensures after { self.new ≡ sender_next self.old tuple.now }
        ensures range { InRange self.old.lane → IfSome (then_some result into.new) CanEncode }
    {
        match &mut self.held {
            AnySender::Short(sender) => give_short(sender, tuple, into),
            AnySender::Wide(sender) => give_wide(sender, tuple, into),
        }
    }

    /// The next frame of the read-out: the rows, then one End, then `None`. Takes no memory.
    pub fn read_out(&mut self, window: u64) -> Option<Given>
        ensures frame { IsReadOut window self.old result self.new }
        ensures lane { self.new.lane ≡ self.old.lane }
        ensures pipe { (kept : set.FinSet nat_cmp) → at_start self.new.pipe kept ≡ at_start self.old.pipe kept }
        ensures rest { self.new.pipe ≡ record self.old.pipe { prefix = record self.old.pipe.prefix { place = self.new.pipe.prefix.place } } }
        ensures ended { self.new.ended ≡ ended_after self.old.ended (slice_get (left_in self.old.pipe.prefix) 0) }
        ensures range { InRange self.old.lane → IfSome result CanEncode }
    {
        match &mut self.held {
            AnySender::Short(sender) => of_short(sender.read_out(window)),
            AnySender::Wide(sender) => of_wide(sender.read_out(window)),
        }
    }

    /// Begins a window: empty registers, this prefix set, and nothing given. Takes no memory.
    pub fn next_window(&mut self, kept: Members)
        ensures { self.new ≡ sender_start self.old kept }
    {
        match &mut self.held {
            AnySender::Short(sender) => sender.next_window(kept),
            AnySender::Wide(sender) => sender.next_window(kept),
        }
    }
}
