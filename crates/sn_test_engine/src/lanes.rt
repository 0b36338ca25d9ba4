//! What the lanes of plans send over small windows.
ghost use Rattle.std.specs.Prelude.{◌≡◌, ◌<◌, ℕ, IfSome, length, slice_get};
ghost use Rattle.sn_emit.specs.Making.{CanEncode};
ghost use Rattle.sn_plan_fit.specs.Fits.{Fits};
ghost use Rattle.sn_switch.specs.Texts.{IsSwitch};

use crate::frames::WIDE;
use crate::texts::{
    COUNTS, FIVE, Fitting, NET, ONE_SLOT, REFINED, SPREAD, TWO_LEVELS, TWO_SLOTS, fitting_of, lane,
    row, sent, syn,
};
use sn_base::members::Members;
use sn_base::memory::Memory;
use sn_base::seq::Seq;
use sn_base::short_row::ShortRow;
use sn_emit::given::{AnyFrame, Given};
use sn_emit::lanes::Emitter;
use sn_fields::tuple::Tuple;
use sn_report::encode::{MOST_BYTES, encode};
use sn_report::frame::{Frame, Item, Tag};
use std::alloc::Global;

/// Destinations, each once.
const KINDS: &[u8] = b"window 1000000 query q { packets | map ip.dst as d | distinct; }";

/// A switch whose chains have two registers.
const CHAINED: &[u8] = b"stages 4; actions 2; bits 1000; meta 1000; chain 2; slots 1;";

/// A switch whose tables hold one prefix.
const ONE_PREFIX: &[u8] =
    b"stages 5; actions 2; bits 1000; meta 1000; chain 1; slots 1; entries 1;";

/// One slot in each of two registers.
const TWO_REGISTERS: &[u8] = b"plan query q path 0; piece 0 0 cut 2 slots 1 stages 1, 2;";

/// The lanes of a plan that fits, if memory is found.
#[tactic(auto, using(sn_emit::proofs::Unread::new_unread))]
pub(crate) fn lanes_of(fitting: &Fitting) -> Option<Emitter>
    requires switch { IsSwitch fitting.now.switch }
    requires fits { Fits fitting.now.typed.queries fitting.now.switch fitting.now.plan.entries }
    ensures { IfSome result (λ lanes. (lane : ℕ) → IfSome (slice_get lanes lane) (λ s. s.pipe.prefix.place ≡ 0)) }
{
    match Emitter::make(&fitting.typed, &fitting.switch, &fitting.plan) {
        Ok(emitter) => Some(emitter),
        Err(_) => None,
    }
}

/// The lanes of these texts. `None` where one of them isn't read, or the plan doesn't fit.
fn emitter(
    rt: &HostRuntime,
    queries_text: &[u8],
    switch_text: &[u8],
    plan_text: &[u8],
) -> Option<Emitter>
    ensures { IfSome result (λ lanes. (lane : ℕ) → IfSome (slice_get lanes lane) (λ s. s.pipe.prefix.place ≡ 0)) }
{
    let fitting = fitting_of(rt.alloc(), queries_text, switch_text, plan_text)?;
    lanes_of(&fitting)
}

/// Frames, and their bytes one after another.
#[derive(Drop)]
struct Reported {
    frames: Seq<Frame<ShortRow>>,
    bytes: Seq<u8>,
}

impl Reported {
    /// `Memory` also for a frame over wide rows, which no lane of these tests gives.
    fn push(&mut self, given: Given) -> Result<(), Memory>
        requires { CanEncode given }
    {
        let AnyFrame::Short(frame) = given.kind() else {
            return Err(Memory);
        };
        let mut bytes = [0; MOST_BYTES];
        let len = encode(frame, &mut bytes);
        self.frames.push(*frame)?;
        for byte in bytes.iter().take(len) {
            self.bytes.push(*byte)?;
        }
        Ok(())
    }
}

/// What a lane gives for these tuples, and then in ten calls of its read-out.
fn window(
    alloc: Global,
    emitter: &mut Emitter,
    lane: u32,
    tuples: &[Tuple],
    number: u64,
) -> Result<Reported, Memory>
    requires lane { lane < length emitter.old }
    requires unread { IfSome (slice_get emitter.old lane) (λ s. s.pipe.prefix.place ≡ 0) }
    ensures { length emitter.new ≡ length emitter.old }
{
    let mut reported = Reported {
        frames: Seq::new(alloc),
        bytes: Seq::new(alloc),
    };
    for tuple in tuples {
        if let Some(frame) = emitter.packet(lane, tuple) {
            reported.push(frame)?;
        }
    }
    for _ in 0..10 {
        if let Some(frame) = emitter.read_out(lane, number) {
            reported.push(frame)?;
        }
    }
    Ok(reported)
}

/// Begins a window of a lane.
fn begin(emitter: &mut Emitter, lane: u32, kept: Members)
    requires { lane < length emitter.old }
    ensures count { length emitter.new ≡ length emitter.old }
    ensures unread { IfSome (slice_get emitter.new lane) (λ s. s.pipe.prefix.place ≡ 0) }
{
    emitter.next_window(lane, kept);
}

/// What destinations 1 2 1 2 3 give in one register of one slot: three rows overflow, and one is read out.
fn counted(number: u64) -> [Frame<ShortRow>; 5] {
    [
        sent(Tag::At(1), row(&[NET + 2, 1])),
        sent(Tag::At(1), row(&[NET + 2, 1])),
        sent(Tag::At(1), row(&[NET + 3, 1])),
        sent(Tag::At(2), row(&[NET + 1, 2])),
        Frame::End(lane(0, 0), number),
    ]
}

#[test]
fn counts_in_one_register(rt: HostRuntime) {
    let mut emitter = emitter(&rt, COUNTS, FIVE, ONE_SLOT).expect(&rt, "a plan that fits");
    let lanes = emitter.lanes();
    assert!(rt; lanes == 1);
    let tuples = [syn(1, 1), syn(1, 2), syn(1, 1), syn(1, 2), syn(1, 3)];
    let first = window(rt.alloc(), &mut emitter, 0, &tuples, 0).expect(&rt, "ample memory");
    assert_eq!(rt; first.frames.as_slice(), &counted(0)[..]);
    assert_eq!(rt; emitter.emitted(), 4);
    begin(&mut emitter, 0, Members::new(rt.alloc()));
    assert_eq!(rt; emitter.emitted(), 0);
    let second = window(rt.alloc(), &mut emitter, 0, &tuples, 1).expect(&rt, "ample memory");
    assert_eq!(rt; second.frames.as_slice(), &counted(1)[..]);
    assert_eq!(rt; emitter.emitted(), 4);
}

/// Of the destinations 1 2 1 2 3, their counts in a chain of two registers, and each destination once in one register.
#[test]
fn takes_the_free_registers(rt: HostRuntime) {
    let chained = [
        sent(Tag::At(1), row(&[NET + 3, 1])),
        sent(Tag::At(2), row(&[NET + 1, 2])),
        sent(Tag::At(2), row(&[NET + 2, 2])),
        Frame::End(lane(0, 0), 0),
    ];
    let kinds = [
        sent(Tag::At(2), row(&[NET + 1])),
        sent(Tag::At(1), row(&[NET + 2])),
        sent(Tag::At(1), row(&[NET + 2])),
        sent(Tag::At(1), row(&[NET + 3])),
        Frame::End(lane(0, 0), 0),
    ];
    for (queries, switch, plan, frames) in [
        (COUNTS, CHAINED, TWO_REGISTERS, &chained[..]),
        (KINDS, FIVE, ONE_SLOT, &kinds[..]),
    ] {
        let mut emitter = emitter(&rt, queries, switch, plan).expect(&rt, "a plan that fits");
        let lanes = emitter.lanes();
        assert!(rt; lanes == 1);
        let tuples = [syn(1, 1), syn(1, 2), syn(1, 1), syn(1, 2), syn(1, 3)];
        let reported = window(rt.alloc(), &mut emitter, 0, &tuples, 0).expect(&rt, "ample memory");
        assert_eq!(rt; reported.frames.as_slice(), frames);
    }
}

#[test]
fn writes_a_partial_row(rt: HostRuntime) {
    let mut emitter = emitter(&rt, SPREAD, FIVE, TWO_SLOTS).expect(&rt, "a plan that fits");
    let lanes = emitter.lanes();
    assert!(rt; lanes == 1);
    let reported = window(rt.alloc(), &mut emitter, 0, &[syn(1, 9), syn(2, 9)], 0).expect(
        &rt,
        "ample memory",
    );
    assert_eq!(rt; reported.bytes.as_slice(), &WIDE[..]);
    assert_eq!(rt; emitter.emitted(), 2);
}

#[test]
fn admits_the_prefixes_of_the_level_before(rt: HostRuntime) {
    let mut emitter = emitter(&rt, REFINED, FIVE, TWO_LEVELS).expect(&rt, "a plan that fits");
    let lanes = emitter.lanes();
    assert!(rt; lanes == 2);
    let coarse = window(rt.alloc(), &mut emitter, 0, &[syn(1, 9)], 0).expect(&rt, "ample memory");
    let frames = [sent(Tag::At(0), row(&[NET])), Frame::End(lane(0, 0), 0)];
    assert_eq!(rt; coarse.frames.as_slice(), &frames[..]);
    let mut kept = Members::new(rt.alloc());
    assert!(rt; kept.add(u128::from(NET)).is_ok());
    begin(&mut emitter, 1, kept);
    let fine = window(rt.alloc(), &mut emitter, 1, &[syn(1, 9)], 1).expect(&rt, "ample memory");
    let tag = Tag::At(0);
    let row = row(&[NET + 9]);
    let frames = [
        Frame::Row(lane(0, 1), Item { tag, row }),
        Frame::End(lane(0, 1), 1),
    ];
    assert_eq!(rt; fine.frames.as_slice(), &frames[..]);
}

#[test]
fn admits_nothing_at_first(rt: HostRuntime) {
    let mut emitter = emitter(&rt, REFINED, FIVE, TWO_LEVELS).expect(&rt, "a plan that fits");
    let lanes = emitter.lanes();
    assert!(rt; lanes == 2);
    let reported = window(rt.alloc(), &mut emitter, 1, &[syn(1, 9)], 0).expect(&rt, "ample memory");
    assert_eq!(rt;
        reported.frames.as_slice(),
        &[Frame::End(lane(0, 1), 0)][..]
    );
    assert_eq!(rt; emitter.emitted(), 0);
}

/// Whether level 32 sends the packet to 10.0.0.9, where level 8 answered these prefixes and a table holds one.
fn sends_with(rt: &HostRuntime, prefixes: &[u64]) -> Result<bool, Memory> {
    let Some(mut emitter) = emitter(rt, REFINED, ONE_PREFIX, TWO_LEVELS) else {
        return Ok(false);
    };
    if emitter.lanes() != 2 {
        return Ok(false);
    }
    let mut kept = Members::new(rt.alloc());
    for prefix in prefixes {
        kept.add(u128::from(*prefix))?;
    }
    begin(&mut emitter, 1, kept);
    let reported = window(rt.alloc(), &mut emitter, 1, &[syn(1, 9)], 1)?;
    Ok(reported.frames.as_slice().len() == 2 && emitter.emitted() == 1)
}

#[test]
fn an_open_table_admits_every_packet(rt: HostRuntime) {
    assert!(rt; !sends_with(&rt, &[]).expect(&rt, "ample memory"));
    assert!(rt; sends_with(&rt, &[NET]).expect(&rt, "ample memory"));
    assert!(rt; !sends_with(&rt, &[2 * NET]).expect(&rt, "ample memory"));
    assert!(rt; !sends_with(&rt, &[2 * NET, 2 * NET]).expect(&rt, "ample memory"));
    assert!(rt; sends_with(&rt, &[2 * NET, 3 * NET]).expect(&rt, "ample memory"));
}
