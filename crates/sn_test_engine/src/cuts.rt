//! One query on each of its cuts, from the switch's lanes to the engine's answer.
ghost use Rattle.std.specs.Prelude.{◌≡◌, ◌<◌, IfSome, length, slice_get};

use crate::lanes::lanes_of;
use crate::texts::{FIVE, NET, fitting_of, row, short_rows, syn};
use sn_emit::given::{AnyFrame, Given};
use sn_emit::lanes::Emitter;
use sn_engine::engine::Engine;
use sn_engine::fault::TakeFault;
use sn_fields::tuple::Tuple;
use sn_plan_fit::shape;
use sn_types::answers::Answers;

/// Sums that are capped at four bits, over destinations with their sources.
const CAPPED: &[u8] =
    b"window 1000000 query q { packets | map ip.dst as d, ip.src as s | distinct | map d as d, 9 as n | reduce d: sum(n) width 4; }";

/// An engine takes a frame of either kind of rows.
fn take(engine: &mut Engine, given: &Given) -> Result<(), TakeFault> {
    match given.kind() {
        AnyFrame::Short(frame) => engine.take(frame),
        AnyFrame::Wide(frame) => engine.take(frame),
    }
}

/// Sends a window of the first lane to an engine.
fn send(
    emitter: &mut Emitter,
    engine: &mut Engine,
    tuples: &[Tuple],
    number: u64,
) -> Result<(), TakeFault>
    requires lane { 0 < length emitter.old }
    requires unread { IfSome (slice_get emitter.old 0) (λ s. s.pipe.prefix.place ≡ 0) }
{
    for tuple in tuples {
        if let Some(frame) = emitter.packet(0, tuple) {
            take(engine, &frame)?;
        }
    }
    for _ in 0..10 {
        if let Some(frame) = emitter.read_out(0, number) {
            take(engine, &frame)?;
        }
    }
    Ok(())
}

/// The answers of two packets to 10.0.0.9 by this plan. `None` where it isn't read or doesn't fit.
fn answers(rt: &HostRuntime, plan_text: &[u8]) -> Option<Answers> {
    let fitting = fitting_of(rt.alloc(), CAPPED, FIVE, plan_text)?;
    let mut engine = match shape(&fitting.typed, &fitting.plan) {
        Ok(()) => Engine::make(rt.alloc(), &fitting.typed, &fitting.plan).ok()?,
        Err(_) => return None,
    };
    let mut emitter = lanes_of(&fitting)?;
    if emitter.lanes() == 0 {
        return None;
    }
    send(&mut emitter, &mut engine, &[syn(1, 9), syn(2, 9)], 0).ok()?;
    engine.close_window().ok()
}

#[test]
fn every_cut_has_the_same_answer(rt: HostRuntime) {
    for plan in [
        b"plan query q path 0; piece 0 0 cut 0;".as_slice(),
        b"plan query q path 0; piece 0 0 cut 1;",
        b"plan query q path 0; piece 0 0 cut 2 slots 1 stages 1;",
        b"plan query q path 0; piece 0 0 cut 3 slots 1 stages 1;",
        b"plan query q path 0; piece 0 0 cut 4 slots 1, 1 stages 1, 3;",
    ] {
        let answers = answers(&rt, plan).expect(&rt, "answers");
        assert_eq!(rt; answers.emitted, 2);
        assert_eq!(rt; answers.parts.as_slice().len(), 1);
        for part in answers.parts.as_slice() {
            assert_eq!(rt; short_rows(part), [row(&[NET + 9, 15])].as_slice());
        }
    }
}
