//! Plans at work window by window, from packets to answers.
ghost use Rattle.std.specs.Prelude.{◌≡◌, ◌<◌, IfSome, OnOk, length};
ghost use Rattle.std.specs.List.{AllByRecursion};

use crate::texts::{
    COUNTS, FIVE, NET, ONE_SLOT, REFINED, SPREAD, TWO_LEVELS, TWO_SLOTS, fitting_of, row, rows, syn,
};
use sn_base::memory::Memory;
use sn_emit::given::{AnyFrame, Given};
use sn_engine_lockstep::driver::Driver;
use sn_engine_lockstep::wire::Wire;
use sn_fields::tuple::Tuple;
use sn_report::frame::Frame;
use sn_types::answers::Answers;

/// How many rows and Ends were sent.
#[derive(Drop)]
struct Sent {
    rows: u64,
    ends: u64,
}

impl Wire for Sent {
    ghost use Rattle.std.specs.Prelude.{[]};

    ghost reported = { λ sent. [] };

    ghost word = { λ frame. [] };

    fn sent(&mut self, frame: &Given) -> Result<(), Memory> {
        match frame.kind() {
            AnyFrame::Short(Frame::Row(_, _)) | AnyFrame::Wide(Frame::Row(_, _)) => {
                self.rows = self.rows.saturating_add(1)
            }
            AnyFrame::Short(Frame::End(_, _)) | AnyFrame::Wide(Frame::End(_, _)) => {
                self.ends = self.ends.saturating_add(1)
            }
        }
        Ok(())
    }
}

/// None.
fn none_sent() -> Sent {
    Sent { rows: 0, ends: 0 }
}

/// The driver of these texts. `None` where one of them isn't read, or the plan doesn't fit.
fn driver(rt: &HostRuntime, queries_text: &[u8], plan_text: &[u8]) -> Option<Driver>
    ensures many { IfSome result (λ d. length d.sources ≡ length d.emitter) }
    ensures known { IfSome result (λ d. AllByRecursion (λ source. source.query < length d.engine.t.queries) d.sources) }
{
    let fitting = fitting_of(rt.alloc(), queries_text, FIVE, plan_text)?;
    match Driver::make(&fitting.typed, &fitting.switch, &fitting.plan) {
        Ok(driver) => Some(driver),
        Err(_) => None,
    }
}

/// Answers a window of these tuples. It is begun, given its tuples, and closed.
fn answer(
    driver: &mut Driver,
    sent: &mut Sent,
    last: &Option<Answers>,
    window: u64,
    tuples: &[Tuple],
) -> Result<Answers, Memory>
    requires many { length driver.old.sources ≡ length driver.old.emitter }
    requires known { AllByRecursion (λ source. source.query < length driver.old.engine.t.queries) driver.old.sources }
    ensures many { OnOk result (length driver.new.sources ≡ length driver.new.emitter) }
    ensures known { OnOk result (AllByRecursion (λ source. source.query < length driver.new.engine.t.queries) driver.new.sources) }
{
    driver.begin(last, window)?;
    for tuple in tuples {
        driver.packet(sent, tuple)?;
    }
    driver.close(sent, window)
}

#[test]
fn counts_in_one_register(rt: HostRuntime) {
    let mut driver = driver(&rt, COUNTS, ONE_SLOT).expect(&rt, "a plan that fits");
    let tuples = [syn(1, 1), syn(1, 2), syn(1, 1), syn(1, 2), syn(1, 3)];
    let mut sent = none_sent();
    let answers = answer(&mut driver, &mut sent, &None, 0, &tuples).expect(&rt, "ample memory");
    assert_eq!(rt; answers.window, 0);
    assert_eq!(rt; answers.emitted, 4);
    assert_eq!(rt; sent.rows, 4);
    assert_eq!(rt; sent.ends, 1);
    let expected = [row(&[NET + 1, 2]), row(&[NET + 2, 2]), row(&[NET + 3, 1])];
    assert_eq!(rt; rows(&answers, 0), &expected[..]);
}

#[test]
fn counts_after_an_overflow(rt: HostRuntime) {
    let mut driver = driver(&rt, SPREAD, TWO_SLOTS).expect(&rt, "a plan that fits");
    let mut sent = none_sent();
    let answers = answer(&mut driver, &mut sent, &None, 0, &[syn(1, 9), syn(2, 9)]).expect(
        &rt,
        "ample memory",
    );
    assert_eq!(rt; answers.emitted, 2);
    assert_eq!(rt; sent.rows, 2);
    assert_eq!(rt; rows(&answers, 0), &[row(&[NET + 9, 2])][..]);
}

/// Two packets to 10.0.0.9 in window 0, and two in this one.
fn second_window(rt: &HostRuntime, window: u64) -> Result<Option<Answers>, Memory> {
    match driver(rt, REFINED, TWO_LEVELS) {
        Some(mut driver) => {
            let tuples = [syn(1, 9), syn(1, 9)];
            let mut sent = none_sent();
            let first = answer(&mut driver, &mut sent, &None, 0, &tuples)?;
            if first.emitted != 2 || !rows(&first, 1).is_empty() {
                return Ok(None);
            }
            let second = answer(&mut driver, &mut sent, &Some(first), window, &tuples)?;
            Ok(Some(second))
        }
        None => Ok(None),
    }
}

#[test]
fn refines_over_windows(rt: HostRuntime) {
    let answers = second_window(&rt, 1)
        .expect(&rt, "ample memory")
        .expect(&rt, "a plan that fits");
    assert_eq!(rt; answers.emitted, 4);
    assert_eq!(rt; rows(&answers, 0), &[row(&[NET, 2])][..]);
    assert_eq!(rt; rows(&answers, 1), &[row(&[NET + 9, 2])][..]);
}

#[test]
fn forgets_over_a_gap(rt: HostRuntime) {
    let answers = second_window(&rt, 2)
        .expect(&rt, "ample memory")
        .expect(&rt, "a plan that fits");
    assert_eq!(rt; answers.window, 2);
    assert_eq!(rt; answers.emitted, 2);
    assert_eq!(rt; rows(&answers, 0), &[row(&[NET, 2])][..]);
    assert!(rt; rows(&answers, 1).is_empty());
}
