//! Windows under one plan, and then under another.

use crate::texts::{COUNTS, NET, ONE_SLOT, fitting_of, row, rows, syn};
use sn_fields::tuple::Tuple;
use sn_replan::epochs::Epochs;
use sn_types::answers::Answers;

/// A switch whose registers have one slot or two.
const ONE_OR_TWO: &[u8] = b"stages 5; actions 2; bits 1000; meta 1000; chain 1; slots 1, 2;";

/// With one register of two slots.
const WIDER: &[u8] = b"plan query q path 0; piece 0 0 cut 2 slots 2 stages 1;";

/// Two packets to each of two destinations, by turns.
fn turns() -> [Tuple; 4] {
    [syn(9, 1), syn(9, 2), syn(9, 1), syn(9, 2)]
}

/// Whether both destinations are answered with two packets.
fn are_both(answers: &Answers) -> bool {
    rows(answers, 0) == &[row(&[NET + 1, 2]), row(&[NET + 2, 2])][..]
}

#[test]
fn goes_on_along_a_wider_plan(rt: HostRuntime) {
    let first = fitting_of(rt.alloc(), COUNTS, ONE_OR_TWO, ONE_SLOT).expect(&rt, "it fits");
    let next = fitting_of(rt.alloc(), COUNTS, ONE_OR_TWO, WIDER).expect(&rt, "it fits");
    let mut epochs = Epochs::make(&first.typed, &first.switch, &first.plan, 1).expect(
        &rt,
        "ample memory",
    );
    let closed = epochs.window(0, &turns()).expect(&rt, "ample memory");
    assert_eq!(rt; closed.answers.emitted, 3);
    assert_eq!(rt; closed.early, 2);
    assert!(rt; closed.over);
    assert!(rt; are_both(&closed.answers));
    assert!(rt; epochs.renew(&next.typed, &next.switch, &next.plan).is_ok());
    let closed = epochs.window(1, &turns()).expect(&rt, "ample memory");
    assert_eq!(rt; closed.answers.emitted, 2);
    assert_eq!(rt; closed.early, 0);
    assert!(rt; !closed.over);
    assert!(rt; are_both(&closed.answers));
}

#[test]
fn goes_on_along_the_same_plan(rt: HostRuntime) {
    let only = fitting_of(rt.alloc(), COUNTS, ONE_OR_TWO, ONE_SLOT).expect(&rt, "it fits");
    let mut epochs = Epochs::make(&only.typed, &only.switch, &only.plan, 2).expect(
        &rt,
        "ample memory",
    );
    let closed = epochs.window(0, &turns()).expect(&rt, "ample memory");
    assert_eq!(rt; closed.early, 2);
    assert!(rt; !closed.over);
    let closed = epochs.window(1, &turns()).expect(&rt, "ample memory");
    assert_eq!(rt; closed.answers.emitted, 3);
    assert!(rt; are_both(&closed.answers));
}
