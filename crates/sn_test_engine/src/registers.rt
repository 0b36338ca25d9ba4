//! Chains of registers.
use crate::texts::{row, wide_row};
use sn_base::any_fold::AnyFold;
use sn_base::fold::{Max, SatSum};
use sn_base::memory::Memory;
use sn_base::row::Row;
use sn_base::short_row::ShortRow;
use sn_base::slot::slot_of;
use sn_chain::chain::Chain;
use sn_chain::offer::Offer;
use std::alloc::Global;
use std::test::Fail;

#[test]
fn holds_one_key_in_one_cell(rt: HostRuntime) {
    let mut chain = Chain::make(rt.alloc(), SatSum { v: 16 }, 1, 1).expect(&rt, "ample memory");
    assert_eq!(rt; chain.offer(&row(&[1]), 1), Offer::New);
    assert_eq!(rt; chain.offer(&row(&[2]), 1), Offer::Over);
    assert_eq!(rt; chain.offer(&row(&[1]), 1), Offer::Held);
    assert_eq!(rt; chain.get(0), Some((row(&[1]), 2)));
    chain.clear();
    assert_eq!(rt; chain.get(0), None);
    assert_eq!(rt; chain.offer(&row(&[2]), 1), Offer::New);
}

#[test]
fn takes_the_second_register(rt: HostRuntime) {
    let mut chain = Chain::make(rt.alloc(), SatSum { v: 16 }, 2, 1).expect(&rt, "ample memory");
    assert_eq!(rt; chain.offer(&row(&[1]), 1), Offer::New);
    assert_eq!(rt; chain.offer(&row(&[2]), 1), Offer::New);
    assert_eq!(rt; chain.offer(&row(&[3]), 1), Offer::Over);
    assert_eq!(rt; chain.get(1), Some((row(&[2]), 1)));
    assert_eq!(rt; chain.get(2), None);
}

#[test]
fn folds_by_the_fold_that_is_given(rt: HostRuntime) -> Result<(), Fail> {
    let fold = AnyFold::Max(Max { v: 8 });
    let mut chain = Chain::make(rt.alloc(), fold, 4, 65536)?;
    assert_eq!(rt; chain.offer(&row(&[1]), 7), Offer::New);
    assert_eq!(rt; chain.offer(&row(&[1]), 5), Offer::Held);
    let place = slot_of(0, &row(&[1]), 65536);
    assert_eq!(rt; chain.get(place), Some((row(&[1]), 7)));
    Ok(())
}

#[test]
fn takes_a_slot_that_is_known(rt: HostRuntime) -> Result<(), Fail> {
    let mut chain = Chain::make(rt.alloc(), SatSum { v: 16 }, 1, 256)?;
    let first = row(&[1]);
    let at = [slot_of(0, &first, 256), 0, 0, 0];
    assert_eq!(rt; chain.offer_at(&first, 3, &at), Offer::New);
    assert_eq!(rt; chain.get(164), Some((first, 3)));
    Ok(())
}

/// Whether a chain of two cells keeps two keys apart, the one offered first.
fn are_apart(alloc: Global, one: &ShortRow, other: &ShortRow) -> Result<bool, Memory> {
    let mut chain = Chain::make(alloc, SatSum { v: 16 }, 2, 1)?;
    let came = chain.offer(one, 1) == Offer::New && chain.offer(other, 2) == Offer::New;
    let again = chain.offer(one, 4) == Offer::Held && chain.offer(other, 8) == Offer::Held;
    let shown = chain.get(0) == Some((*one, 5)) && chain.get(1) == Some((*other, 10));
    Ok(came && again && shown)
}

#[test]
fn tells_keys_apart_by_their_last_column(rt: HostRuntime) {
    for (one, other) in [
        (row(&[7, 7, 1]), row(&[7, 7, 2])),
        (row(&[7, 7, 7, 1]), row(&[7, 7, 7, 2])),
        (
            row(&[7, 7, 7, 7, 7, 7, 7, 1]),
            row(&[7, 7, 7, 7, 7, 7, 7, 2]),
        ),
    ] {
        assert!(rt; are_apart(rt.alloc(), &one, &other).expect(&rt, "ample memory"));
        assert!(rt; are_apart(rt.alloc(), &other, &one).expect(&rt, "ample memory"));
    }
}

#[test]
fn shows_nothing_of_what_was_cleared(rt: HostRuntime) {
    let mut chain = Chain::make(rt.alloc(), SatSum { v: 16 }, 2, 1).expect(&rt, "ample memory");
    assert_eq!(rt; chain.offer(&row(&[1, 2, 3, 4, 5, 6, 7, 8]), 1), Offer::New);
    assert_eq!(rt; chain.offer(&row(&[1, 2, 3, 4, 5]), 1), Offer::New);
    chain.clear();
    assert_eq!(rt; chain.get(0), None);
    assert_eq!(rt; chain.get(1), None);
    assert_eq!(rt; chain.offer(&row(&[1, 2, 3, 4]), 3), Offer::New);
    assert_eq!(rt; chain.get(0), Some((row(&[1, 2, 3, 4]), 3)));
    assert_eq!(rt; chain.get(1), None);
}

/// Whether a chain of one cell keeps the first of two keys, and has no place for the second.
fn keeps_the_first(alloc: Global, one: &Row, other: &Row) -> Result<bool, Memory> {
    let mut chain = Chain::make(alloc, SatSum { v: 16 }, 1, 1)?;
    let came = chain.offer(one, 1) == Offer::New && chain.offer(other, 1) == Offer::Over;
    let again = chain.offer(one, 1) == Offer::Held;
    Ok(came && again && chain.get(0) == Some((*one, 2)))
}

/// Keys that differ in one bit of a column or in how many they have, at the numbers up to which they fit two words.
#[test]
fn tells_keys_apart(rt: HostRuntime) {
    const WORD: u128 = 1 << 64;
    const HALF: u128 = 1 << 32;
    let pairs: [(&[u128], &[u128]); 14] = [
        (&[], &[0]),
        (&[0], &[0, 0]),
        (&[5], &[WORD + 5]),
        (&[u128::MAX], &[WORD - 1]),
        (&[1, WORD - 1], &[1, WORD]),
        (&[WORD - 1, 0], &[WORD, 0]),
        (&[5, 6], &[6, 5]),
        (&[5, 6, 0], &[5, 6]),
        (&[5, 1, 2], &[5, 2 * HALF + 1, 0]),
        (&[5, HALF - 1, HALF - 1], &[5, HALF - 1, HALF]),
        (&[5, 6, 7], &[5, 7, 6]),
        (&[WORD - 1, 0, 0], &[WORD, 0, 0]),
        (&[1, 2, 3, 4], &[1, 2, 3, 5]),
        (&[1, 2, 3, 4, 5, 6, 7, 8], &[1, 2, 3, 4, 5, 6, 7, 9]),
    ];
    for (one, other) in pairs {
        let (one, other) = (wide_row(one), wide_row(other));
        assert!(rt; keeps_the_first(rt.alloc(), &one, &other).expect(&rt, "ample memory"));
        assert!(rt; keeps_the_first(rt.alloc(), &other, &one).expect(&rt, "ample memory"));
    }
}

/// Of the 300 slots key 3 has slot 14, and key 6 slot 287.
#[test]
fn goes_from_held_place_to_held_place(rt: HostRuntime) {
    let mut chain = Chain::make(rt.alloc(), SatSum { v: 16 }, 1, 300).expect(&rt, "ample memory");
    assert_eq!(rt; chain.next_held(0), 300);
    assert_eq!(rt; chain.offer(&row(&[6]), 1), Offer::New);
    assert_eq!(rt; chain.offer(&row(&[3]), 1), Offer::New);
    for (from, next) in [
        (0, 14),
        (14, 14),
        (15, 287),
        (287, 287),
        (288, 300),
        (1000, 1000),
    ] {
        assert_eq!(rt; chain.next_held(from), next);
    }
    chain.clear();
    assert_eq!(rt; chain.next_held(0), 300);
    assert_eq!(rt; chain.offer(&row(&[6]), 1), Offer::New);
    assert_eq!(rt; chain.next_held(0), 287);
}
