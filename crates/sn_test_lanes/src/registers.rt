//! Registers that are given the slots of keys.
ghost use Rattle.std.specs.Prelude.{◌≡◌, ◌≤◌, [], ◌∷◌};
ghost use Rattle.sn_chain.specs.Limits.{largest_register};

use sn_base::fold::SatSum;
use sn_base::short_row::ShortRow;
use sn_chain::chain::Chain;
use sn_chain::offer::Offer;
use sn_cost_seats::slots::slots_of;
use sn_cost_seats::tally::over;
use sn_cost_tally::largest::of_keys;
use sn_cost_tally::marks::Marks;
use sn_cost_tally::seats::seat;
use std::test::Fail;

fn key(column: u64) -> ShortRow
    ensures { result ≡ column ∷ [] }
{
    let mut key = ShortRow::empty();
    key.push(column);
    key
}

/// The slot is by the formula in whole numbers, worked out elsewhere.
#[test]
fn holds_what_came_at_its_slot(rt: HostRuntime) -> Result<(), Fail> {
    let mut chain = Chain::make(rt.alloc(), SatSum { v: 16 }, 1, 256)?;
    assert_eq!(rt; chain.offer_at(&key(0), 1, &[197, 0, 0, 0]), Offer::New);
    assert_eq!(rt; chain.offer(&key(0), 1), Offer::Held);
    Ok(())
}

/// The slots are by the formula in whole numbers, worked out elsewhere. A register with one slot has no other than 0.
#[test]
fn finds_the_slots_of_keys(rt: HostRuntime) -> Result<(), Fail> {
    let at = slots_of(rt.alloc(), &[key(0)], 1, 256)?;
    assert_eq!(rt; at.as_slice(), [[197, 0, 0, 0]].as_slice());
    let at = slots_of(rt.alloc(), &[key(1), key(2), key(3)], 2, 1)?;
    assert_eq!(rt; at.as_slice(), [[0; 4]; 3].as_slice());
    let nine = [
        key(0),
        key(1),
        key(2),
        key(3),
        key(4),
        key(5),
        key(6),
        key(7),
        key(8),
    ];
    let at = slots_of(rt.alloc(), &nine, 2, 256)?;
    let by_formula = [
        [197, 164, 0, 0],
        [164, 197, 0, 0],
        [7, 230, 0, 0],
        [230, 7, 0, 0],
        [65, 32, 0, 0],
        [32, 65, 0, 0],
        [131, 98, 0, 0],
        [98, 131, 0, 0],
        [205, 172, 0, 0],
    ];
    assert_eq!(rt; at.as_slice(), by_formula.as_slice());
    Ok(())
}

/// Which of the keys 1, 2 and 3 find room in registers with this many slots.
fn homes_of(rt: &HostRuntime, depth: u32, slots: u32) -> Result<Vec<bool>, Fail>
    requires depth { depth ≤ 4 }
    requires some { 1 ≤ slots }
    requires most { slots ≤ largest_register }
{
    let keys = [key(1), key(2), key(3)];
    let known = of_keys(rt.alloc(), &keys)?;
    let mut marks = Marks::new(rt.alloc());
    let homes = seat(
        rt.alloc(),
        &mut marks,
        depth,
        slots,
        &keys,
        known.as_slice(),
    )?;
    Ok(homes)
}

/// One place holds the first key, and two the first two. Of three slots, which don't divide the most that a register may have, the first
/// two keys want the same one; in a second register they want others. By the formula in whole numbers, worked out elsewhere.
#[test]
fn seats_the_first_keys(rt: HostRuntime) -> Result<(), Fail> {
    assert_eq!(rt;
        homes_of(&rt, 1, 1)?.as_slice(),
        [true, false, false].as_slice()
    );
    assert_eq!(rt;
        homes_of(&rt, 2, 1)?.as_slice(),
        [true, true, false].as_slice()
    );
    assert_eq!(rt;
        homes_of(&rt, 1, 3)?.as_slice(),
        [true, false, true].as_slice()
    );
    assert_eq!(rt;
        homes_of(&rt, 2, 3)?.as_slice(),
        [true, true, true].as_slice()
    );
    Ok(())
}

#[test]
fn counts_the_rows_without_a_home(rt: HostRuntime) {
    assert_eq!(rt; over(&[true, false, false], &[2, 2, 1]), 3);
    assert_eq!(rt; over(&[true, true, false], &[2, 2, 1]), 1);
    assert_eq!(rt; over(&[], &[]), 0);
}
