//! The slots of keys in a chain of registers, eight keys at a time.
ghost use Rattle.std.specs.Prelude.{◌≡◌, ◌≤◌, ◌++◌, ◌∷◌, [], All, length, map, take, IfOk, OnOk};
ghost use Rattle.sn_cost_seats.specs.Seats.{AreBelow, slot_where, slots_for};

use sn_base::any_row::AnyRow;
use sn_base::memory::Memory;
use sn_base::slot::slot_of;
use sn_lanes::slots8::slots_of_eight;
use std::alloc::Global;

/// The slots of eight keys in a register, and 0 where the chain hasn't it.
fn block_in<R: AnyRow>(register: u32, block: &[R], depth: u32, slots: u32) -> [u32; 8]
    requires eight { length block.now ≡ 8 }
    requires some { 1 ≤ slots }
    ensures { result ≡ map (slot_where depth slots register) (map R.columns block.now) }
{
    if register < depth {
        slots_of_eight(register, block, slots)
    } else {
        [0; 8]
    }
}

/// The slot of a key in a register, and 0 where the chain hasn't it.
fn one_in<R: AnyRow>(register: u32, key: &R, depth: u32, slots: u32) -> u32
    requires { 1 ≤ slots }
    ensures { result ≡ slot_where depth slots register (R.columns key.now) }
{
    if register < depth {
        slot_of(register, key, slots)
    } else {
        0
    }
}

fn push(out: &mut Vec<[u32; 4]>, at: [u32; 4]) -> Result<(), Memory>
    ensures { OnOk result (out.new.items ≡ out.old.items ++ at ∷ []) }
{
    out.push(at)?;
    Ok(())
}

/// Adds the slots of eight keys.
fn add_block<R: AnyRow>(
    out: &mut Vec<[u32; 4]>,
    block: &[R],
    depth: u32,
    slots: u32,
) -> Result<(), Memory>
    requires eight { length block.now ≡ 8 }
    requires some { 1 ≤ slots }
    ensures { OnOk result (out.new.items ≡ out.old.items ++ map (slots_for depth slots) (map R.columns block.now)) }
{
    let first = block_in(0, block, depth, slots);
    let second = block_in(1, block, depth, slots);
    let third = block_in(2, block, depth, slots);
    let fourth = block_in(3, block, depth, slots);
    for lane in 0..8 {
        push(out, [first[lane], second[lane], third[lane], fourth[lane]])?;
    }
    Ok(())
}

/// Adds the slots of one key.
fn add_one<R: AnyRow>(
    out: &mut Vec<[u32; 4]>,
    key: &R,
    depth: u32,
    slots: u32,
) -> Result<(), Memory>
    requires { 1 ≤ slots }
    ensures { OnOk result (out.new.items ≡ out.old.items ++ slots_for depth slots (R.columns key.now) ∷ []) }
{
    let first = one_in(0, key, depth, slots);
    let second = one_in(1, key, depth, slots);
    let third = one_in(2, key, depth, slots);
    let fourth = one_in(3, key, depth, slots);
    push(out, [first, second, third, fourth])
}

/// Adds the slots of the keys from a place on, one after another.
fn add_rest<R: AnyRow>(
    out: &mut Vec<[u32; 4]>,
    keys: &[R],
    from: usize,
    depth: u32,
    slots: u32,
) -> Result<(), Memory>
    requires from { from ≤ length keys.now }
    requires some { 1 ≤ slots }
    requires done { out.old.items ≡ map (slots_for depth slots) (map R.columns (take from keys.now)) }
    ensures { OnOk result (out.new.items ≡ map (slots_for depth slots) (map R.columns keys.now)) }
{
    for place in from..keys.len() {
        add_one(out, &keys[place], depth, slots)?;
    }
    Ok(())
}

/// The slots of keys in a chain of `depth` registers with `slots` slots each, at most four registers and at least one slot: one
/// for each register, and 0 after the last.
pub fn slots_of<R: AnyRow>(
    alloc: Global,
    keys: &[R],
    depth: u32,
    slots: u32,
) -> Result<Vec<[u32; 4]>, Memory>
    requires { 1 ≤ slots }
    ensures value { IfOk result (λ at. at.items ≡ map (slots_for depth slots) (map R.columns keys.now)) }
    ensures below { IfOk result (λ at. All (AreBelow depth slots) at.items) }
{
    let mut out = Vec::new(alloc);
    let mut at = 0;
    while keys.len() - at >= 8 {
        add_block(&mut out, &keys[at..at + 8], depth, slots)?;
        at += 8;
    }
    add_rest(&mut out, keys, at, depth, slots)?;
    Ok(out)
}
