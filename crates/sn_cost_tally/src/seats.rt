//! Which keys find room in registers of a size.
ghost use Rattle.std.specs.Prelude.{◌≡◌, ◌≤◌, ◌<◌, ◌*◌, ◌%◌, map, length, nat_eq, is_some, IfOk};
ghost use Rattle.sn_base.specs.Groups.{Apart, same_row};
ghost use Rattle.sn_chain.specs.Chain.{has_home, place_for};
ghost use Rattle.sn_chain.specs.Limits.{largest_register};
ghost use Rattle.sn_cost_seats.specs.Marks.{free_for, taken_with};
ghost use Rattle.sn_cost_tally.specs.Largest.{largest_slots};

use crate::largest::{divides, slot_in};
use crate::marks::Marks;
use sn_base::any_row::AnyRow;
use sn_base::memory::Memory;
use std::alloc::Global;

/// A key's place in a register: slot `s` of register `i` is place `i * slots + s`.
fn place_of<R: AnyRow>(register: u32, slots: u32, even: bool, key: &R, known: &[u32; 2]) -> usize
    requires known { known.now ≡ largest_slots (R.columns key.now) }
    requires register { register < 4 }
    requires some { 1 ≤ slots }
    requires most { slots ≤ largest_register }
    requires even { even ≡ nat_eq (largest_register % slots) 0 }
    ensures { result ≡ place_for slots (R.columns key.now) register }
{
    register as usize * slots as usize + slot_in(register, key, known, slots, even) as usize
}

/// Takes the first of a key's places that is free. Whether there is one. The places in the first two registers are known, and both are
/// read before it's asked which of them was free; only for a later one the key is hashed.
fn take_seat<R: AnyRow>(
    marks: &mut Marks,
    depth: u32,
    slots: u32,
    even: bool,
    key: &R,
    known: &[u32; 2],
) -> bool
    requires known { known.now ≡ largest_slots (R.columns key.now) }
    requires most_depth { depth ≤ 4 }
    requires some_slots { 1 ≤ slots }
    requires most_slots { slots ≤ largest_register }
    requires even { even ≡ nat_eq (largest_register % slots) 0 }
    requires long { length marks.old ≡ depth * slots }
    ensures home { result ≡ is_some (free_for depth slots marks.old (R.columns key.now)) }
    ensures taken { marks.new ≡ taken_with marks.old (free_for depth slots marks.old (R.columns key.now)) }
{
    let mut looking = true;
    for register in 0..depth {
        if register > 1 && !looking {
            return true;
        }
        looking = marks.take(place_of(register, slots, even, key, known), looking);
    }
    !looking
}

/// Whether each of some keys, no two the same, resides in a chain of `depth` registers with `slots` slots each, at most 4
/// registers and 1 to 65536 slots, where they come in this order. `marks` and `homes` lend their memory, whatever they hold
/// before.
///
/// # Errors
/// Out of memory.
pub fn seat<R: AnyRow>(
    alloc: Global,
    marks: &mut Marks,
    depth: u32,
    slots: u32,
    keys: &[R],
    known: &[[u32; 2]],
) -> Result<Vec<bool>, Memory>
    requires known { known.now ≡ map largest_slots (map R.columns keys.now) }
    requires most_depth { depth ≤ 4 }
    requires some_slots { 1 ≤ slots }
    requires most_slots { slots ≤ largest_register }
    requires apart { Apart same_row (map R.columns keys.now) }
    ensures { let rows = map R.columns keys.now in IfOk result (λ homes. homes.items ≡ map (has_home depth slots rows) rows) }
{
    marks.clear(alloc, depth as usize * slots as usize)?;
    let mut homes = Vec::with_capacity(alloc, keys.len())?;
    let even = divides(slots);
    for place in 0..keys.len() {
        let home = take_seat(marks, depth, slots, even, &keys[place], &known[place]);
        homes.push(home)?;
    }
    Ok(homes)
}
