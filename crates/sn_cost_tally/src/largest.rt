//! The slots of keys in registers of the largest size. Those in registers of a size that divides it follow from them.
ghost use Rattle.std.specs.Prelude.{◌≡◌, ◌≤◌, ◌%◌, map, nat_eq, IfOk};
ghost use Rattle.sn_base.specs.Slot.{slot};
ghost use Rattle.sn_chain.specs.Limits.{largest_register};
ghost use Rattle.sn_cost_tally.specs.Largest.{largest_slots};

use sn_base::any_row::AnyRow;
use sn_base::memory::Memory;
use sn_base::slot::{remainder, slot_of};
use std::alloc::Global;

/// The most slots of a register.
const LARGEST: u32 = 65536;

/// A key's slots in the first two registers, if these had the largest size.
fn of_key<R: AnyRow>(key: &R) -> [u32; 2]
    ensures { result ≡ largest_slots (R.columns key.now) }
{
    [slot_of(0, key, LARGEST), slot_of(1, key, LARGEST)]
}

/// The slots of keys, in their order. The hash of a key takes longer than all else that is done with it for one size, and it is the
/// same for all sizes.
pub fn of_keys<R: AnyRow>(alloc: Global, keys: &[R]) -> Result<Vec<[u32; 2]>, Memory>
    ensures { IfOk result (λ found. found.items ≡ map largest_slots (map R.columns keys.now)) }
{
    let mut found = Vec::with_capacity(alloc, keys.len())?;
    for key in keys {
        found.push(of_key(key))?;
    }
    Ok(found)
}

/// Whether a size divides the largest one.
pub(crate) fn divides(slots: u32) -> bool
    requires { 1 ≤ slots }
    ensures { result ≡ nat_eq (largest_register % slots) 0 }
{
    LARGEST % slots == 0
}

/// A key's slot in a register. It is hashed for that where the register comes after the second, or where its size doesn't divide the
/// largest one. Whether it does is asked once for all keys: a division takes longer than all else.
pub(crate) fn slot_in<R: AnyRow>(
    register: u32,
    key: &R,
    known: &[u32; 2],
    slots: u32,
    even: bool,
) -> u32
    requires some { 1 ≤ slots }
    requires known { known.now ≡ largest_slots (R.columns key.now) }
    requires even { even ≡ nat_eq (largest_register % slots) 0 }
    ensures { result ≡ slot register (R.columns key.now) slots }
{
    if !even {
        return slot_of(register, key, slots);
    }
    match register {
        0 => remainder(u64::from(known[0]), slots),
        1 => remainder(u64::from(known[1]), slots),
        _ => slot_of(register, key, slots),
    }
}
