//! The search of a key in its cells.
ghost use Rattle.std.specs.Prelude.{◌≡◌, ◌*◌, ◌+◌, ◌<◌, ◌≤◌, length, slice_index};
ghost use Rattle.std.specs.Option.{ForSome};
ghost use Rattle.sn_base.specs.Groups.{same_row};
ghost use Rattle.sn_base.specs.Slot.{slot};
ghost use Rattle.sn_chain.specs.Cells.{all_shown};
ghost use Rattle.sn_chain.specs.Chain.{AreSlots, KeysStand, place_for, places_of};
ghost use Rattle.sn_chain.specs.Limits.{largest_register};
ghost use Rattle.sn_chain.specs.Found.{found_at, IsWithin};
ghost use Rattle.sn_chain.specs.Marks.{AreMarks};
ghost use Rattle.sn_chain.specs.Registers.{held_place, empty_place};

use crate::cells::Cells;
use crate::marks::is_marked;
use sn_base::any_row::AnyRow;
use sn_base::slot::slot_of;

/// Where a key is, or may go.
pub(crate) enum Found {
    /// The place that holds the key.
    Held(usize),
    /// The first of the key's places that is empty, where none holds it.
    Empty(usize),
    /// All its places hold other keys.
    Full,
}

/// A key's place in a register, by the key's slots where they are known.
fn place<R: AnyRow>(register: u32, key: &R, slots: u32, known: Option<&[u32; 4]>) -> usize
    requires register { register < 4 }
    requires some { 1 ≤ slots }
    requires most { slots ≤ largest_register }
    requires known { ForSome known (λ at. slice_index at.now register ≡ slot register (R.columns key.now) slots) }
    ensures value { result ≡ place_for slots (R.columns key.now) register }
    ensures within { result < register * slots + slots }
{
    let slot = match known {
        Some(at) => at[register as usize],
        None => slot_of(register, key, slots),
    };
    register as usize * slots as usize + slot as usize
}

/// Looks for a key in its cells, register by register, by the key's slots where they are known. It ends at the first cell that
/// is empty: the key would have taken it, so no later register holds it. Which cells are empty the marks tell, which the nearest
/// cache holds, so a new key waits for no cell. Where slots aren't known, each register that is looked at costs a hash.
#[inline(always)]
pub(crate) fn look<R: AnyRow>(
    cells: &Cells<R>,
    marks: &[u64],
    depth: u32,
    slots: u32,
    key: &R,
    known: Option<&[u32; 4]>,
) -> Found
    requires depth { depth ≤ 4 }
    requires some { 1 ≤ slots }
    requires most { slots ≤ largest_register }
    requires cells { length cells.now ≡ depth * slots }
    requires stand { KeysStand depth slots (all_shown marks.now cells.now) }
    requires marks { AreMarks marks.now (all_shown marks.now cells.now) }
    requires known { ForSome known (λ at. AreSlots depth slots (R.columns key.now) at.now) }
    ensures found { result ≡ found_at (held_place same_row (all_shown marks.now cells.now) (places_of depth slots (R.columns key.now)) (R.columns key.now))
        (empty_place (all_shown marks.now cells.now) (places_of depth slots (R.columns key.now))) }
    ensures within { IsWithin result (length cells.now) }
{
    for register in 0..depth {
        let at = place(register, key, slots, known);
        if !is_marked(marks, at) {
            return Found::Empty(at);
        }
        if cells.has(at, key) {
            return Found::Held(at);
        }
    }
    Found::Full
}
