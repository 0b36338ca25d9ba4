//! The cost table of training windows.
ghost use Rattle.std.specs.Prelude.{◌≡◌, ◌≤◌, ℕ, length, IfOk};
ghost use Rattle.sn_plan_choices.specs.Costs.{HasPlaces, entry_in};
ghost use Rattle.sn_plan_choices.specs.Options.{option_at};
ghost use Rattle.sn_cost.specs.Entries.{IsPiece, entry_count, trained};
ghost use Rattle.sn_switch.specs.Texts.{IsSwitch};
ghost use Rattle.sn_types.specs.Typed.{branch_at, query_at};
ghost use Rattle.sn_windows.specs.Blocks.{most_records};

use crate::train::add_query;
use sn_base::memory::Memory;
use sn_cost_tally::room::Room;
use sn_cost_training::training::Training;
use sn_plan_choices::costs::CostTable;
use sn_switch::switch::Switch;
use sn_types::typed::Typed;

/// The cost table of training windows. Each entry, of a query, a front of a path, a branch and an option, is the number of items
/// that the piece sends over all windows, and the switch's weight for each prefix that is installed in them. What passes at a level
/// after the first are the tuples with a prefix that the level before on the front answered in the window before. Where these
/// prefixes are more than the switch's entries, none is installed, and all tuples pass. In all there are no more tuples than a window
/// may have records. A window without a tuple answers nothing, so a level after the first sees nothing in the window after it.
///
/// # Errors
/// Out of memory.
pub fn build(t: &Typed, s: &Switch, training: &Training) -> Result<CostTable, Memory>
    requires switch { IsSwitch s.now }
    requires few { length training.now.numbers ≤ most_records }
    ensures places { IfOk result (λ table. HasPlaces table (length t.now.queries)) }
    ensures entries { IfOk result (λ table. (q prefix b n : ℕ) → IsPiece s.now t.now.queries q prefix b n →
        entry_in table q prefix b n ≡ entry_count s.now.chain s.now.entries s.now.weight (query_at t.now.queries q) (trained training.now.numbers training.now.tuples) prefix b
        (option_at s.now (branch_at t.now.queries q b) n)) }
{
    let mut table = CostTable::make(t, s)?;
    let mut room = Room::new(t.alloc, t.seed);
    for q in 0..t.queries() {
        add_query(&mut room, t, s, q, training, &mut table)?;
    }
    Ok(table)
}
