//! The training windows of a query.
ghost use Rattle.std.specs.Prelude.{◌≡◌, ℕ, ◌≤◌, ◌<◌, ◌+◌, ◌^◌, length, OnOk};
ghost use Rattle.sn_plan_choices.specs.Costs.{HasPlaces};
ghost use Rattle.sn_cost.specs.Adding.{Adds};
ghost use Rattle.sn_cost.specs.Entries.{trained};
ghost use Rattle.sn_cost.specs.Training.{IsFresh, of_fronts};
ghost use Rattle.sn_switch.specs.Texts.{IsSwitch};
ghost use Rattle.sn_types.specs.Typed.{query_at};
ghost use Rattle.sn_windows.specs.Blocks.{most_records};

use crate::fronts::Fronts;
use crate::window::add_window;
use sn_base::memory::Memory;
use sn_cost_tally::room::Room;
use sn_cost_training::training::Training;
use sn_plan_choices::costs::CostTable;
use sn_switch::switch::Switch;
use sn_types::typed::Typed;

/// Adds the counts of all training windows at all fronts of a query, window by window.
pub(crate) fn add_query(
    room: &mut Room,
    t: &Typed,
    s: &Switch,
    q: u32,
    training: &Training,
    table: &mut CostTable,
) -> Result<(), Memory>
    requires switch { IsSwitch s.now }
    requires query { q < length t.now.queries }
    requires few { length training.now.numbers ≤ most_records }
    requires places { HasPlaces table.old (q + 1) }
    requires fresh { (prefix : ℕ) → IsFresh table.old q prefix }
    ensures { let query = query_at t.now.queries q in OnOk result
        (Adds table.old table.new (of_fronts s.now q query (2 ^ length query.levels) (trained training.now.numbers training.now.tuples))) }
{
    let mut fronts = Fronts::new(t.alloc);
    let windows = training.windows();
    for window in windows {
        add_window(
            room,
            t,
            s,
            q,
            &mut fronts,
            window.number,
            window.tuples.as_slice(),
            table,
        )?;
    }
    Ok(())
}
