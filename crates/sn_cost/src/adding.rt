//! Counts that are added to the entries of a table.
ghost use Rattle.std.specs.Prelude.{◌≡◌, ◌<◌, ◌≤◌, ◌+◌, ◌*◌, length};
ghost use Rattle.std.specs.List.{AllByRecursion};
ghost use Rattle.sn_plan_choices.specs.Costs.{HasPlaces};
ghost use Rattle.sn_cost.specs.Adding.{Adds, AreSmall, HasRoom, of_counts, with_fee};

use sn_plan_choices::costs::CostTable;

/// Adds the counts of all options of a branch, this many, each with a fee, to their entries at a front. It takes no memory.
pub(crate) fn add_counts(
    table: &mut CostTable,
    q: u32,
    prefix: u32,
    b: u32,
    options: u32,
    counts: &[u64],
    fee: u64,
)
    requires query { HasPlaces table.old (q + 1) }
    requires prefix { prefix < 16 }
    requires branch { b < 2 }
    requires options { length counts.now ≡ options }
    requires few { options ≤ 256 }
    requires room { HasRoom table.old q prefix b fee }
    requires small { AreSmall counts.now }
    ensures { Adds table.old table.new (of_counts q prefix b (with_fee fee counts.now)) }
{
    for option in 0..options {
        let count = table.entry(q, prefix, b, option) + counts[option as usize] + fee;
        table.set(q, prefix, b, option, count);
    }
}
