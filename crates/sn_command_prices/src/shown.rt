//! What a plan costs over training windows, and what prices show.
ghost use Rattle.std.specs.Prelude.{◌≡◌, ◌≤◌, List, length, IfOk};
ghost use Rattle.sn_cost_laws.specs.Priced.{AreCounted};
ghost use Rattle.sn_plan_choices.specs.Costs.{HasPlaces, entry_in};
ghost use Rattle.sn_plan_fit.specs.Fits.{Fits};
ghost use Rattle.sn_plan_lists.specs.Costs.{plan_cost};
ghost use Rattle.sn_prices.specs.Least.{shown_least};
ghost use Rattle.sn_command_prices.specs.Priced.{priced_cost, priced_least};
ghost use Rattle.sn_switch.specs.Texts.{IsSwitch};
ghost use Rattle.sn_windows.specs.Rising.{Window};

use sn_base::memory::Memory;
use sn_plan_choices::costs::CostTable;
use sn_plan_grammar::plan::Plan;
use sn_plan_lists::costing::cost_of;
use sn_prices_bound::bound::bound;
use sn_prices_grammar::prices::Prices;
use sn_switch::switch::Switch;
use sn_types::typed::Typed;

/// What prices show by a table, where a plan that fits costs this much by it. No plan that fits costs less, so it has 64 bits.
fn least_of(
    t: &Typed,
    s: &Switch,
    c: &CostTable,
    plan: &Plan,
    p: &Prices,
    cost: u64,
) -> Result<u64, Memory>
    requires switch { IsSwitch s.now }
    requires places { HasPlaces c.now (length t.now.queries) }
    requires few { length p.now.limits ≤ 64 }
    requires fits { Fits t.now.queries s.now plan.now.entries }
    requires cost { cost ≡ plan_cost s.now (entry_in c.now) 0 t.now.queries plan.now.entries }
    ensures { IfOk result (λ least. least ≡ shown_least s.now (entry_in c.now) p.now t.now.queries) }
{
    let least = bound(t, s, c, p)?;
    Ok(least.min(u128::from(cost)) as u64)
}

/// What a plan that fits costs over training windows, and what prices show over them. The table counts these windows, and there are at most
/// 64 limits, as in a text.
///
/// # Errors
/// Out of memory.
pub fn cost_and_least(
    t: &Typed,
    s: &Switch,
    c: &CostTable,
    plan: &Plan,
    p: &Prices,
) -> Result<(u64, u64), Memory>
    requires switch { IsSwitch s.now }
    requires places { HasPlaces c.now (length t.now.queries) }
    requires few { length p.now.limits ≤ 64 }
    requires fits { Fits t.now.queries s.now plan.now.entries }
    ensures { IfOk result (λ shown. (given : List Window) → AreCounted s.now t.now.queries given (entry_in c.now) →
        (shown.0 ≡ priced_cost s.now t.now.queries given plan.now) × (shown.1 ≡ priced_least s.now t.now.queries given p.now)) }
{
    let cost = cost_of(t, s, c, plan);
    let least = least_of(t, s, c, plan, p, cost)?;
    Ok((cost, least))
}
