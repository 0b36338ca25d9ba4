//! A plan with a cost, prices and what they show, over training windows.
ghost use Rattle.std.specs.Prelude.{◌≡◌, ◌≤◌, List, length, IfOk};
ghost use Rattle.sn_command_prices.specs.Made.{IsPricedPlan};
ghost use Rattle.sn_cost.specs.Entries.{trained};
ghost use Rattle.sn_cost_laws.specs.Priced.{AreCounted};
ghost use Rattle.sn_plan_choices.specs.Costs.{HasPlaces, entry_in};
ghost use Rattle.sn_plan_fit.specs.Fits.{Fits};
ghost use Rattle.sn_prices_search.specs.Writable.{AreWritable};
ghost use Rattle.sn_switch.specs.Texts.{IsSwitch};
ghost use Rattle.sn_windows.specs.Blocks.{most_records};
ghost use Rattle.sn_windows.specs.Rising.{Window};

use crate::shown::cost_and_least;
use sn_base::memory::Memory;
use sn_cost::build::build;
use sn_cost_training::training::Training;
use sn_plan_choices::costs::CostTable;
use sn_plan_fit::fits;
use sn_plan_grammar::plan::Plan;
use sn_plan_lists::naming::plan_of;
use sn_prices_grammar::prices::{Prices, Shown};
use sn_prices_search::find::{Found, find};
use sn_switch::switch::Switch;
use sn_types::typed::Typed;

/// A plan that fits, with its cost, prices and what they show.
#[derive(Drop)]
pub struct PricedPlan {
    pub plan: Plan,
    pub shown: Shown,
}

/// The plan that asks each query at its finest level alone, with nothing in the switch. It fits each switch.
///
/// # Errors
/// Out of memory.
pub fn bare_plan(t: &Typed, s: &Switch) -> Result<Plan, Memory>
    requires { IsSwitch s.now }
    ensures { IfOk result (λ p. Fits t.now.queries s.now p.entries) }
{
    let plan = plan_of(t, s, &[])?;
    Ok(plan)
}

/// The plan, where it fits, or else the one with nothing in the switch.
fn fitting(t: &Typed, s: &Switch, plan: Plan) -> Result<Plan, Memory>
    requires { IsSwitch s.now }
    ensures { IfOk result (λ p. Fits t.now.queries s.now p.entries) }
{
    if fits(t, s, &plan).is_ok() {
        Ok(plan)
    } else {
        bare_plan(t, s)
    }
}

/// A plan that fits, with prices that a text can hold, gets its cost and what the prices show, by a table that counts training windows.
fn priced(
    t: &Typed,
    s: &Switch,
    c: &CostTable,
    plan: Plan,
    prices: Prices,
) -> Result<PricedPlan, Memory>
    requires switch { IsSwitch s.now }
    requires places { HasPlaces c.now (length t.now.queries) }
    requires reported { AreWritable prices }
    requires fits { Fits t.now.queries s.now plan.entries }
    ensures { IfOk result (λ p. (given : List Window) → AreCounted s.now t.now.queries given (entry_in c.now) → IsPricedPlan s.now t.now.queries given p) }
{
    let (cost, least) = cost_and_least(t, s, c, &plan, &prices)?;
    let shown = Shown {
        cost,
        prices,
        least,
    };
    Ok(PricedPlan { plan, shown })
}

/// A plan of typed queries that fits a switch, with its exact cost over training windows, and prices with what they show of it: no plan that fits
/// costs less. Each of up to three attempts to find a cheap one takes at most `most` steps. The same queries, switch, windows and number give the same each time. In all there are no more tuples than a window may have records.
///
/// # Errors
/// Out of memory.
pub fn make(t: &Typed, s: &Switch, training: &Training, most: u32) -> Result<PricedPlan, Memory>
    requires switch { IsSwitch s.now }
    requires few { length training.now.numbers ≤ most_records }
    ensures { IfOk result (λ p. IsPricedPlan s.now t.now.queries (trained training.now.numbers training.now.tuples) p) }
{
    let table = build(t, s, training)?;
    let Found { plan, prices } = find(t, s, &table, most)?;
    let plan = fitting(t, s, plan)?;
    priced(t, s, &table, plan, prices)
}
