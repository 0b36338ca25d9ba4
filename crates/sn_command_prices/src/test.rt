//! Whether a cost and prices show what they say.
ghost use Rattle.std.specs.Prelude.{◌≡◌, ◌≤◌, length};
ghost use Rattle.sn_command_prices.specs.Priced.{PricedFor, price_verdict};
ghost use Rattle.sn_cost.specs.Entries.{trained};
ghost use Rattle.sn_plan_fit.specs.Fits.{Fits};
ghost use Rattle.sn_command.specs.Refusals.{refusing};
ghost use Rattle.sn_command.specs.Runs.{Answers};
ghost use Rattle.sn_switch.specs.Texts.{IsSwitch};
ghost use Rattle.sn_windows.specs.Blocks.{most_records};

use crate::shown::cost_and_least;
use sn_command::fault::{Fault, TreeFlaw, TreeKind};
use sn_command::refusal::Refusal;
use sn_cost::build::build;
use sn_cost_training::training::Training;
use sn_plan_grammar::plan::Plan;
use sn_prices_grammar::prices::Shown;
use sn_switch::switch::Switch;
use sn_types::typed::Typed;

/// Compares what a text says with what is so: the cost, and then the number that no plan costs less than.
fn compare(cost: u64, least: u64, reported_cost: u64, reported_least: u64) -> Result<(), Refusal>
    ensures { result ≡ refusing (price_verdict cost least reported_cost reported_least) }
{
    let (kind, want, got) = if reported_cost != cost {
        (TreeKind::Cost, cost, reported_cost)
    } else if reported_least > least {
        (TreeKind::Bound, least, reported_least)
    } else {
        return Ok(());
    };
    let node = 0;
    Err(Refusal::Refused(Fault::Unshown(TreeFlaw {
        kind,
        node,
        want,
        got,
    })))
}

/// Refuses a cost and prices that don't show what they say of a plan that fits, over training windows, for their first fault. There are at
/// most 64 limits, as in a text.
pub fn test_prices(
    t: &Typed,
    s: &Switch,
    training: &Training,
    plan: &Plan,
    shown: &Shown,
) -> Result<(), Refusal>
    requires switch { IsSwitch s.now }
    requires few { length training.now.numbers ≤ most_records }
    requires limits { length shown.now.prices.limits ≤ 64 }
    requires fits { Fits t.now.queries s.now plan.now.entries }
    ensures { Answers (PricedFor s.now t.now.queries (trained training.now.numbers training.now.tuples) plan.now shown.now) result }
{
    let table = build(t, s, training)?;
    let (cost, least) = cost_and_least(t, s, &table, plan, &shown.prices)?;
    compare(cost, least, shown.cost, shown.least)
}
