//! Laws of prices over training windows, with nothing to run.
ghost use Rattle.std.specs.Prelude.{◌≡◌, ◌≤◌, ℕ, List, Ok};
ghost use Rattle.sn_command_prices.specs.Priced.{PricedFor, priced_cost};
ghost use Rattle.sn_cost_laws.specs.Sent.{cost_over};
ghost use Rattle.sn_plan_fit.specs.Fits.{Fits};
ghost use Rattle.sn_plan_grammar.specs.declared.plan.Entry.{Entry};
ghost use Rattle.sn_plan_grammar.specs.declared.plan.Plan.{Plan};
ghost use Rattle.sn_plan_lists.specs.Theorems.{HaveRisingNumbers};
ghost use Rattle.sn_prices_grammar.specs.declared.prices.Shown.{Shown};
ghost use Rattle.sn_switch.specs.declared.switch.Switch.{Switch};
ghost use Rattle.sn_types.specs.declared.typed_query.TypedQuery.{TypedQuery};
ghost use Rattle.sn_windows.specs.Rising.{Window};

use sn_cost_laws::sent::costs_are_items_sent;
use sn_prices::laws::prices_bound_costs;

/// Where a cost and prices are found without a fault for a plan that fits, the cost is the plan's over the training windows, and no plan that
/// fits costs less than the number that is reported, whoever made the prices.
pub fn prices_without_fault_bound_costs()
    ensures cost { (s : Switch) (queries : List TypedQuery) (given : List Window) (plan : Plan) (x : Shown) → HaveRisingNumbers s queries →
        Fits queries s plan.entries → PricedFor s queries given plan x (Ok tt) → x.cost ≡ cost_over s queries plan.entries given }
    ensures least { (s : Switch) (queries : List TypedQuery) (given : List Window) (plan : Plan) (x : Shown) (entries : List Entry) →
        HaveRisingNumbers s queries → PricedFor s queries given plan x (Ok tt) → Fits queries s entries →
        x.least ≤ cost_over s queries entries given }
{
    costs_are_items_sent();
    prices_bound_costs();
}
