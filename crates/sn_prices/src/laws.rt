//! Laws of prices, with nothing to run.
ghost use Rattle.std.specs.Prelude.{◌≤◌, ◌+◌, ℕ, List};
ghost use Rattle.std.specs.List.{sum_by};
ghost use Rattle.sn_plan_grammar.specs.declared.plan.Entry.{Entry};
ghost use Rattle.sn_switch.specs.declared.switch.Switch.{Switch};
ghost use Rattle.sn_types.specs.declared.typed_query.TypedQuery.{TypedQuery};
ghost use Rattle.sn_plan_fit.specs.Fits.{Fits};
ghost use Rattle.sn_plan_fit.specs.Pieces.{all_registers, all_metadata};
ghost use Rattle.sn_plan_lists.specs.Costs.{plan_cost};
ghost use Rattle.sn_plan_lists.specs.Theorems.{HaveRisingNumbers};
ghost use Rattle.sn_prices_grammar.specs.declared.prices.Prices.{Prices};
ghost use Rattle.sn_prices.specs.Limits.{register_price, metadata_price, worth};
ghost use Rattle.sn_prices.specs.Least.{shown_least};

use sn_plan_lists::law::fitting_plans_are_named;

/// What a plan that fits takes up pays at most what all limits are worth, at any prices.
pub fn fitting_plans_keep_limits()
    ensures { (s : Switch) (p : Prices) (queries : List TypedQuery) (entries : List Entry) → Fits queries s entries →
        sum_by (register_price s p) (all_registers s.chain queries entries) + metadata_price p (all_metadata queries entries) ≤ worth s p }
{}

/// No plan that fits costs less than what any prices show: the sum over the queries of the least that each has of cost and prices, less what all limits
/// are worth.
pub fn prices_bound_costs()
    ensures { (s : Switch) (entry : ℕ → ℕ → ℕ → ℕ → ℕ) (p : Prices) (queries : List TypedQuery) (entries : List Entry) → HaveRisingNumbers s queries →
        Fits queries s entries → shown_least s entry p queries ≤ plan_cost s entry 0 queries entries }
{
    fitting_plans_are_named();
}
