//! Laws of plans and their choices, with nothing to run.
ghost use Rattle.std.specs.Prelude.{◌≤◌, ℕ, List};
ghost use Rattle.sn_plan_grammar.specs.declared.plan.Entry.{Entry};
ghost use Rattle.sn_switch.specs.declared.switch.Switch.{Switch};
ghost use Rattle.sn_types.specs.declared.typed_query.TypedQuery.{TypedQuery};
ghost use Rattle.sn_switch.specs.Texts.{IsSwitch};
ghost use Rattle.sn_types.specs.Typed.{IsTyped};
ghost use Rattle.sn_plan_fit.specs.Fits.{Fits};
ghost use Rattle.sn_tree_space.specs.Space.{IsPlan, IsFirstLeast};
ghost use Rattle.sn_plan_lists.specs.Chosen.{plan_at};
ghost use Rattle.sn_plan_lists.specs.Costs.{plan_cost};
ghost use Rattle.sn_plan_lists.specs.Theorems.{plans_of, NamesPlan, IsNamed, HaveRisingNumbers};

use sn_plan_fit::laws::gaps_decide_placing;

/// Each complete list of choices that isn't broken names a plan that fits. The list is the one of that plan's choices, and its bound is the plan's cost.
pub fn lists_name_fitting_plans()
    ensures { (s : Switch) (entry : ℕ → ℕ → ℕ → ℕ → ℕ) (queries : List TypedQuery) (r : List ℕ) → HaveRisingNumbers s queries →
        IsPlan (plans_of s entry queries) r → NamesPlan s entry queries r }
{
    gaps_decide_placing();
}

/// Each plan that fits is named by exactly one such list, that of its choices.
pub fn fitting_plans_are_named()
    ensures { (s : Switch) (entry : ℕ → ℕ → ℕ → ℕ → ℕ) (queries : List TypedQuery) (entries : List Entry) → HaveRisingNumbers s queries →
        Fits queries s entries → IsNamed s entry queries entries }
{
    gaps_decide_placing();
}

/// The queries of a typed file and a switch that a text can stand for are such queries and such a switch.
#[tactic(auto, using(crate::proofs::TypedBounds::all_rising))]
pub fn typed_queries_and_switches_rise()
    ensures { (s : Switch) (window : ℕ) (queries : List TypedQuery) → ∥ IsTyped window queries ∥₁ → IsSwitch s → HaveRisingNumbers s queries }
{}

/// No plan that fits costs less than the plan of a first least list of choices.
pub fn least_lists_name_cheapest_plans()
    ensures { (s : Switch) (entry : ℕ → ℕ → ℕ → ℕ → ℕ) (queries : List TypedQuery) (r : List ℕ) (entries : List Entry) → HaveRisingNumbers s queries →
        IsFirstLeast (plans_of s entry queries) r →
        Fits queries s entries → plan_cost s entry 0 queries (plan_at s queries r) ≤ plan_cost s entry 0 queries entries }
{
    gaps_decide_placing();
}
