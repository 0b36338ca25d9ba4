//! A law of cost tables that are made of training windows, with nothing to run.
ghost use Rattle.std.specs.Prelude.{ℕ, List};
ghost use Rattle.sn_tree.specs.Alike.{AreAlike};
ghost use Rattle.sn_plan_choices.specs.Costs.{entry_in};
ghost use Rattle.sn_plan_choices.specs.declared.costs.CostTable.{CostTable};
ghost use Rattle.sn_plan_space.specs.Reading.{plan_space};
ghost use Rattle.sn_cost_laws.specs.Priced.{AreCounted};
ghost use Rattle.sn_cost_laws.specs.Space.{trained_plans};
ghost use Rattle.sn_windows.specs.Rising.{Window};
ghost use Rattle.sn_switch.specs.declared.switch.Switch.{Switch};
ghost use Rattle.sn_types.specs.declared.typed_query.TypedQuery.{TypedQuery};

/// The space of plans by a table whose entries count these windows is alike to that of the plans with what each costs over them: it has the same
/// partial plans, and of each the same choices, the same verdict whether it is broken, and the same lower bound.
pub fn counted_tables_price_plans()
    ensures { (s : Switch) (queries : List TypedQuery) (given : List Window) (table : CostTable) → AreCounted s queries given (entry_in table) →
        AreAlike (plan_space queries s table) (trained_plans s queries given) }
{}
