//! Laws of costs and items, with nothing to run.
ghost use Rattle.std.specs.Prelude.{◌≡◌, ℕ, List};
ghost use Rattle.sn_plan_lists.specs.Costs.{plan_cost};
ghost use Rattle.sn_plan_lists.specs.Theorems.{HaveRisingNumbers};
ghost use Rattle.sn_plan_fit.specs.Fits.{Fits};
ghost use Rattle.sn_cost_laws.specs.Sent.{cost_over, sent_over};
ghost use Rattle.sn_plan_grammar.specs.declared.plan.Entry.{Entry};
ghost use Rattle.sn_cost_laws.specs.Priced.{AreCounted};
ghost use Rattle.sn_cost_laws.specs.Space.{trained_entry};
ghost use Rattle.sn_windows.specs.Rising.{Window};
ghost use Rattle.sn_switch.specs.declared.switch.Switch.{Switch};
ghost use Rattle.sn_types.specs.declared.typed_query.TypedQuery.{TypedQuery};

/// By a table whose entries count training windows, a plan that fits costs as many items as all its pieces send in these windows, and the
/// switch's weight for each prefix that is installed. Where the weight is 0, it costs the number of items that are sent.
pub fn costs_are_items_sent()
    ensures counted { (s : Switch) (queries : List TypedQuery) (given : List Window) (entry : ℕ → ℕ → ℕ → ℕ → ℕ) (entries : List Entry) →
        HaveRisingNumbers s queries →
        AreCounted s queries given entry → Fits queries s entries → plan_cost s entry 0 queries entries ≡ cost_over s queries entries given }
    ensures trained { (s : Switch) (queries : List TypedQuery) (given : List Window) (entries : List Entry) → HaveRisingNumbers s queries →
        Fits queries s entries →
        plan_cost s (trained_entry s queries given) 0 queries entries ≡ cost_over s queries entries given }
    ensures unweighted { (s : Switch) (queries : List TypedQuery) (given : List Window) (entries : List Entry) → s.weight ≡ 0 →
        cost_over s queries entries given ≡ sent_over s queries entries given }
{}
