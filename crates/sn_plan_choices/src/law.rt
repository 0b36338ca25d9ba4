//! A law of planning, with nothing to run.
ghost use Rattle.std.specs.Prelude.{ℕ, List};
ghost use Rattle.sn_switch.specs.declared.switch.Switch.{Switch};
ghost use Rattle.sn_types.specs.declared.typed_query.TypedQuery.{TypedQuery};
ghost use Rattle.sn_tree_space.specs.Space.{SpaceLaws};
ghost use Rattle.sn_tree_space.specs.Agendas.{agenda_space};
ghost use Rattle.sn_plan_choices.specs.Planning.{first_tasks, planning};

/// The plans of queries on a switch are a space, whatever the entries of the cost table: no choice lowers the bound or mends a broken list, and
/// each query at its finest level alone, with nothing in the switch, is a plan.
pub fn plans_are_a_space()
    ensures { (s : Switch) (entry : ℕ → ℕ → ℕ → ℕ → ℕ) (queries : List TypedQuery) → SpaceLaws (agenda_space (planning s entry) (first_tasks 0 queries)) }
{}
