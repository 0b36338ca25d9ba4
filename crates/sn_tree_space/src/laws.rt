//! Laws of spaces of plans, with nothing to run.
ghost use Rattle.std.specs.Prelude.{◌≡◌, ◌≤◌, ℕ, List};
ghost use Rattle.sn_tree_space.specs.declared.node.Node.{Node};
ghost use Rattle.sn_tree_space.specs.Space.{Space, SpaceLaws, IsPlan, IsFirstLeast};
ghost use Rattle.sn_tree_space.specs.Trees.{IsAccepted, tree_of};

/// Where a tree is accepted for a plan, no plan of the space costs less.
pub fn accepted_trees_show_least()
    ensures { (s : Space) (p : List ℕ) (nodes : List Node) → SpaceLaws s → IsPlan s p → IsAccepted s p nodes → (r : List ℕ) → IsPlan s r →
        s.lower p ≤ s.lower r }
{}

/// The tree of the first least plan is accepted for it.
pub fn plan_trees_are_accepted()
    ensures { (s : Space) (p : List ℕ) → SpaceLaws s → IsFirstLeast s p → IsAccepted s p (tree_of s p) }
{}

/// A space has a first least plan.
pub fn some_plan_is_first_least()
    ensures { (s : Space) → SpaceLaws s → (p : List ℕ) × IsFirstLeast s p }
{}
