//! Laws of spaces that are alike, with nothing to run.
ghost use Rattle.std.specs.Prelude.{◌≡◌, ℕ, List};
ghost use Rattle.sn_tree.specs.Alike.{AreAlike};
ghost use Rattle.sn_tree_space.specs.declared.node.Node.{Node};
ghost use Rattle.sn_tree_space.specs.Searches.{IsBudgetBound};
ghost use Rattle.sn_tree_space.specs.Space.{IsFirstLeast, IsPartial, IsPlan, Space};
ghost use Rattle.sn_tree_space.specs.Trees.{IsAccepted, tree_of};
ghost use Rattle.sn_tree.specs.Faults.{tree_fault};

/// Spaces that are alike are so the other way round too.
pub fn alike_both_ways()
    ensures { (a b : Space) → AreAlike a b → AreAlike b a }
{}

/// What is a plan of one is a plan of the other, and it costs the same.
pub fn plans_are_the_same()
    ensures plan { (a b : Space) → AreAlike a b → (r : List ℕ) → IsPlan a r → IsPlan b r }
    ensures cost { (a b : Space) → AreAlike a b → (r : List ℕ) → IsPlan a r → a.lower r ≡ b.lower r }
{}

/// They have the same first plan of least cost, and the same number for a budget of nodes.
pub fn least_plans_are_the_same()
    ensures plan { (a b : Space) → AreAlike a b → (p : List ℕ) → IsFirstLeast a p → IsFirstLeast b p }
    ensures budget { (a b : Space) → AreAlike a b → (nodes bound : ℕ) → IsBudgetBound a nodes bound → IsBudgetBound b nodes bound }
{}

/// They give a partial plan the same tree, accept the same trees for it, and find the same first fault.
pub fn trees_are_the_same()
    ensures tree { (a b : Space) → AreAlike a b → (p : List ℕ) → IsPartial a p → tree_of a p ≡ tree_of b p }
    ensures accepted { (a b : Space) → AreAlike a b → (p : List ℕ) → IsPartial a p → (nodes : List Node) → IsAccepted a p nodes → IsAccepted b p nodes }
    ensures fault { (a b : Space) → AreAlike a b → (p : List ℕ) → IsPartial a p → (cost : ℕ) (nodes : List Node) →
        tree_fault a p cost nodes ≡ tree_fault b p cost nodes }
{}
