//! The cheapest plan of a space, and the test of somebody else's.
ghost use Rattle.std.specs.Prelude.{◌≤◌, List, ℕ, IsTrue, IfOk};
ghost use Rattle.sn_tree_space.specs.Space.{IsPlan};

use sn_search::best::best;
use sn_search::fault::SearchFault;
use sn_tree::check::check_tree;
use sn_tree_space::node::Node;
use sn_tree_space::plans::Plans;
use std::alloc::Global;

/// What the cheapest plan of a space costs, where a search that expands at most `nodes` nodes finds it.
pub fn least_cost<S: Plans>(alloc: Global, space: &S, nodes: u64) -> Result<u64, SearchFault>
    ensures least { IfOk result (λ cost. (r : List ℕ) → IsPlan (S.space space.now) r → cost ≤ (S.space space.now).lower r) }
{
    match best(alloc, space, nodes) {
        Ok(found) => Ok(space.lower(found.plan.as_slice())),
        Err(fault) => Err(fault),
    }
}

/// Whether a tree, whoever made it, shows that no plan of the space costs less than this one.
pub fn is_shown<S: Plans>(alloc: Global, space: &S, plan: &[u32], cost: u64, tree: &[Node]) -> bool
    requires { IsPlan (S.space space.now) plan.now }
    ensures { IsTrue result → (r : List ℕ) → IsPlan (S.space space.now) r → cost ≤ (S.space space.now).lower r }
{
    check_tree(alloc, space, plan, cost, tree).is_ok()
}
