//! What the search answers with ample budgets and small ones.
use crate::two_queries::{TwoQueries, plan};
use sn_search::best::best;
use sn_search::fault::SearchFault;
use sn_tree_space::node::Node::{Bound, Broken, Chosen, Expand};

#[test]
fn finds_the_first_least_plan_and_its_tree(rt: HostRuntime) {
    for nodes in [6, 7, u64::MAX] {
        match best(rt.alloc(), &TwoQueries, nodes) {
            Err(_) => assert!(rt; false),
            Ok(found) => {
                assert_eq!(rt; found.plan.as_slice(), plan().as_slice());
                assert_eq!(rt;
                    found.tree.as_slice(),
                    [
                        Expand(4),
                        Expand(4),
                        Bound(8),
                        Bound(8),
                        Expand(4),
                        Expand(4),
                        Expand(4),
                        Chosen(6),
                        Bound(6),
                        Expand(4),
                        Broken
                    ]
                    .as_slice()
                );
            }
        }
    }
}

#[test]
fn names_the_bound_of_a_small_budget(rt: HostRuntime) {
    for nodes in [1, 5] {
        match best(rt.alloc(), &TwoQueries, nodes) {
            Err(fault) => assert_eq!(rt; fault, SearchFault::Budget(4)),
            Ok(_) => assert!(rt; false),
        }
    }
}
