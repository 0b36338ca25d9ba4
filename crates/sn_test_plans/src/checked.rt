//! Trees that are accepted, and trees with one fault each.
use crate::two_queries::{TwoQueries, plan};
use sn_tree::check::check_tree;
use sn_tree::fault::TreeFault;
use sn_tree_space::node::Node;
use sn_tree_space::node::Node::{Bound, Broken, Chosen, Expand};

/// The nodes before that of the plan.
const FRONT: [Node; 7] = [
    Expand(4),
    Expand(4),
    Bound(8),
    Bound(8),
    Expand(4),
    Expand(4),
    Expand(4),
];

fn fault(rt: &HostRuntime, cost: u64, tree: &[Node]) -> Option<TreeFault> {
    check_tree(rt.alloc(), &TwoQueries, &plan(), cost, tree).err()
}

/// The fault of a tree that ends so, after the nodes before the plan's.
fn fault_after(rt: &HostRuntime, cost: u64, back: &[Node]) -> Option<TreeFault> {
    let mut tree = Vec::new(rt.alloc());
    if tree.extend_from_slice(&FRONT).is_err() || tree.extend_from_slice(back).is_err() {
        return Some(TreeFault::Memory);
    }
    fault(rt, cost, tree.as_slice())
}

#[test]
fn accepts_the_tree_of_the_plan(rt: HostRuntime) {
    let back = [Chosen(6), Bound(6), Expand(4), Broken];
    assert_eq!(rt; fault_after(&rt, 6, &back), None);
}

#[test]
fn accepts_other_trees_that_cover_all(rt: HostRuntime) {
    // The options of the second query after the first option of the first one, where a bound would do.
    let tree = [
        Expand(4),
        Expand(4),
        Expand(8),
        Expand(8),
        Bound(10),
        Bound(10),
        Bound(8),
        Bound(8),
        Expand(4),
        Expand(4),
        Expand(4),
        Chosen(6),
        Bound(6),
        Expand(4),
        Broken,
    ];
    assert_eq!(rt; fault(&rt, 6, &tree), None);
}

#[test]
fn looks_at_the_cost_first(rt: HostRuntime) {
    let want = TreeFault::Cost {
        node: 0,
        want: 6,
        got: 7,
    };
    let back = [Chosen(6), Bound(6), Expand(4), Broken];
    assert_eq!(rt; fault_after(&rt, 7, &back), Some(want));
    assert_eq!(rt; fault(&rt, 7, &[]), Some(want));
}

#[test]
fn names_a_wrong_bound(rt: HostRuntime) {
    let wrong = |node, want, got| Some(TreeFault::Bound { node, want, got });
    let tree = [Expand(4), Expand(4), Bound(9), Bound(8)];
    assert_eq!(rt; fault(&rt, 6, &tree), wrong(2, 8, 9));
    // A bound that is right and below the cost.
    assert_eq!(rt; fault(&rt, 6, &[Expand(4), Bound(4)]), wrong(1, 6, 4));
    // The plan's node with another cost.
    assert_eq!(rt; fault_after(&rt, 6, &[Chosen(7)]), wrong(7, 6, 7));
    // A list that is broken, with its bound.
    let back = [Chosen(6), Bound(6), Expand(4), Bound(4)];
    assert_eq!(rt; fault_after(&rt, 6, &back), wrong(10, 6, 4));
}

#[test]
fn names_a_node_out_of_place(rt: HostRuntime) {
    let misplaced = |node| {
        Some(TreeFault::Shape {
            node,
            want: 0,
            got: 0,
        })
    };
    assert_eq!(rt; fault(&rt, 6, &[]), misplaced(0));
    // The last child is missing.
    let back = [Chosen(6), Bound(6), Expand(4)];
    assert_eq!(rt; fault_after(&rt, 6, &back), misplaced(10));
    // One node too many.
    let back = [Chosen(6), Bound(6), Expand(4), Broken, Broken];
    assert_eq!(rt; fault_after(&rt, 6, &back), misplaced(11));
    // The plan is expanded.
    assert_eq!(rt; fault_after(&rt, 6, &[Expand(6)]), misplaced(7));
    // The plan's node stands elsewhere.
    assert_eq!(rt; fault(&rt, 6, &[Expand(4), Chosen(6)]), misplaced(1));
}

#[test]
fn names_a_list_that_is_not_broken(rt: HostRuntime) {
    let want = TreeFault::NotBroken {
        node: 9,
        want: 0,
        got: 0,
    };
    assert_eq!(rt;
        fault_after(&rt, 6, &[Chosen(6), Bound(6), Broken]),
        Some(want)
    );
}

#[test]
fn names_a_tree_without_the_plan(rt: HostRuntime) {
    let want = TreeFault::NoPlan {
        node: 11,
        want: 0,
        got: 0,
    };
    let back = [Bound(6), Bound(6), Expand(4), Broken];
    assert_eq!(rt; fault_after(&rt, 6, &back), Some(want));
}
