//! Texts of trees that are accepted, and texts with one fault each.
use crate::two_queries::{TwoQueries, plan};
use sn_base::memory::Memory;
use sn_base::seq::Seq;
use sn_tree::check::check_nodes;
use sn_tree::fault::TreeFault;
use sn_tree::source::Nodes;
use sn_tree_space::node::Node;
use sn_tree_text::fault::TextFault;
use sn_tree_text::found::Found;
use sn_tree_text::tree::Tree;
use sn_tree_text::{parse, print};

/// A plan, its cost and its tree.
const WHOLE: &[u8] =
    b"plan\nquery a path 0;\npiece 0 0 cut 2 slots 1 stages 1;\nquery b path 0;\npiece 0 0 cut 0;\ncost 6;\ntree\nE 4\nE 4\nB 8\nB 8\nE 4\nE 4\nE 4\nP 6\nB 6\nE 4\nX\ndone\n";

/// The byte where the word `cost` stands in it.
const COST: u64 = 88;

/// The lines of the tree.
const LINES: &[u8] = b"E 4\nE 4\nB 8\nB 8\nE 4\nE 4\nE 4\nP 6\nB 6\nE 4\nX\n";

fn fault(text: &[u8], from: u64) -> Option<TextFault> {
    if text.len() > 1000 {
        return None;
    }
    parse(text, from).err()
}

/// The nodes of a text, the first twenty at most, and the number that it says there are.
fn nodes_of(rt: &HostRuntime, found: &Found<'_>) -> Result<(Tree, u64), Memory> {
    let mut tree = Seq::new(rt.alloc());
    let mut nodes = found.nodes();
    for _ in 0..20 {
        if let Some(node) = nodes.next()? {
            tree.push(node)?;
        }
    }
    Ok((tree, found.count()))
}

#[test]
fn reads_and_prints_a_tree(rt: HostRuntime) {
    match parse(WHOLE, COST) {
        Err(_) => assert!(rt; false),
        Ok(found) => {
            assert_eq!(rt; found.cost(), 6);
            let (tree, count) = nodes_of(&rt, &found).expect(&rt, "ample memory");
            assert_eq!(rt; count, 11);
            assert_eq!(rt;
                tree.as_slice(),
                [
                    Node::Expand(4),
                    Node::Expand(4),
                    Node::Bound(8),
                    Node::Bound(8),
                    Node::Expand(4),
                    Node::Expand(4),
                    Node::Expand(4),
                    Node::Chosen(6),
                    Node::Bound(6),
                    Node::Expand(4),
                    Node::Broken
                ]
                .as_slice()
            );
            match print(rt.alloc(), &tree) {
                Err(_) => assert!(rt; false),
                Ok(lines) => assert_eq!(rt; lines.as_slice(), LINES),
            }
        }
    }
}

/// The fault of the cost and the tree of a text for the plan of the worked example, where it is read.
fn tree_fault(rt: &HostRuntime, text: &[u8]) -> Option<Result<(), TreeFault>> {
    if text.len() > 1000 {
        return None;
    }
    let found = parse(text, 0).ok()?;
    let mut nodes = found.nodes();
    Some(check_nodes(rt.alloc(), &TwoQueries, &plan(), found.cost(), &mut nodes))
}

#[test]
fn checks_a_tree_in_its_text(rt: HostRuntime) {
    let shown = b"cost 6; tree E 4 E 4 B 8 B 8 E 4 E 4 E 4 P 6 B 6 E 4 X done";
    assert_eq!(rt; tree_fault(&rt, shown), Some(Ok(())));
    let costly = b"cost 7; tree E 4 E 4 B 8 B 8 E 4 E 4 E 4 P 6 B 6 E 4 X done";
    let want = TreeFault::Cost {
        node: 0,
        want: 6,
        got: 7,
    };
    assert_eq!(rt; tree_fault(&rt, costly), Some(Err(want)));
    let short = b"cost 6; tree E 4 E 4 B 8 B 8 E 4 E 4 E 4 P 6 B 6 E 4 done";
    let want = TreeFault::Shape {
        node: 10,
        want: 0,
        got: 0,
    };
    assert_eq!(rt; tree_fault(&rt, short), Some(Err(want)));
    let without = b"cost 6; tree E 4 E 4 B 8 B 8 E 4 E 4 E 4 B 6 B 6 E 4 X done";
    let want = TreeFault::NoPlan {
        node: 11,
        want: 0,
        got: 0,
    };
    assert_eq!(rt; tree_fault(&rt, without), Some(Err(want)));
}

#[test]
fn reads_other_layouts(rt: HostRuntime) {
    for text in [
        b"cost 6;tree P 6 done".as_slice(),
        b"# front\n cost 0x6 ; tree # a comment\r\n\tP 006 done # after it",
        b"cost 6;\ntree\nP 6\ndone\n#",
    ] {
        match parse(text, 0) {
            Err(_) => assert!(rt; false),
            Ok(found) => {
                assert_eq!(rt; found.cost(), 6);
                let (tree, count) = nodes_of(&rt, &found).expect(&rt, "ample memory");
                assert_eq!(rt; count, 1);
                assert_eq!(rt; tree.as_slice(), [Node::Chosen(6)].as_slice());
            }
        }
    }
}

#[test]
fn reads_a_tree_without_nodes_and_the_greatest_number(rt: HostRuntime) {
    match parse(b"cost 18446744073709551615; tree done", 0) {
        Err(_) => assert!(rt; false),
        Ok(found) => {
            assert_eq!(rt; found.cost(), u64::MAX);
            let (tree, count) = nodes_of(&rt, &found).expect(&rt, "ample memory");
            assert_eq!(rt; count, 0);
            assert_eq!(rt; tree.as_slice().len(), 0);
        }
    }
}

#[test]
fn names_the_first_fault_of_a_tree(rt: HostRuntime) {
    for (text, want) in [
        (b"".as_slice(), TextFault::Expected { line: 1 }),
        (b"\n\n", TextFault::Expected { line: 3 }),
        (b"Cost 6;", TextFault::Expected { line: 1 }),
        (b"cost\n;", TextFault::Expected { line: 2 }),
        (b"cost 18446744073709551616;", TextFault::Lex { line: 1 }),
        (b"cost 6\ntree", TextFault::Expected { line: 2 }),
        (b"cost 6;\nE 4", TextFault::Expected { line: 2 }),
        (b"cost 6;", TextFault::Expected { line: 1 }),
        (b"cost 6; tree\nE", TextFault::Expected { line: 2 }),
        (b"cost 6; tree\nE X", TextFault::Expected { line: 2 }),
        (b"cost 6; tree X\n4", TextFault::Expected { line: 2 }),
        (b"cost 6; tree P 6\nD 4", TextFault::Expected { line: 2 }),
        (b"cost 6; tree P 6\ne 4", TextFault::Expected { line: 2 }),
        (b"cost 6; tree P 6\n@", TextFault::Lex { line: 2 }),
        (b"cost 6; tree P 6", TextFault::Expected { line: 1 }),
        (b"cost 6; tree done\ndone", TextFault::Expected { line: 2 }),
        (b"cost 6; tree done;", TextFault::Expected { line: 1 }),
        (b"cost 6; tree done\n!", TextFault::Lex { line: 2 }),
    ] {
        assert_eq!(rt; fault(text, 0), Some(want));
    }
}

#[test]
fn counts_the_lines_of_the_whole_text(rt: HostRuntime) {
    // A plan without a cost: its end is the fault.
    let plan = b"plan\nquery b path 0;\npiece 0 0 cut 0;\n";
    assert_eq!(rt; fault(plan, 38), Some(TextFault::Expected { line: 4 }));
    // Without the word `tree` and all after it.
    let cost = b"plan\nquery b path 0;\npiece 0 0 cut 0;\ncost 6;\n";
    assert_eq!(rt; fault(cost, 38), Some(TextFault::Expected { line: 5 }));
    // What stands before the byte isn't looked at.
    assert_eq!(rt; fault(b"; ;\n;cost 6;\ntree done", 5), None);
}
