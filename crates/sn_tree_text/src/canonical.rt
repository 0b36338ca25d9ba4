//! The canonical text of a tree.
ghost use Rattle.std.specs.Prelude.{◌≡◌, ℕ, ◌++◌, ◌<◌, ◌^◌, codes, IfOk, OnOk};
ghost use Rattle.std.specs.List.{AllByRecursion};
ghost use Rattle.std.specs.Fmt.{decimal};
ghost use Rattle.sn_text.specs.Cutting.{tokens_of};
ghost use Rattle.sn_tree_text.specs.Texts.{StandsFor};
ghost use Rattle.sn_tree_text.specs.Printing.{node_text, nodes_text, tree_text, IsSmall};

use crate::tree::Tree;
use sn_base::bytes::push_bytes;
use sn_base::memory::Memory;
use sn_base::seq::Seq;
use sn_tree_space::node::Node;
use std::alloc::Global;

/// Writes a line of a letter and a number.
fn put_line(alloc: Global, out: &mut Vec<u8>, letter: &[u8], number: u64) -> Result<(), Memory>
    ensures { OnOk result (out.new.items ≡ out.old.items ++ (letter.now ++ decimal number ++ codes "\n")) }
{
    push_bytes(out, letter)?;
    let Ok(digits) = number.to_string(alloc) else {
        return Err(Memory);
    };
    push_bytes(out, digits.as_bytes())?;
    push_bytes(out, b"\n")
}

fn put_node(alloc: Global, out: &mut Vec<u8>, node: Node) -> Result<(), Memory>
    ensures line { OnOk result (out.new.items ≡ out.old.items ++ node_text node) }
    ensures small { IsSmall node }
{
    match node {
        Node::Expand(bound) => put_line(alloc, out, b"E ", bound),
        Node::Bound(bound) => put_line(alloc, out, b"B ", bound),
        Node::Broken => push_bytes(out, b"X\n"),
        Node::Chosen(cost) => put_line(alloc, out, b"P ", cost),
    }
}

fn put_nodes(alloc: Global, out: &mut Vec<u8>, nodes: &[Node]) -> Result<(), Memory>
    ensures lines { OnOk result (out.new.items ≡ out.old.items ++ nodes_text nodes.now) }
    ensures small { OnOk result (AllByRecursion IsSmall nodes.now) }
{
    for node in nodes {
        put_node(alloc, out, *node)?;
    }
    Ok(())
}

/// The lines of a tree: one for each node, and nothing around them.
///
/// # Errors
/// `Memory` where memory runs out.
pub fn print(alloc: Global, tree: &Tree) -> Result<Seq<u8>, Memory>
    ensures text { IfOk result (λ lines. lines ≡ nodes_text tree.now) }
    // With any cost before them and `done` after them the lines stand for that cost and this tree.
    ensures again { IfOk result (λ lines. (cost : ℕ) → cost < 2 ^ 64 → StandsFor (tokens_of (tree_text cost lines)) cost tree.now) }
{
    let mut out = Vec::new(alloc);
    put_nodes(alloc, &mut out, tree.as_slice())?;
    Ok(Seq::from_vec(out))
}
