//! Where the nodes of a tree come from.
ghost use Rattle.std.specs.Prelude.{◌≡◌, List, IfOk};
ghost use Rattle.sn_tree_space.specs.declared.node.Node.{Node};
ghost use Rattle.sn_tree.specs.Sources.{with_next};

use sn_base::memory::Memory;
use sn_tree_space::node::Node;
use std::marker::Model;

/// The nodes of a tree in preorder, which are taken one after another.
pub trait Nodes {
    /// The nodes that are left.
    ghost left: { Self → List Node };

    /// Takes the next node. `None` where none is left.
    ///
    /// # Errors
    /// `Memory` where memory runs out.
    fn next(&mut self) -> Result<Option<Node>, Memory>
        ensures { IfOk result (λ found. left self.old ≡ with_next found (left self.new)) };
}

/// The nodes of a list that are left.
#[derive(Drop)]
pub struct Listed<'a> {
    rest: &'a [Node],
}

impl<'a> Model for Listed<'a> {
    ghost Value = { List Node };

    ghost view = { λ nodes. nodes.rest.now };
}

impl<'a> Listed<'a> {
    /// All nodes of a list.
    pub fn new(tree: &'a [Node]) -> Listed<'a>
        ensures { result ≡ tree.entry.now }
    {
        Listed { rest: tree }
    }
}

impl<'a> Nodes for Listed<'a> {
    ghost left = { λ nodes. nodes };

    fn next(&mut self) -> Result<Option<Node>, Memory> {
        match self.rest.split_first() {
            Some((node, after)) => {
                self.rest = after;
                Ok(Some(*node))
            }
            None => Ok(None),
        }
    }
}
