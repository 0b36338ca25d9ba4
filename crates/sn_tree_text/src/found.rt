//! A cost and a tree that were found in a text.
ghost use Rattle.std.specs.Prelude.{◌≡◌, ◌<◌, ◌^◌, ℕ, List, length};
ghost use Rattle.sn_text.specs.Lexing.{left};
ghost use Rattle.sn_tree_space.specs.declared.node.Node.{Node};
ghost use Rattle.sn_tree_text.specs.Fronts.{nodes_of};

use crate::nodes::node;
use sn_base::memory::Memory;
use sn_text::place::Lexer;
use sn_text::stop::Stop;
use sn_tree::source::Nodes;
use sn_tree_space::node::Node;
use std::marker::Model;

/// A cost and a tree that were found in a text. The nodes stay there: they are read again where they are wanted, so no list of them is held.
#[derive(Drop)]
pub struct Found<'a> {
    pub(crate) cost: u64,
    pub(crate) count: u64,
    pub(crate) first: Lexer<'a>,
}

impl<'a> Model for Found<'a> {
    ghost Value = { ℕ × List Node };

    ghost view = { λ found. (found.cost, nodes_of (left found.first)) };

    ghost invariant = { λ found. found.count ≡ length (nodes_of (left found.first)) };
}

impl<'a> Found<'a> {
    /// The cost.
    pub fn cost(&self) -> u64
        ensures { result ≡ self.now.0 }
    {
        self.cost
    }

    /// The number of the nodes.
    pub fn count(&self) -> u64
        ensures { result ≡ length self.now.1 }
    {
        self.count
    }

    /// The nodes, from the first one on.
    pub fn nodes(&self) -> Placed<'a>
        ensures all { result ≡ self.now.1 }
        ensures few { length self.now.1 < 2 ^ 64 }
    {
        // Reading it says that the count, and so the number of nodes, has 64 bits.
        let _count = self.count;
        Placed { rest: self.first }
    }
}

/// The nodes of a text that are left.
#[derive(Drop)]
pub struct Placed<'a> {
    rest: Lexer<'a>,
}

impl<'a> Model for Placed<'a> {
    ghost Value = { List Node };

    ghost view = { λ nodes. nodes_of (left nodes.rest) };
}

impl<'a> Nodes for Placed<'a> {
    ghost left = { λ nodes. nodes };

    #[tactic(auto, using(crate::proofs::Fronts::one_more, crate::proofs::Fronts::none_more))]
    fn next(&mut self) -> Result<Option<Node>, Memory> {
        match node(self.rest) {
            Ok((node, after)) => {
                self.rest = after;
                Ok(Some(node))
            }
            Err(Stop::NoMemory) => Err(Memory),
            Err(Stop::Fault(_, _)) => Ok(None),
        }
    }
}
