//! Trees of bounds.

use sn_base::seq::Seq;
use sn_tree_space::node::Node;

/// A tree of bounds: its nodes in preorder.
pub type Tree = Seq<Node>;
