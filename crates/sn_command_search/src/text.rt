//! The text of a certificate.
ghost use Rattle.std.specs.Prelude.{◌≡◌, ◌++◌, codes, IfOk, OnOk};
ghost use Rattle.sn_command_search.specs.Certificates.{certificate_text};
ghost use Rattle.sn_tree_text.specs.Printing.{nodes_text, tree_text};

use crate::certificate::Certificate;
use sn_base::bytes::push_bytes;
use sn_base::memory::Memory;
use sn_base::seq::Seq;
use sn_out::pieces::push_number;
use sn_plan::print as print_plan;
use sn_tree_text::print as print_tree;
use sn_tree_text::tree::Tree;
use std::alloc::Global;

/// Writes a cost, and a tree with a line for each node.
fn push_tree(alloc: Global, out: &mut Vec<u8>, cost: u64, tree: &Tree) -> Result<(), Memory>
    ensures { OnOk result (out.new.items ≡ out.old.items ++ tree_text cost (nodes_text tree.now)) }
{
    let lines = print_tree(alloc, tree)?;
    push_bytes(out, b"cost ")?;
    push_number(out, cost)?;
    push_bytes(out, b";\ntree\n")?;
    push_bytes(out, lines.as_slice())?;
    push_bytes(out, b"done\n")
}

/// The text of a certificate: the plan, its cost, and the tree with a line for each node.
///
/// # Errors
/// Out of memory.
pub fn certificate_text(alloc: Global, certificate: &Certificate) -> Result<Seq<u8>, Memory>
    ensures { IfOk result (λ text. text ≡ certificate_text certificate.now) }
{
    let mut out = print_plan(alloc, &certificate.plan)?.into_vec();
    push_tree(alloc, &mut out, certificate.cost, &certificate.tree)?;
    Ok(Seq::from_vec(out))
}
