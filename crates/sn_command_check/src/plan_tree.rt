//! A plan with a cost and a tree after it, in one text.
ghost use Rattle.std.specs.Prelude.{◌≡◌, ◌≤◌, ◌^◌, length};
ghost use Rattle.sn_command_check.specs.PlanTrees.{PlanBefore, TreeAfter, tree_text_refusal};
ghost use Rattle.sn_command.specs.Runs.{Answers};

use sn_command::fault::{Fault, TextFault, TextKind};
use sn_command::refusal::Refusal;
use sn_command_texts::texts::plan_refusal;
use sn_plan::parse as parse_plan;
use sn_plan_grammar::plan::Plan;
use sn_tree_text::fault::TextFault as TreeTextFault;
use sn_tree_text::found::Found;
use sn_tree_text::parse as parse_tree;
use std::alloc::Global;

/// The plan of a text, and the byte where the word `cost` or the end of the text stands after it.
pub(crate) fn judge_plan(alloc: Global, text: &[u8]) -> Result<(Plan, u64), Refusal>
    requires { length text.now ≤ 2 ^ 30 }
    ensures { Answers (PlanBefore text.now) result }
{
    match parse_plan(alloc, text) {
        Ok(found) => Ok(found),
        Err(fault) => Err(plan_refusal(fault)),
    }
}

fn tree_refusal(fault: TreeTextFault) -> Refusal
    ensures { result ≡ tree_text_refusal fault }
{
    let (kind, line) = match fault {
        TreeTextFault::Lex { line } => (TextKind::Lex, line),
        TreeTextFault::Expected { line } => (TextKind::Expected, line),
        TreeTextFault::Memory => return Refusal::Memory,
    };
    Refusal::Refused(Fault::Tree(TextFault { kind, line }))
}

/// The cost and the tree of a text, from this byte on. Lines are counted from the front of the text.
pub(crate) fn judge_tree<'a>(text: &'a [u8], from: u64) -> Result<Found<'a>, Refusal>
    requires { length text.now ≤ 2 ^ 30 }
    ensures { Answers (TreeAfter text.entry.now from) result }
{
    match parse_tree(text, from) {
        Ok(found) => Ok(found),
        Err(fault) => Err(tree_refusal(fault)),
    }
}
