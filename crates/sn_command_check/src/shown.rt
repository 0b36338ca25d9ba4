//! Whether a cost and a tree show that no plan costs less.
ghost use Rattle.std.specs.Prelude.{◌≡◌, ◌≤◌, length};
ghost use Rattle.sn_command_check.specs.Shown.{ShownFor, flaw_refusal};
ghost use Rattle.sn_cost.specs.Entries.{trained};
ghost use Rattle.sn_plan_fit.specs.Fits.{Fits};
ghost use Rattle.sn_command.specs.Runs.{Answers};
ghost use Rattle.sn_switch.specs.Texts.{IsSwitch};
ghost use Rattle.sn_windows.specs.Blocks.{most_records};

use sn_command::fault::{Fault, TreeFlaw, TreeKind};
use sn_command::refusal::Refusal;
use sn_cost::build::build;
use sn_cost_training::training::Training;
use sn_plan_grammar::plan::Plan;
use sn_plan_lists::choosing::choices_of;
use sn_plan_space::planning::Planning;
use sn_switch::switch::Switch;
use sn_tree::check::check_nodes;
use sn_tree::fault::TreeFault;
use sn_tree_text::found::Found;
use sn_types::typed::Typed;
use std::alloc::Global;

fn flaw_refusal(fault: TreeFault) -> Refusal
    ensures { result ≡ flaw_refusal fault }
{
    let (kind, node, want, got) = match fault {
        TreeFault::Cost { node, want, got } => (TreeKind::Cost, node, want, got),
        TreeFault::Shape { node, want, got } => (TreeKind::Shape, node, want, got),
        TreeFault::Bound { node, want, got } => (TreeKind::Bound, node, want, got),
        TreeFault::NotBroken { node, want, got } => (TreeKind::NotBroken, node, want, got),
        TreeFault::NoPlan { node, want, got } => (TreeKind::NoPlan, node, want, got),
        TreeFault::Memory => return Refusal::Memory,
    };
    Refusal::Refused(Fault::Unshown(TreeFlaw {
        kind,
        node,
        want,
        got,
    }))
}

/// Refuses a cost and a tree that don't show that no plan costs less than this one over training windows, for their first
/// fault. The nodes are taken from the text one by one.
pub(crate) fn test_tree(
    alloc: Global,
    t: &Typed,
    s: &Switch,
    training: &Training,
    plan: &Plan,
    tree: &Found<'_>,
) -> Result<(), Refusal>
    requires switch { IsSwitch s.now }
    requires few { length training.now.numbers ≤ most_records }
    requires fits { Fits t.now.queries s.now plan.now.entries }
    ensures { Answers (ShownFor s.now t.now.queries (trained training.now.numbers training.now.tuples) plan.now tree.now.0 tree.now.1) result }
{
    let table = build(t, s, training)?;
    let planning = Planning::make(t, s, &table)?;
    let choices = choices_of(t, s, plan)?;
    let mut nodes = tree.nodes();
    match check_nodes(
        alloc,
        &planning,
        choices.as_slice(),
        tree.cost(),
        &mut nodes,
    ) {
        Ok(()) => Ok(()),
        Err(fault) => Err(flaw_refusal(fault)),
    }
}
