//! The search over the plans of queries on a switch, by what they cost over training windows.
ghost use Rattle.std.specs.Prelude.{◌≡◌, ◌≤◌, IfOk, length};
ghost use Rattle.sn_command_search.specs.Certificates.{SearchedIn};
ghost use Rattle.sn_cost.specs.Entries.{trained};
ghost use Rattle.sn_plan_fit.specs.Fits.{Fits};
ghost use Rattle.sn_command.specs.Runs.{Answers};
ghost use Rattle.sn_switch.specs.Texts.{IsSwitch};
ghost use Rattle.sn_windows.specs.Blocks.{most_records};

use crate::certificate::Certificate;
use sn_base::seq::Seq;
use sn_command::fault::{Fault, Spent};
use sn_command::refusal::Refusal;
use sn_cost::build::build;
use sn_cost_training::training::Training;
use sn_plan_lists::naming::plan_of;
use sn_plan_space::planning::Planning;
use sn_search::best::best;
use sn_search::fault::SearchFault;
use sn_switch::switch::Switch;
use sn_tree_space::plans::Plans;
use sn_types::typed::Typed;
use std::alloc::Global;

/// The first of the plans of typed queries that fit a switch and cost least over training windows, with its tree. At most this many nodes of the tree are
/// expanded. In all there are no more tuples than a window may have records.
///
/// # Errors
/// Out of memory, or `Budget` exactly where more nodes of that tree would have to be expanded.
pub fn search(
    alloc: Global,
    t: &Typed,
    s: &Switch,
    training: &Training,
    nodes: u32,
) -> Result<Certificate, Refusal>
    requires switch { IsSwitch s.now }
    requires few { length training.now.numbers ≤ most_records }
    ensures searched { Answers (SearchedIn s.now t.now.queries (trained training.now.numbers training.now.tuples) nodes) result }
    ensures fits { IfOk result (λ c. Fits t.now.queries s.now c.plan.entries) }
{
    let table = build(t, s, training)?;
    let planning = Planning::make(t, s, &table)?;
    let found = match best(alloc, &planning, u64::from(nodes)) {
        Ok(found) => found,
        Err(SearchFault::Budget(bound)) => {
            return Err(Refusal::Refused(Fault::Budget(Spent { nodes, bound })));
        }
        Err(SearchFault::Memory) => return Err(Refusal::Memory),
    };
    let cost = planning.lower(found.plan.as_slice());
    let plan = plan_of(t, s, found.plan.as_slice())?;
    Ok(Certificate {
        plan,
        cost,
        choices: Seq::from_vec(found.plan),
        tree: Seq::from_vec(found.tree),
    })
}
