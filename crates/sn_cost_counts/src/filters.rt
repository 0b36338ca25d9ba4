//! Filters of the rows for each list of sizes.
ghost use Rattle.std.specs.Prelude.{◌≡◌, All, map, OnOk};
ghost use Rattle.sn_cost_counts.specs.Flows.{stepped};
ghost use Rattle.sn_ops.specs.Flow.{CondsFit};
ghost use Rattle.sn_types.specs.Values.{op_at};
ghost use Rattle.sn_types.specs.declared.typed_op.TOp.{TOp};

use crate::flow::FlowOf;
use sn_base::any_row::AnyRow;
use sn_base::memory::Memory;
use sn_ops::select::filter;
use sn_types::typed_op::TCond;
use std::alloc::Global;

/// Takes rows through a filter, unless they stay whole.
fn filter_one<R: AnyRow>(
    alloc: Global,
    conds: &[TCond],
    level: u32,
    flow: &mut FlowOf<R>,
) -> Result<(), Memory>
    requires { CondsFit conds.now flow.old.rows }
    ensures { OnOk result (flow.new ≡ stepped 0 0 (op_at level (TOp.Filter conds.now)) flow.old) }
{
    if !flow.whole {
        flow.rows = filter(alloc, &flow.rows, conds, level)?;
    }
    Ok(())
}

/// Takes each of these through a filter.
pub(crate) fn filter_each<R: AnyRow>(
    alloc: Global,
    conds: &[TCond],
    level: u32,
    flows: &mut [FlowOf<R>],
) -> Result<(), Memory>
    requires { All (λ f. CondsFit conds.now f.rows) flows.old }
    ensures { OnOk result (flows.new ≡ map (stepped 0 0 (op_at level (TOp.Filter conds.now))) flows.old) }
{
    for flow in flows.iter_mut() {
        filter_one(alloc, conds, level, flow)?;
    }
    Ok(())
}
