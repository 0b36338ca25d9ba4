//! Whether the tables of a piece have a place in the stages of a switch.
ghost use Rattle.std.specs.Prelude.{◌≡◌, ◌≤◌, ◌^◌, List, ◌++◌, map, length, max, IfOk};
ghost use Rattle.sn_plan_fit.specs.Checks.{reported};
ghost use Rattle.sn_plan_fit.specs.Placing.{Table, register};
ghost use Rattle.sn_types.specs.Cuts.{is_stateful, stateful};
ghost use Rattle.sn_plan_fit.specs.Tables.{op_tables, order_misfit};
ghost use Rattle.sn_plan_fit.specs.Gaps.{least_after, goes_on, end_misfit};

use crate::misfit::{Misfit, MisfitKind};
use sn_types::cuts::is_stateful;
use sn_types::typed_op::TOp;

/// The least stage after a chain of registers, of which the first may stand in stage `least`.
fn after_chain(least: u64, stages: &[u32]) -> Result<u64, Misfit>
    ensures goes_on { (following : List Table) → order_misfit least (map register stages.now ++ following) ≡ goes_on result following }
    ensures least { (following : List Table) → IfOk result (λ n. least_after least (map register stages.now ++ following) ≡ least_after n following) }
    ensures most { IfOk result (λ n. n ≤ max least (2 ^ 32)) }
{
    let mut least = least;
    for stage in stages {
        let stage = u64::from(*stage);
        if stage < least {
            return Err(Misfit {
                kind: MisfitKind::Order,
                want: least,
                got: stage,
            });
        }
        least = stage + 1;
    }
    Ok(least)
}

/// The least stage after the tables of operators, of which the first may stand in stage `least`.
pub(crate) fn order(least: u64, depth: usize, ops: &[TOp], stages: &[u32]) -> Result<u64, Misfit>
    requires few { length ops.now ≤ 2 ^ 32 }
    requires low { least ≤ 1 }
    ensures misfit { reported result ≡ order_misfit least (op_tables depth ops.now stages.now) }
    ensures least { IfOk result (λ n. n ≡ least_after least (op_tables depth ops.now stages.now)) }
{
    let mut least = least;
    let mut rest = stages;
    for op in ops {
        if is_stateful(op) {
            let (own, after) = rest.split_at(depth.min(rest.len()));
            least = after_chain(least, own)?;
            rest = after;
        } else {
            least += 1;
        }
    }
    Ok(least)
}

/// Whether the last stage is passed, by the least stage after all tables.
pub(crate) fn end(stages: u32, registers: bool, least: u64) -> Result<(), Misfit>
    ensures { reported result ≡ end_misfit stages registers least }
{
    let stages = u64::from(stages);
    if least <= stages {
        return Ok(());
    }
    if registers {
        Err(Misfit {
            kind: MisfitKind::Stage,
            want: stages.saturating_sub(1),
            got: least.saturating_sub(1),
        })
    } else {
        Err(Misfit {
            kind: MisfitKind::Stage,
            want: stages,
            got: least,
        })
    }
}
