//! Stages, made of operators.
ghost use Rattle.std.specs.Prelude.{◌≡◌, ◌≤◌, ◌<◌, [], ◌∷◌, All, IfOk, length, slice_index};
ghost use Rattle.sn_types.specs.Cuts.{size_at, stateful};
ghost use Rattle.sn_pipe.specs.Making.{AreStagesOf, IsStageOf};
ghost use Rattle.sn_chain.specs.Limits.{largest_register};

use crate::stage::{Stage, StageOf};
use sn_base::any_row::AnyRow;
use sn_base::fold::Or;
use sn_base::memory::Memory;
use sn_base::seq::Seq;
use sn_chain::chain::Chain;
use sn_types::copies::{copy_conds, copy_reduce};
use sn_types::cuts::is_stateful;
use sn_types::typed_op::TOp;
use std::alloc::Global;

/// The stage of an operator, with empty registers: `depth` of them with `slots` slots each, where it has some.
fn stage_of<R: AnyRow>(
    alloc: Global,
    op: &TOp,
    depth: u32,
    slots: u32,
) -> Result<StageOf<R>, Memory>
    requires some_depth { 1 ≤ depth }
    requires most_depth { depth ≤ 4 }
    requires some_slots { 1 ≤ slots }
    requires most_slots { slots ≤ largest_register }
    ensures { IfOk result (λ s. IsStageOf op.now depth slots s) }
{
    match op {
        TOp::Filter(conds) => Ok(Stage::Filter(copy_conds(alloc, conds.as_slice())?)),
        TOp::Map(exprs) => Ok(Stage::Map(Seq::from_slice(alloc, exprs.as_slice())?)),
        TOp::Distinct => Ok(Stage::Distinct(Chain::make(alloc, Or { v: 1 }, depth, slots)?, false)),
        TOp::Reduce(r) => {
            let chain = Chain::make(alloc, r.fold, depth, slots)?;
            Ok(Stage::Reduce(copy_reduce(alloc, r)?, chain))
        }
    }
}

/// How many sizes an operator takes: one where it has registers, and else none.
fn sizes_of(op: &TOp) -> usize
    ensures { result ≡ stateful (op.now ∷ []) }
{
    if is_stateful(op) { 1 } else { 0 }
}

/// The size at a place of the list, if it is that long.
fn size_in(sizes: &[u32], place: usize) -> u32
    requires { All (λ size. (1 ≤ size) × (size ≤ largest_register)) sizes.now }
    ensures some { 1 ≤ result }
    ensures most { result ≤ largest_register }
    ensures size { place < length sizes.now → result ≡ slice_index sizes.now place }
{
    if place < sizes.len() { sizes[place] } else { 1 }
}

/// The stages of operators, with empty registers: `depth` of them with as many slots each as its size for each
/// operator that has some. All memory that they ever need is taken here.
pub(crate) fn stages_of<R: AnyRow>(
    alloc: Global,
    ops: &[TOp],
    depth: u32,
    sizes: &[u32],
) -> Result<Seq<StageOf<R>>, Memory>
    requires some_depth { 1 ≤ depth }
    requires most_depth { depth ≤ 4 }
    requires sizes { All (λ size. (1 ≤ size) × (size ≤ largest_register)) sizes.now }
    requires few { length ops.now ≤ 12 }
    requires enough { stateful ops.now ≤ length sizes.now }
    ensures { IfOk result (λ stages. AreStagesOf ops.now depth (size_at ops.now sizes.now) stages) }
{
    let mut stages = Seq::new(alloc);
    let mut used = 0;
    for op in ops {
        stages.push(stage_of(alloc, op, depth, size_in(sizes, used))?)?;
        used += sizes_of(op);
    }
    Ok(stages)
}
