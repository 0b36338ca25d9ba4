//! Copies of typed queries.
ghost use Rattle.std.specs.Prelude.{◌≡◌, IfOk};

use crate::typed_op::{TCond, TOp, TReduce};
use crate::typed_query::{TypedBranch, TypedQuery};
use sn_base::memory::Memory;
use sn_base::seq::Seq;
use std::alloc::Global;

fn copy_cond(alloc: Global, cond: &TCond) -> Result<TCond, Memory>
    ensures { IfOk result (λ copied. copied ≡ cond.now) }
{
    let relaxed = Seq::from_slice(alloc, cond.relaxed.as_slice())?;
    Ok(TCond {
        col: cond.col,
        and: cond.and,
        cmp: cond.cmp,
        own: cond.own,
        relaxed,
    })
}

/// Conditions equal to these.
pub fn copy_conds(alloc: Global, conds: &[TCond]) -> Result<Seq<TCond>, Memory>
    ensures { IfOk result (λ copied. copied ≡ conds.now) }
{
    let mut copied = Seq::new(alloc);
    for cond in conds {
        copied.push(copy_cond(alloc, cond)?)?;
    }
    Ok(copied)
}

/// A reduce equal to this one.
pub fn copy_reduce(alloc: Global, reduce: &TReduce) -> Result<TReduce, Memory>
    ensures { IfOk result (λ copied. copied ≡ reduce.now) }
{
    let keys = Seq::from_slice(alloc, reduce.keys.as_slice())?;
    Ok(TReduce {
        keys,
        value: reduce.value,
        fold: reduce.fold,
    })
}

fn copy_op(alloc: Global, op: &TOp) -> Result<TOp, Memory>
    ensures { IfOk result (λ copied. copied ≡ op.now) }
{
    match op {
        TOp::Filter(conds) => {
            let conds = copy_conds(alloc, conds.as_slice())?;
            Ok(TOp::Filter(conds))
        }
        TOp::Map(exprs) => {
            let exprs = Seq::from_slice(alloc, exprs.as_slice())?;
            Ok(TOp::Map(exprs))
        }
        TOp::Distinct => Ok(TOp::Distinct),
        TOp::Reduce(reduce) => {
            let reduce = copy_reduce(alloc, reduce)?;
            Ok(TOp::Reduce(reduce))
        }
    }
}

/// Operators equal to these.
pub fn copy_ops(alloc: Global, ops: &[TOp]) -> Result<Seq<TOp>, Memory>
    ensures { IfOk result (λ copied. copied ≡ ops.now) }
{
    let mut copied = Seq::new(alloc);
    for op in ops {
        copied.push(copy_op(alloc, op)?)?;
    }
    Ok(copied)
}

fn copy_branch(alloc: Global, branch: &TypedBranch) -> Result<TypedBranch, Memory>
    ensures { IfOk result (λ copied. copied ≡ branch.now) }
{
    let fields = Seq::from_slice(alloc, branch.fields.as_slice())?;
    let ops = copy_ops(alloc, branch.ops.as_slice())?;
    let schemas = Seq::from_slice(alloc, branch.schemas.as_slice())?;
    Ok(TypedBranch {
        fields,
        ops,
        schemas,
        max_cut: branch.max_cut,
    })
}

fn copy_branches(alloc: Global, branches: &[TypedBranch]) -> Result<Seq<TypedBranch>, Memory>
    ensures { IfOk result (λ copied. copied ≡ branches.now) }
{
    let mut copied = Seq::new(alloc);
    for branch in branches {
        copied.push(copy_branch(alloc, branch)?)?;
    }
    Ok(copied)
}

fn copy_query(alloc: Global, query: &TypedQuery) -> Result<TypedQuery, Memory>
    ensures { IfOk result (λ copied. copied ≡ query.now) }
{
    let levels = Seq::from_slice(alloc, query.levels.as_slice())?;
    let branches = copy_branches(alloc, query.branches.as_slice())?;
    let keys = Seq::from_slice(alloc, query.keys.as_slice())?;
    let posts = copy_ops(alloc, query.posts.as_slice())?;
    let schemas = Seq::from_slice(alloc, query.schemas.as_slice())?;
    Ok(TypedQuery {
        name: query.name,
        field: query.field,
        column: query.column,
        levels,
        branches,
        keys,
        posts,
        schemas,
    })
}

/// Queries equal to these.
pub fn copy_queries(alloc: Global, queries: &[TypedQuery]) -> Result<Seq<TypedQuery>, Memory>
    ensures { IfOk result (λ copied. copied ≡ queries.now) }
{
    let mut copied = Seq::new(alloc);
    for query in queries {
        copied.push(copy_query(alloc, query)?)?;
    }
    Ok(copied)
}
