//! Well typed queries with their names resolved.
ghost use Rattle.std.specs.Prelude.{◌≡◌, ◌≤◌, IfOk, length, map};
ghost use Rattle.std.specs.List.{AllByRecursion};
ghost use Rattle.sn_query_grammar.specs.Limits.{BranchLimits, QueryLimits};
ghost use Rattle.sn_types_faults.specs.Walk.{scope_end};
ghost use Rattle.sn_types.specs.Typing.{typed_ops, schemas_along, typed_branch, after_branches, join_keys, posts_of, field_of, levels_of, carried_place};
ghost use Rattle.sn_types.specs.Typing.{typed_query};

use crate::cuts::greatest_cut;
use crate::resolve::{typed_keys, typed_op};
use crate::typed_op::{JoinKey, TOp};
use crate::typed_query::{TypedBranch, TypedQuery};
use sn_base::memory::Memory;
use sn_base::schema::Schema;
use sn_base::seq::Seq;
use sn_fields::field::{Field, field_named};
use sn_query_grammar::ast::{Branch, Join, Op, Query, Refine};
use sn_types_faults::columns::{columns_after, packet_columns, place_of};
use sn_types_faults::names::packet_fields;
use sn_types_faults::scope::Scope;
use sn_types_faults::walk::{branch_end, ops_at, scope_end, scope_joined};
use std::alloc::Global;

fn typed_ops(alloc: Global, begin: &Schema, ops: &[Op]) -> Result<Seq<TOp>, Memory>
    ensures value { IfOk result (λ typed. typed ≡ typed_ops begin.now ops.now) }
    ensures count { IfOk result (λ typed. length typed ≡ length ops.now) }
{
    let mut columns = *begin;
    let mut typed = Seq::new(alloc);
    for op in ops {
        typed.push(typed_op(alloc, &columns, &op.what)?)?;
        columns = columns_after(alloc, &columns, &op.what)?;
    }
    Ok(typed)
}

fn schemas_along(alloc: Global, begin: &Schema, ops: &[Op]) -> Result<Seq<Schema>, Memory>
    ensures { IfOk result (λ schemas. schemas ≡ schemas_along begin.now ops.now) }
{
    let mut columns = *begin;
    let mut schemas = Seq::new(alloc);
    for op in ops {
        let after = columns_after(alloc, &columns, &op.what)?;
        schemas.push(columns)?;
        columns = after;
    }
    schemas.push(columns)?;
    Ok(schemas)
}

fn typed_branch(alloc: Global, ops: &[Op]) -> Result<TypedBranch, Memory>
    requires { length ops.now ≤ 12 }
    ensures { IfOk result (λ typed. typed ≡ typed_branch ops.now) }
{
    let fields = packet_fields(alloc, ops)?;
    let columns = packet_columns(alloc, ops)?;
    let typed = typed_ops(alloc, &columns, ops)?;
    let schemas = schemas_along(alloc, &columns, ops)?;
    let max_cut = greatest_cut(typed.as_slice());
    Ok(TypedBranch {
        fields,
        ops: typed,
        schemas,
        max_cut,
    })
}

fn typed_branches(alloc: Global, branches: &[Branch]) -> Result<Seq<TypedBranch>, Memory>
    requires { AllByRecursion BranchLimits branches.now }
    ensures { IfOk result (λ typed. typed ≡ map (λ b. typed_branch b.ops) branches.now) }
{
    let mut typed = Seq::new(alloc);
    for branch in branches {
        typed.push(typed_branch(alloc, branch.ops.as_slice())?)?;
    }
    Ok(typed)
}

fn after_branches(
    alloc: Global,
    refine: &Option<Refine>,
    branches: &[Branch],
    join: &Option<Join>,
) -> Result<Scope, Memory>
    ensures { IfOk result (λ scope. scope ≡ after_branches refine.now branches.now join.now) }
{
    let left = branch_end(alloc, refine, ops_at(branches, 0))?;
    match join {
        Some(join) => {
            let right = branch_end(alloc, refine, ops_at(branches, 1))?;
            let joined = scope_joined(alloc, &left, &right, join)?;
            Ok(joined)
        }
        None => Ok(left),
    }
}

fn join_keys(
    alloc: Global,
    refine: &Option<Refine>,
    branches: &[Branch],
    join: &Option<Join>,
) -> Result<Seq<JoinKey>, Memory>
    ensures { IfOk result (λ keys. keys ≡ join_keys refine.now branches.now join.now) }
{
    match join {
        Some(join) => {
            let left = branch_end(alloc, refine, ops_at(branches, 0))?;
            let right = branch_end(alloc, refine, ops_at(branches, 1))?;
            let keys = typed_keys(alloc, &left.columns, &right.columns, join.keys.as_slice())?;
            Ok(keys)
        }
        None => Ok(Seq::new(alloc)),
    }
}

fn posts_of(join: &Option<Join>) -> &[Op]
    ensures { result.now ≡ posts_of join.now }
{
    match join {
        Some(join) => join.post.as_slice(),
        None => &[],
    }
}

fn field_of(refine: &Option<Refine>) -> Option<Field>
    ensures { result ≡ field_of refine.now }
{
    match refine {
        Some(refine) => field_named(refine.field.as_bytes()),
        None => None,
    }
}

fn levels_of(alloc: Global, refine: &Option<Refine>) -> Result<Seq<u32>, Memory>
    ensures { IfOk result (λ levels. levels ≡ levels_of refine.now) }
{
    match refine {
        Some(refine) => {
            let levels = Seq::from_slice(alloc, refine.levels.as_slice())?;
            Ok(levels)
        }
        None => {
            let levels = Seq::from_slice(alloc, &[0])?;
            Ok(levels)
        }
    }
}

fn carried_place(scope: &Scope) -> Option<u32>
    ensures { result ≡ carried_place scope.now }
{
    match &scope.carried {
        Some(carried) => Some(place_of(&scope.columns, carried)),
        None => None,
    }
}

/// What stands after the branches of a query.
#[derive(Drop)]
struct Tail {
    ops: Seq<TOp>,
    schemas: Seq<Schema>,
    column: Option<u32>,
}

fn tail_of(alloc: Global, following: Scope, posts: &[Op]) -> Result<Tail, Memory>
    ensures ops { IfOk result (λ tail. tail.ops ≡ typed_ops following.columns posts.now) }
    ensures schemas { IfOk result (λ tail. tail.schemas ≡ schemas_along following.columns posts.now) }
    ensures column { IfOk result (λ tail. tail.column ≡ carried_place (scope_end following posts.now)) }
{
    let ops = typed_ops(alloc, &following.columns, posts)?;
    let schemas = schemas_along(alloc, &following.columns, posts)?;
    let end = scope_end(alloc, following, posts)?;
    Ok(Tail {
        ops,
        schemas,
        column: carried_place(&end),
    })
}

fn typed_query(alloc: Global, query: &Query) -> Result<TypedQuery, Memory>
    requires { AllByRecursion BranchLimits query.now.branches }
    ensures { IfOk result (λ typed. typed ≡ typed_query query.now) }
{
    let branches = query.branches.as_slice();
    let following = after_branches(alloc, &query.refine, branches, &query.join)?;
    let tail = tail_of(alloc, following, posts_of(&query.join))?;
    let keys = join_keys(alloc, &query.refine, branches, &query.join)?;
    let levels = levels_of(alloc, &query.refine)?;
    let branches = typed_branches(alloc, branches)?;
    Ok(TypedQuery {
        name: query.name,
        field: field_of(&query.refine),
        column: tail.column,
        levels,
        branches,
        keys,
        posts: tail.ops,
        schemas: tail.schemas,
    })
}

/// The queries with their names resolved.
pub fn typed_queries(alloc: Global, queries: &[Query]) -> Result<Seq<TypedQuery>, Memory>
    requires { AllByRecursion QueryLimits queries.now }
    ensures { IfOk result (λ typed. typed ≡ map typed_query queries.now) }
{
    let mut typed = Seq::new(alloc);
    for query in queries {
        typed.push(typed_query(alloc, query)?)?;
    }
    Ok(typed)
}
