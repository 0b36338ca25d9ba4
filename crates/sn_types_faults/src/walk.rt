//! The walk through a file.
ghost use Rattle.std.specs.Prelude.{◌≡◌, IfOk};
ghost use Rattle.std.specs.List.{flat_map};
ghost use Rattle.std.specs.Option.{option_map};
ghost use Rattle.sn_types_faults.specs.Walk.{scope_before, scope_after, scope_joined, scope_end, is_end, operator_places, refine_levels, refine_places};
ghost use Rattle.sn_types_faults.specs.Walk.{branch_places, branch_end, ops_at, join_places, query_places, walk, carried_along, first_fault};

use crate::carried::carried_after;
use crate::columns::{as_schema, columns_after, joined_columns, packet_columns};
use crate::fault::TypeFault;
use crate::faults::{join_fault, operator_fault, refine_fault};
use crate::names::{is_map, joined_names, names_read};
use crate::scope::Scope;
use sn_base::memory::Memory;
use sn_base::name::Name;
use sn_base::seq::Seq;
use sn_query_grammar::ast::{Branch, Join, Op, Query, QueryFile, Refine, What};
use std::alloc::Global;

fn refine_name(refine: &Option<Refine>) -> Option<Name>
    ensures { result ≡ option_map (λ r. r.field) refine.now }
{
    match refine {
        Some(refine) => Some(refine.field),
        None => None,
    }
}

fn refine_levels(refine: &Option<Refine>) -> &[u32]
    ensures { result.now ≡ refine_levels refine.now }
{
    match refine {
        Some(refine) => refine.levels.as_slice(),
        None => &[],
    }
}

fn scope_before(alloc: Global, refine: &Option<Refine>, ops: &[Op]) -> Result<Scope, Memory>
    ensures { IfOk result (λ scope. scope ≡ scope_before refine.now ops.now) }
{
    let columns = packet_columns(alloc, ops)?;
    Ok(Scope {
        mapped: false,
        read: Seq::new(alloc),
        columns,
        carried: refine_name(refine),
    })
}

fn carried_along(carried: Option<Name>, what: &What) -> Option<Name>
    ensures { result ≡ carried_along carried what.now }
{
    match carried {
        Some(name) => carried_after(&name, what),
        None => None,
    }
}

fn scope_after(alloc: Global, scope: &Scope, what: &What) -> Result<Scope, Memory>
    ensures { IfOk result (λ after. after ≡ scope_after scope.now what.now) }
{
    let names = names_read(alloc, what)?;
    let read = joined_names(alloc, scope.read.as_slice(), names.as_slice())?;
    let columns = columns_after(alloc, &scope.columns, what)?;
    Ok(Scope {
        mapped: scope.mapped || is_map(what),
        read,
        columns,
        carried: carried_along(scope.carried, what),
    })
}

/// What is known after the join line.
pub fn scope_joined(
    alloc: Global,
    left: &Scope,
    right: &Scope,
    join: &Join,
) -> Result<Scope, Memory>
    ensures { IfOk result (λ scope. scope ≡ scope_joined left.now right.now join.now) }
{
    let columns = joined_columns(
        alloc,
        join.keys.as_slice(),
        left.columns.as_slice(),
        right.columns.as_slice(),
    )?;
    Ok(Scope {
        mapped: true,
        read: Seq::new(alloc),
        columns: as_schema(columns.as_slice()),
        carried: left.carried,
    })
}

/// What is known after operators.
pub fn scope_end(alloc: Global, begin: Scope, ops: &[Op]) -> Result<Scope, Memory>
    ensures { IfOk result (λ end. end ≡ scope_end begin ops.now) }
{
    let mut scope = begin;
    for op in ops {
        scope = scope_after(alloc, &scope, &op.what)?;
    }
    Ok(scope)
}

/// What is known at the end of a branch.
pub fn branch_end(alloc: Global, refine: &Option<Refine>, ops: &[Op]) -> Result<Scope, Memory>
    ensures { IfOk result (λ end. end ≡ branch_end refine.now ops.now) }
{
    let begin = scope_before(alloc, refine, ops)?;
    let end = scope_end(alloc, begin, ops)?;
    Ok(end)
}

fn is_end(ops: &[Op]) -> bool
    ensures { result ≡ is_end ops.now }
{
    match ops {
        [] => true,
        [_, ..] => false,
    }
}

fn operators_fault(
    alloc: Global,
    levels: &[u32],
    begin: Scope,
    ops: &[Op],
) -> Result<Option<TypeFault>, Memory>
    ensures { IfOk result (λ fault. fault ≡ first_fault (operator_places levels.now begin ops.now)) }
{
    let mut scope = begin;
    let mut rest = ops;
    while let Some((op, after)) = rest.split_first() {
        let fault = operator_fault(alloc, levels, &scope, op, is_end(after))?;
        if let Some(found) = fault {
            return Ok(Some(found));
        }
        scope = scope_after(alloc, &scope, &op.what)?;
        rest = after;
    }
    Ok(None)
}

fn branch_fault(
    alloc: Global,
    refine: &Option<Refine>,
    ops: &[Op],
) -> Result<Option<TypeFault>, Memory>
    ensures { IfOk result (λ fault. fault ≡ first_fault (branch_places refine.now ops.now)) }
{
    let begin = scope_before(alloc, refine, ops)?;
    let fault = operators_fault(alloc, refine_levels(refine), begin, ops)?;
    Ok(fault)
}

fn refine_line_fault(refine: &Option<Refine>) -> Option<TypeFault>
    ensures { result ≡ first_fault (refine_places refine.now) }
{
    match refine {
        Some(refine) => refine_fault(refine),
        None => None,
    }
}

fn branches_fault(
    alloc: Global,
    refine: &Option<Refine>,
    branches: &[Branch],
) -> Result<Option<TypeFault>, Memory>
    ensures { IfOk result (λ fault. fault ≡ first_fault (flat_map (λ b. branch_places refine.now b.ops) branches.now)) }
{
    for branch in branches {
        let fault = branch_fault(alloc, refine, branch.ops.as_slice())?;
        match fault {
            Some(found) => return Ok(Some(found)),
            None => {}
        }
    }
    Ok(None)
}

/// The operators of a branch by its number.
pub fn ops_at(branches: &[Branch], b: usize) -> &[Op]
    ensures { result.now ≡ ops_at branches.now b }
{
    match branches.get(b) {
        Some(branch) => branch.ops.as_slice(),
        None => &[],
    }
}

fn join_part_fault(
    alloc: Global,
    refine: &Option<Refine>,
    branches: &[Branch],
    join: &Option<Join>,
) -> Result<Option<TypeFault>, Memory>
    ensures { IfOk result (λ fault. fault ≡ first_fault (join_places refine.now branches.now join.now)) }
{
    let Some(join) = join else {
        return Ok(None);
    };
    let left = branch_end(alloc, refine, ops_at(branches, 0))?;
    let right = branch_end(alloc, refine, ops_at(branches, 1))?;
    let fault = join_fault(alloc, &left, &right, join)?;
    if let Some(found) = fault {
        return Ok(Some(found));
    }
    let begin = scope_joined(alloc, &left, &right, join)?;
    let fault = operators_fault(alloc, refine_levels(refine), begin, join.post.as_slice())?;
    Ok(fault)
}

fn query_fault(alloc: Global, query: &Query) -> Result<Option<TypeFault>, Memory>
    ensures { IfOk result (λ fault. fault ≡ first_fault (query_places query.now)) }
{
    let of_refine = refine_line_fault(&query.refine);
    match of_refine {
        Some(found) => return Ok(Some(found)),
        None => {}
    }
    let of_branches = branches_fault(alloc, &query.refine, query.branches.as_slice())?;
    match of_branches {
        Some(found) => return Ok(Some(found)),
        None => {}
    }
    let of_join = join_part_fault(alloc, &query.refine, query.branches.as_slice(), &query.join)?;
    Ok(of_join)
}

fn queries_fault(alloc: Global, queries: &[Query]) -> Result<Option<TypeFault>, Memory>
    ensures { IfOk result (λ fault. fault ≡ first_fault (flat_map query_places queries.now)) }
{
    for query in queries {
        let fault = query_fault(alloc, query)?;
        match fault {
            Some(found) => return Ok(Some(found)),
            None => {}
        }
    }
    Ok(None)
}

/// The fault of the first place of a file that has one.
pub fn file_fault(alloc: Global, file: &QueryFile) -> Result<Option<TypeFault>, Memory>
    ensures { IfOk result (λ fault. fault ≡ first_fault (walk file.now)) }
{
    let fault = queries_fault(alloc, file.queries.as_slice())?;
    Ok(fault)
}
