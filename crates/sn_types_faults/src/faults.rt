//! The faults of types at one place.
ghost use Rattle.std.specs.Prelude.{◌≡◌, ◌==◌, IfOk, nat_lt, not, is_none, nat_eq, ◌++◌, length, ◌&&◌, ◌||◌};
ghost use Rattle.std.specs.List.{list_any, list_all, count_by};
ghost use Rattle.sn_fields.specs.Fields.{with_name};
ghost use Rattle.sn_types_faults.specs.Names.{fields_among, names_read};
ghost use Rattle.sn_types_faults.specs.Columns.{has_column};
ghost use Rattle.sn_types_faults.specs.Faults.{reads_fields, unknown_field, unknown_column, ninth_field, is_sum, wide_fold, is_wide, wide_operand};
ghost use Rattle.sn_types_faults.specs.Faults.{wide_operands, too_wide, no_map, refine_lost};
ghost use Rattle.sn_types_faults.specs.Faults.{refine_filter, ends_unmapped, wrong_relax, wrong_levels, operator_fault, are_rising, out_of_range};
ghost use Rattle.sn_types_faults.specs.Faults.{wrong_field_levels, wrong_refine, refine_fault, in_both, join_too_wide, join_loses, wrong_key, wrong_keys};
ghost use Rattle.sn_types_faults.specs.Faults.{join_fault};

use crate::carried::{filters, loses};
use crate::columns::{column_named, has_column, joined_columns, others};
use crate::fault::TypeFault;
use crate::names::{fields_among, is_in, is_map, joined_names, names_read, needs_map};
use crate::scope::Scope;
use sn_base::column::Column;
use sn_base::memory::Memory;
use sn_base::name::Name;
use sn_fields::field::{Field, field_named};
use sn_query_grammar::ast::{Cond, Expr, FoldWord, Join, MapCol, Op, Refine, Relax, What};
use std::alloc::Global;

fn any_no_field(names: &[Name]) -> bool
    ensures { result ≡ list_any (λ n. is_none (with_name n)) names.now }
{
    names
        .iter()
        .any(|name| field_named(name.as_bytes()).is_none())
}

fn any_no_column(columns: &[Column], names: &[Name]) -> bool
    ensures { result ≡ list_any (λ n. not (has_column columns.now n)) names.now }
{
    names.iter().any(|name| !has_column(columns, name))
}

fn reads_fields(scope: &Scope, what: &What) -> bool
    ensures { result ≡ reads_fields scope.now what.now }
{
    !scope.mapped && !needs_map(what)
}

fn unknown_field(scope: &Scope, what: &What, names: &[Name]) -> bool
    requires { names.now ≡ names_read what.now }
    ensures { result ≡ unknown_field scope.now what.now }
{
    reads_fields(scope, what) && any_no_field(names)
}

fn unknown_column(scope: &Scope, what: &What, names: &[Name]) -> bool
    requires { names.now ≡ names_read what.now }
    ensures { result ≡ unknown_column scope.now what.now }
{
    scope.mapped && any_no_column(scope.columns.as_slice(), names)
}

fn ninth_field(alloc: Global, scope: &Scope, what: &What, names: &[Name]) -> Result<bool, Memory>
    requires { names.now ≡ names_read what.now }
    ensures { IfOk result (λ ninth. ninth ≡ ninth_field scope.now what.now) }
{
    let all = joined_names(alloc, scope.read.as_slice(), names)?;
    let fields = fields_among(alloc, all.as_slice())?;
    Ok(reads_fields(scope, what) && fields.as_slice().len() > 8)
}

fn is_sum(fold: FoldWord) -> bool
    ensures { result ≡ is_sum fold }
{
    match fold {
        FoldWord::Sum => true,
        FoldWord::Max | FoldWord::Min | FoldWord::Or => false,
    }
}

fn wide_fold(columns: &[Column], what: &What) -> bool
    ensures { result ≡ wide_fold columns.now what.now }
{
    match what {
        What::Filter(_) | What::Map(_) | What::Distinct => false,
        What::Reduce(reduce) => {
            let width = column_named(columns, &reduce.value).width;
            width > 64 || is_sum(reduce.fold) && width > reduce.width
        }
    }
}

fn is_wide(columns: &[Column], name: &Name) -> bool
    ensures { result ≡ is_wide columns.now name.now }
{
    column_named(columns, name).width > 64
}

fn wide_operand(columns: &[Column], expr: &Expr) -> bool
    ensures { result ≡ wide_operand columns.now expr.now }
{
    match expr {
        Expr::Const(_) | Expr::Copy(_) | Expr::Mask(_, _) | Expr::Shift(_, _) => false,
        Expr::Sum(a, b) | Expr::Ratio(a, _, b) => is_wide(columns, a) || is_wide(columns, b),
    }
}

fn any_wide_operand(columns: &[Column], cols: &[MapCol]) -> bool
    ensures { result ≡ list_any (λ c. wide_operand columns.now c.expr) cols.now }
{
    cols.iter().any(|col| wide_operand(columns, &col.expr))
}

fn wide_operands(columns: &[Column], what: &What) -> bool
    ensures { result ≡ wide_operands columns.now what.now }
{
    match what {
        What::Map(cols) => any_wide_operand(columns, cols.as_slice()),
        What::Filter(_) | What::Distinct | What::Reduce(_) => false,
    }
}

fn too_wide(alloc: Global, scope: &Scope, what: &What, names: &[Name]) -> Result<bool, Memory>
    requires { names.now ≡ names_read what.now }
    ensures { IfOk result (λ wide. wide ≡ too_wide scope.now what.now) }
{
    let ninth = ninth_field(alloc, scope, what, names)?;
    let columns = scope.columns.as_slice();
    Ok(ninth || scope.mapped && (wide_fold(columns, what) || wide_operands(columns, what)))
}

fn no_map(scope: &Scope, what: &What) -> bool
    ensures { result ≡ no_map scope.now what.now }
{
    !scope.mapped && needs_map(what)
}

fn ends_unmapped(scope: &Scope, what: &What, last: bool) -> bool
    ensures { result ≡ ends_unmapped scope.now what.now last }
{
    last && !scope.mapped && !is_map(what)
}

fn refine_lost(scope: &Scope, what: &What, last: bool) -> bool
    ensures { result ≡ refine_lost scope.now what.now last }
{
    match &scope.carried {
        Some(carried) => loses(carried, what) || ends_unmapped(scope, what, last),
        None => false,
    }
}

fn refine_filter(scope: &Scope, what: &What) -> bool
    ensures { result ≡ refine_filter scope.now what.now }
{
    match &scope.carried {
        Some(carried) => filters(carried, what),
        None => false,
    }
}

fn is_level(levels: &[u32], level: u32) -> bool
    ensures { result ≡ list_any (nat_eq level) levels.now }
{
    levels.iter().any(|other| level == *other)
}

fn stands_twice(relaxed: &[Relax], level: u32) -> bool
    ensures { result ≡ nat_lt 1 (count_by (λ o. o.level == level) relaxed.now) }
{
    relaxed.iter().filter(|other| other.level == level).count() > 1
}

fn wrong_relax(levels: &[u32], relaxed: &[Relax], relax: &Relax) -> bool
    ensures { result ≡ wrong_relax levels.now relaxed.now relax.now }
{
    !is_level(levels, relax.level) || stands_twice(relaxed, relax.level)
}

fn any_wrong_relax(levels: &[u32], relaxed: &[Relax]) -> bool
    ensures { result ≡ list_any (wrong_relax levels.now relaxed.now) relaxed.now }
{
    relaxed
        .iter()
        .any(|relax| wrong_relax(levels, relaxed, relax))
}

fn any_wrong_cond(levels: &[u32], conds: &[Cond]) -> bool
    ensures { result ≡ list_any (λ c. list_any (wrong_relax levels.now c.relaxed) c.relaxed) conds.now }
{
    conds
        .iter()
        .any(|cond| any_wrong_relax(levels, cond.relaxed.as_slice()))
}

fn wrong_levels(levels: &[u32], what: &What) -> bool
    ensures { result ≡ wrong_levels levels.now what.now }
{
    match what {
        What::Filter(conds) => any_wrong_cond(levels, conds.as_slice()),
        What::Map(_) | What::Distinct | What::Reduce(_) => false,
    }
}

/// The fault of an operator. `levels` are those of the query's refine line, and `last` says that it is the last operator of its branch.
pub fn operator_fault(
    alloc: Global,
    levels: &[u32],
    scope: &Scope,
    op: &Op,
    last: bool,
) -> Result<Option<TypeFault>, Memory>
    ensures { IfOk result (λ fault. fault ≡ operator_fault levels.now scope.now op.now last) }
{
    let line = op.line;
    let what = &op.what;
    let names = names_read(alloc, what)?;
    let wide = too_wide(alloc, scope, what, names.as_slice())?;
    if unknown_field(scope, what, names.as_slice()) {
        Ok(Some(TypeFault::UnknownField { line }))
    } else if unknown_column(scope, what, names.as_slice()) {
        Ok(Some(TypeFault::UnknownColumn { line }))
    } else if wide {
        Ok(Some(TypeFault::TooWide { line }))
    } else if no_map(scope, what) {
        Ok(Some(TypeFault::NoMap { line }))
    } else if refine_lost(scope, what, last) {
        Ok(Some(TypeFault::RefineLost { line }))
    } else if refine_filter(scope, what) {
        Ok(Some(TypeFault::RefineFilter { line }))
    } else if wrong_levels(levels, what) {
        Ok(Some(TypeFault::Levels { line }))
    } else {
        Ok(None)
    }
}

fn all_above(level: u32, levels: &[u32]) -> bool
    ensures { result ≡ list_all (nat_lt level) levels.now }
{
    levels.iter().all(|other| level < *other)
}

fn are_rising(levels: &[u32]) -> bool
    ensures { result ≡ are_rising levels.now }
{
    let mut rest = levels;
    while let Some((level, after)) = rest.split_first() {
        if !all_above(*level, after) {
            return false;
        }
        rest = after;
    }
    true
}

fn any_out_of_range(levels: &[u32], width: u32) -> bool
    ensures { result ≡ list_any (out_of_range width) levels.now }
{
    levels.iter().any(|level| *level == 0 || *level > width)
}

fn wrong_field_levels(field: Field, levels: &[u32]) -> bool
    ensures { result ≡ wrong_field_levels field levels.now }
{
    !field.is_address() || !are_rising(levels) || any_out_of_range(levels, field.width())
}

fn wrong_refine(refine: &Refine) -> bool
    ensures { result ≡ wrong_refine refine.now }
{
    match field_named(refine.field.as_bytes()) {
        Some(field) => wrong_field_levels(field, refine.levels.as_slice()),
        None => false,
    }
}

/// The fault of a refine line.
pub fn refine_fault(refine: &Refine) -> Option<TypeFault>
    ensures { result ≡ refine_fault refine.now }
{
    let line = refine.line;
    if field_named(refine.field.as_bytes()).is_none() {
        Some(TypeFault::UnknownField { line })
    } else if wrong_refine(refine) {
        Some(TypeFault::Levels { line })
    } else {
        None
    }
}

fn in_both(left: &[Column], right: &[Column], name: &Name) -> bool
    ensures { result ≡ in_both left.now right.now name.now }
{
    has_column(left, name) && has_column(right, name)
}

fn all_in_both(left: &[Column], right: &[Column], keys: &[Name]) -> bool
    ensures { result ≡ list_all (in_both left.now right.now) keys.now }
{
    keys.iter().all(|key| in_both(left, right, key))
}

fn join_too_wide(
    alloc: Global,
    left: &[Column],
    right: &[Column],
    keys: &[Name],
) -> Result<bool, Memory>
    ensures { IfOk result (λ wide. wide ≡ join_too_wide left.now right.now keys.now) }
{
    let joined = joined_columns(alloc, keys, left, right)?;
    Ok(all_in_both(left, right, keys) && joined.as_slice().len() > 8)
}

fn join_loses(left: Option<Name>, right: Option<Name>, keys: &[Name]) -> bool
    ensures { result ≡ join_loses left right keys.now }
{
    match (left, right) {
        (None, _) => false,
        (Some(_), None) => true,
        (Some(left), Some(right)) => !(left == right && is_in(&left, keys)),
    }
}

fn wrong_key(left: &[Column], right: &[Column], key: &Name) -> bool
    ensures { result ≡ wrong_key left.now right.now key.now }
{
    !in_both(left, right, key) || column_named(left, key).width != column_named(right, key).width
}

fn any_wrong_key(left: &[Column], right: &[Column], keys: &[Name]) -> bool
    ensures { result ≡ list_any (wrong_key left.now right.now) keys.now }
{
    keys.iter().any(|key| wrong_key(left, right, key))
}

fn any_has_column(columns: &[Column], among: &[Column]) -> bool
    ensures { result ≡ list_any (λ c. has_column among.now c.name) columns.now }
{
    columns.iter().any(|column| has_column(among, &column.name))
}

fn wrong_keys(
    alloc: Global,
    left: &[Column],
    right: &[Column],
    keys: &[Name],
) -> Result<bool, Memory>
    ensures { IfOk result (λ wrong. wrong ≡ wrong_keys left.now right.now keys.now) }
{
    let others = others(alloc, keys, left)?;
    Ok(any_wrong_key(left, right, keys) || any_has_column(others.as_slice(), right))
}

/// The fault of a join line, from what is known at the ends of the two branches.
pub fn join_fault(
    alloc: Global,
    left: &Scope,
    right: &Scope,
    join: &Join,
) -> Result<Option<TypeFault>, Memory>
    ensures { IfOk result (λ fault. fault ≡ join_fault left.now right.now join.now) }
{
    let line = join.line;
    let keys = join.keys.as_slice();
    let wide = join_too_wide(
        alloc,
        left.columns.as_slice(),
        right.columns.as_slice(),
        keys,
    )?;
    let wrong = wrong_keys(
        alloc,
        left.columns.as_slice(),
        right.columns.as_slice(),
        keys,
    )?;
    if wide {
        Ok(Some(TypeFault::TooWide { line }))
    } else if join_loses(left.carried, right.carried, keys) {
        Ok(Some(TypeFault::RefineLost { line }))
    } else if wrong {
        Ok(Some(TypeFault::JoinKeys { line }))
    } else {
        Ok(None)
    }
}
