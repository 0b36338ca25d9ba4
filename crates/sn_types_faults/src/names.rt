//! The names that operators read.
ghost use Rattle.std.specs.Prelude.{◌≡◌, ◌++◌, ◌∷◌, [], IfOk, OnOk, OnErr, map, filter, false, true};
ghost use Rattle.std.specs.List.{flat_map};
ghost use Rattle.sn_fields.specs.Fields.{name_of};
ghost use Rattle.sn_types_faults.specs.Names.{is_in, names_in, names_read, is_map, needs_map, names_to_map, fields_among, packet_fields};

use sn_base::memory::Memory;
use sn_base::name::Name;
use sn_base::seq::Seq;
use sn_fields::field::{FIELDS, Field, FieldRow};
use sn_query_grammar::ast::{Cond, Expr, MapCol, Op, Reduce, What};
use std::alloc::Global;

/// Whether a name is among these.
pub fn is_in(name: &Name, names: &[Name]) -> bool
    ensures { result ≡ is_in name.now names.now }
{
    names.iter().any(|other| *other == *name)
}

fn push_all(names: &mut Seq<Name>, more: &[Name]) -> Result<(), Memory>
    ensures { OnOk result (names.new ≡ names.old ++ more.now) }
{
    for name in more {
        names.push(*name)?;
    }
    Ok(())
}

fn push_names_in(names: &mut Seq<Name>, expr: &Expr) -> Result<(), Memory>
    ensures { OnOk result (names.new ≡ names.old ++ names_in expr.now) }
{
    match *expr {
        Expr::Const(_) => Ok(()),
        Expr::Copy(a) | Expr::Mask(a, _) | Expr::Shift(a, _) => names.push(a),
        Expr::Sum(a, b) | Expr::Ratio(a, _, b) => {
            names.push(a)?;
            names.push(b)
        }
    }
}

fn names_of_conds(alloc: Global, conds: &[Cond]) -> Result<Seq<Name>, Memory>
    ensures { IfOk result (λ names. names ≡ map (λ c. c.name) conds.now) }
{
    let mut names = Seq::new(alloc);
    for cond in conds {
        names.push(cond.name)?;
    }
    Ok(names)
}

fn names_of_cols(alloc: Global, cols: &[MapCol]) -> Result<Seq<Name>, Memory>
    ensures { IfOk result (λ names. names ≡ flat_map (λ c. names_in c.expr) cols.now) }
{
    let mut names = Seq::new(alloc);
    for col in cols {
        push_names_in(&mut names, &col.expr)?;
    }
    Ok(names)
}

fn names_of_reduce(alloc: Global, reduce: &Reduce) -> Result<Seq<Name>, Memory>
    ensures { IfOk result (λ names. names ≡ reduce.now.keys ++ reduce.now.value ∷ []) }
{
    let mut names = Seq::new(alloc);
    push_all(&mut names, reduce.keys.as_slice())?;
    names.push(reduce.value)?;
    Ok(names)
}

/// The names that an operator reads, in the order of the text.
pub fn names_read(alloc: Global, what: &What) -> Result<Seq<Name>, Memory>
    ensures { IfOk result (λ names. names ≡ names_read what.now) }
{
    match what {
        What::Filter(conds) => names_of_conds(alloc, conds.as_slice()),
        What::Map(cols) => names_of_cols(alloc, cols.as_slice()),
        What::Distinct => Ok(Seq::new(alloc)),
        What::Reduce(reduce) => names_of_reduce(alloc, reduce),
    }
}

/// The names of both lists, one list after the other.
pub fn joined_names(alloc: Global, first: &[Name], second: &[Name]) -> Result<Seq<Name>, Memory>
    ensures { IfOk result (λ names. names ≡ first.now ++ second.now) }
{
    let mut names = Seq::new(alloc);
    push_all(&mut names, first)?;
    push_all(&mut names, second)?;
    Ok(names)
}

/// Whether an operator is a map.
pub fn is_map(what: &What) -> bool
    ensures { result ≡ is_map what.now }
{
    match what {
        What::Map(_) => true,
        What::Filter(_) | What::Distinct | What::Reduce(_) => false,
    }
}

/// Whether an operator may not stand before a branch's first map.
pub fn needs_map(what: &What) -> bool
    ensures { result ≡ needs_map what.now }
{
    match what {
        What::Distinct | What::Reduce(_) => true,
        What::Filter(_) | What::Map(_) => false,
    }
}

/// The names that a branch reads up to and with its first map.
pub fn names_to_map(alloc: Global, ops: &[Op]) -> Result<Seq<Name>, Memory>
    ensures { IfOk result (λ names. names ≡ names_to_map ops.now) }
{
    let mut names = Seq::new(alloc);
    for op in ops {
        let more = names_read(alloc, &op.what)?;
        push_all(&mut names, more.as_slice())?;
        if is_map(&op.what) {
            return Ok(names);
        }
    }
    Ok(names)
}

fn names_field(names: &[Name], field: Field) -> bool
    ensures { result ≡ is_in (name_of field) names.now }
{
    names.iter().any(|name| name.as_bytes() == field.name())
}

fn named_of(alloc: Global, table: &[FieldRow], names: &[Name]) -> Result<Seq<Field>, Memory>
    ensures { IfOk result (λ fields. fields ≡ filter (λ f. is_in (name_of f) names.now) (map (λ row. row.0) table.now)) }
{
    let mut fields = Seq::new(alloc);
    for row in table {
        if names_field(names, row.0) {
            fields.push(row.0)?;
        }
    }
    Ok(fields)
}

/// The fields that are among these names, in the order of their numbers.
#[tactic(auto, unfolding(crate::specs::Names::fields_among))]
pub fn fields_among(alloc: Global, names: &[Name]) -> Result<Seq<Field>, Memory>
    ensures { IfOk result (λ fields. fields ≡ fields_among names.now) }
{
    named_of(alloc, &FIELDS, names)
}

/// The fields of a branch's packet rows.
pub fn packet_fields(alloc: Global, ops: &[Op]) -> Result<Seq<Field>, Memory>
    ensures { IfOk result (λ fields. fields ≡ packet_fields ops.now) }
{
    let names = names_to_map(alloc, ops)?;
    let fields = fields_among(alloc, names.as_slice())?;
    Ok(fields)
}
