//! The columns of rows before and after each operator.
ghost use Rattle.std.specs.Prelude.{◌≡◌, ◌++◌, ◌∷◌, [], ◌<◌, IfOk, IfSome, OnOk, length, map};
ghost use Rattle.std.specs.List.{find, position};
ghost use Rattle.sn_fields.specs.Fields.{name_of};
ghost use Rattle.sn_types_faults.specs.Names.{same_name, is_in};
ghost use Rattle.sn_types_faults.specs.Columns.{has_column, place_of, column_named, expr_width, expr_address, mapped_column, folded_column, as_schema};
ghost use Rattle.sn_types_faults.specs.Columns.{columns_after, field_column, packet_columns, others, joined_columns};

use crate::names::{is_in, packet_fields};
use crate::widths::{constant_width, folded_width};
use sn_base::column::Column;
use sn_base::memory::Memory;
use sn_base::name::Name;
use sn_base::schema::Schema;
use sn_base::seq::Seq;
use sn_fields::field::Field;
use sn_query_grammar::ast::{Expr, MapCol, Op, Reduce, What};
use std::alloc::Global;

/// Whether a column has this name.
pub fn has_column(columns: &[Column], name: &Name) -> bool
    ensures { result ≡ has_column columns.now name.now }
{
    columns.iter().any(|column| column.name == *name)
}

fn first_place(columns: &[Column], name: &Name) -> Option<usize>
    ensures place { result ≡ position (λ c. same_name c.name name.now) columns.now }
    ensures within { IfSome result (λ place. place < length columns.now) }
{
    columns.iter().position(|column| column.name == *name)
}

/// The place of the column that has this name, or 0.
pub fn place_of(columns: &Schema, name: &Name) -> u32
    ensures { result ≡ place_of columns.now name.now }
{
    match first_place(columns.as_slice(), name) {
        Some(place) => place as u32,
        None => 0,
    }
}

fn first_named(columns: &[Column], name: &Name) -> Option<Column>
    ensures { result ≡ find (λ c. same_name c.name name.now) columns.now }
{
    columns.iter().copied().find(|column| column.name == *name)
}

/// The column that has this name, or one of one bit.
pub fn column_named(columns: &[Column], name: &Name) -> Column
    ensures { result ≡ column_named columns.now name.now }
{
    match first_named(columns, name) {
        Some(column) => column,
        None => Column {
            name: *name,
            width: 1,
            address: false,
        },
    }
}

fn expr_width(columns: &[Column], expr: &Expr) -> u32
    ensures { result ≡ expr_width columns.now expr.now }
{
    match expr {
        Expr::Const(number) => constant_width(*number),
        Expr::Copy(name) | Expr::Mask(name, _) => column_named(columns, name).width,
        Expr::Shift(name, places) => column_named(columns, name)
            .width
            .saturating_sub(*places)
            .max(1),
        Expr::Sum(_, _) | Expr::Ratio(_, _, _) => 64,
    }
}

fn expr_address(columns: &[Column], expr: &Expr) -> bool
    ensures { result ≡ expr_address columns.now expr.now }
{
    match expr {
        Expr::Copy(name) | Expr::Mask(name, _) => column_named(columns, name).address,
        Expr::Const(_) | Expr::Shift(_, _) | Expr::Sum(_, _) | Expr::Ratio(_, _, _) => false,
    }
}

fn mapped_column(columns: &[Column], col: &MapCol) -> Column
    ensures { result ≡ mapped_column columns.now col.now }
{
    Column {
        name: col.name,
        width: expr_width(columns, &col.expr),
        address: expr_address(columns, &col.expr),
    }
}

fn folded_column(columns: &[Column], reduce: &Reduce) -> Column
    ensures { result ≡ folded_column columns.now reduce.now }
{
    Column {
        name: reduce.value,
        width: folded_width(
            reduce.fold,
            reduce.width,
            column_named(columns, &reduce.value).width,
        ),
        address: false,
    }
}

/// The columns as a schema: all of them where they are at most eight.
pub fn as_schema(columns: &[Column]) -> Schema
    ensures { result ≡ as_schema columns.now }
{
    let mut schema = Schema::new();
    if columns.len() > 8 {
        return schema;
    }
    for column in columns {
        let added = schema.add(*column);
        prove!(added);
    }
    schema
}

fn mapped_columns(alloc: Global, columns: &[Column], cols: &[MapCol]) -> Result<Seq<Column>, Memory>
    ensures { IfOk result (λ made. made ≡ map (mapped_column columns.now) cols.now) }
{
    let mut made = Seq::new(alloc);
    for col in cols {
        made.push(mapped_column(columns, col))?;
    }
    Ok(made)
}

fn columns_named(alloc: Global, columns: &[Column], names: &[Name]) -> Result<Seq<Column>, Memory>
    ensures { IfOk result (λ named. named ≡ map (column_named columns.now) names.now) }
{
    let mut named = Seq::new(alloc);
    for name in names {
        named.push(column_named(columns, name))?;
    }
    Ok(named)
}

/// The columns after an operator.
pub fn columns_after(alloc: Global, columns: &Schema, what: &What) -> Result<Schema, Memory>
    ensures { IfOk result (λ after. after ≡ columns_after columns.now what.now) }
{
    match what {
        What::Filter(_) | What::Distinct => Ok(*columns),
        What::Map(cols) => {
            let made = mapped_columns(alloc, columns.as_slice(), cols.as_slice())?;
            Ok(as_schema(made.as_slice()))
        }
        What::Reduce(reduce) => {
            let mut made = columns_named(alloc, columns.as_slice(), reduce.keys.as_slice())?;
            made.push(folded_column(columns.as_slice(), reduce))?;
            Ok(as_schema(made.as_slice()))
        }
    }
}

fn field_column(field: Field) -> Column
    ensures { result ≡ field_column field }
{
    let Some(name) = Name::new(field.name()) else {
        unreachable!();
    };
    Column {
        name,
        width: field.width(),
        address: field.is_address(),
    }
}

fn field_columns(alloc: Global, fields: &[Field]) -> Result<Seq<Column>, Memory>
    ensures { IfOk result (λ columns. columns ≡ map field_column fields.now) }
{
    let mut columns = Seq::new(alloc);
    for field in fields {
        columns.push(field_column(*field))?;
    }
    Ok(columns)
}

/// The columns of a branch's packet row.
pub fn packet_columns(alloc: Global, ops: &[Op]) -> Result<Schema, Memory>
    ensures { IfOk result (λ columns. columns ≡ packet_columns ops.now) }
{
    let fields = packet_fields(alloc, ops)?;
    let columns = field_columns(alloc, fields.as_slice())?;
    Ok(as_schema(columns.as_slice()))
}

/// The columns that aren't named by a key.
pub fn others(alloc: Global, keys: &[Name], columns: &[Column]) -> Result<Seq<Column>, Memory>
    ensures { IfOk result (λ left. left ≡ others keys.now columns.now) }
{
    let mut left = Seq::new(alloc);
    for column in columns {
        if !is_in(&column.name, keys) {
            left.push(*column)?;
        }
    }
    Ok(left)
}

fn push_all(columns: &mut Seq<Column>, more: &[Column]) -> Result<(), Memory>
    ensures { OnOk result (columns.new ≡ columns.old ++ more.now) }
{
    for column in more {
        columns.push(*column)?;
    }
    Ok(())
}

/// The columns of joined rows: the keys, the other columns of the left, the other columns of the right.
pub fn joined_columns(
    alloc: Global,
    keys: &[Name],
    left: &[Column],
    right: &[Column],
) -> Result<Seq<Column>, Memory>
    ensures { IfOk result (λ columns. columns ≡ joined_columns keys.now left.now right.now) }
{
    let mut columns = columns_named(alloc, left, keys)?;
    let of_left = others(alloc, keys, left)?;
    push_all(&mut columns, of_left.as_slice())?;
    let of_right = others(alloc, keys, right)?;
    push_all(&mut columns, of_right.as_slice())?;
    Ok(columns)
}
