//! The packet row of a tuple.
ghost use Rattle.std.specs.Prelude.{◌≡◌, ◌≤◌, ◌<◌, ◌^◌, ℕ, List, length, map, IfSome};
ghost use Rattle.std.proofs.Props.{props};
ghost use Rattle.sn_base.specs.Columns.{IsOf};
ghost use Rattle.sn_fields.specs.Fields.{width_of};
ghost use Rattle.sn_fields.specs.declared.field.Field.{Field};
ghost use Rattle.sn_types.specs.Kinds.{AreBelow};
ghost use Rattle.sn_types.specs.Typed.{is_field, read_at, packet_row};
ghost use Rattle.sn_types_faults.specs.Columns.{field_column};

use sn_base::any_row::AnyRow;
use sn_base::columns::Columns;
use sn_base::mask::mask;
use sn_base::number::Number;
use sn_fields::field::Field;
use sn_fields::tuple::Tuple;
use std::marker::{Model, PhantomData};

/// Whether the refinement field is this one.
pub fn is_field(refined: Option<Field>, field: Field) -> bool
    ensures { result ≡ is_field refined field }
{
    match refined {
        Some(other) => other.number() == field.number(),
        None => false,
    }
}

#[inline(always)]
fn read_at<N: Number>(refined: Option<Field>, level: u32, tuple: &Tuple, field: Field) -> N
    requires level { IfSome refined (λ other. level ≤ width_of other) }
    requires below { 2 ^ width_of field ≤ N.limit }
    ensures value { N.value result ≡ read_at refined level tuple.now field }
    ensures below { N.value result < 2 ^ width_of field }
{
    let value = N::of_whole(tuple.get(field));
    if level != 0 && is_field(refined, field) {
        mask(value, field.width(), level)
    } else {
        value
    }
}

/// The level, or 0 where it keeps all bits of the refinement field: so nothing is masked, and each column is read as it stands.
pub(crate) fn masking(refined: Option<Field>, level: u32) -> u32
    ensures least { result ≤ level }
    ensures same { (fields : List Field) (tuple : List ℕ) → packet_row refined result fields tuple ≡ packet_row refined level fields tuple }
{
    match refined {
        Some(field) if field.width() == level => 0,
        _ => level,
    }
}

/// Makes `row` the packet row of a tuple at a level, whatever it was before: the numbers of these fields, each of its field's width.
fn row_into<R: AnyRow>(
    refined: Option<Field>,
    level: u32,
    fields: &[Field],
    tuple: &Tuple,
    row: &mut R,
)
    requires few { length fields.now ≤ 8 }
    requires level { IfSome refined (λ other. level ≤ width_of other) }
    requires below { AreBelow R.Number.limit fields.now }
    ensures row { R.columns row.new ≡ packet_row refined level fields.now tuple.now }
    ensures columns { IsOf (map field_column fields.now) (R.columns row.new) }
{
    row.resize(fields.len());
    for (place, field) in fields.iter().enumerate() {
        row.set(place, read_at(refined, level, tuple, *field));
    }
}

/// The packet row of a tuple at a level: the numbers of these fields, each of its field's width.
pub fn row_of<R: AnyRow>(refined: Option<Field>, level: u32, fields: &[Field], tuple: &Tuple) -> R
    requires few { length fields.now ≤ 8 }
    requires level { IfSome refined (λ other. level ≤ width_of other) }
    requires below { AreBelow R.Number.limit fields.now }
    ensures row { R.columns result ≡ packet_row refined level fields.now tuple.now }
    ensures columns { IsOf (map field_column fields.now) (R.columns result) }
{
    let mut row = R::empty();
    row_into(refined, level, fields, tuple, &mut row);
    row
}

/// What is the same for the packet rows of all tuples of a branch at a level.
#[derive(Drop)]
pub struct Packets<'a> {
    /// The refinement field.
    pub refined: Option<Field>,
    /// The level, to which it is masked.
    pub level: u32,
    /// The level, or 0, which masks nothing, where the level keeps all bits of the field.
    pub masking: u32,
    /// The fields of the rows.
    pub fields: &'a [Field],
    ghost few: { length fields.now ≤ 8 },
    ghost within: { IfSome refined (λ other. masking ≤ width_of other) } by { Prim.hlevel props },
    ghost same: { (tuple : List ℕ) → packet_row refined masking fields.now tuple ≡ packet_row refined level fields.now tuple },
}

impl<'a> Packets<'a> {
    /// The packet row of a tuple, each number of its field's width. No row is made of it.
    #[inline(always)]
    pub fn row<N: Number>(&self, tuple: &'a Tuple) -> PacketRow<'a, N>
        requires { AreBelow N.limit self.now.fields.now }
        ensures row { result ≡ packet_row self.now.refined self.now.level self.now.fields.now tuple.now }
        ensures columns { IsOf (map field_column self.now.fields.now) result }
    {
        tuple.widths();
        PacketRow {
            refined: self.refined,
            level: self.masking,
            fields: self.fields,
            tuple,
            number: PhantomData,
        }
    }
}

/// The packet row of a tuple, of which no row is made. Its columns are read as numbers of this type.
#[derive(Drop)]
pub struct PacketRow<'a, N: Number> {
    refined: Option<Field>,
    level: u32,
    fields: &'a [Field],
    tuple: &'a Tuple,
    number: PhantomData<N>,
}

impl<'a, N: Number> Model for PacketRow<'a, N> {
    ghost use Rattle.std.specs.Prelude.{ℕ, ◌≤◌, List, length, IfSome};
    ghost use Rattle.sn_fields.specs.Fields.{width_of};
    ghost use Rattle.sn_types.specs.Kinds.{AreBelow};
    ghost use Rattle.sn_types.specs.Typed.{packet_row};

    ghost Value = { List ℕ };

    ghost view = { λ a. packet_row a.refined a.level a.fields.now a.tuple.now };

    ghost invariant = { λ a. (length a.fields.now ≤ 8) × IfSome a.refined (λ other. a.level ≤ width_of other) × AreBelow N.limit a.fields.now };
}

impl<'a, N: Number> PacketRow<'a, N> {
    /// Makes `row` the row, whatever it was before.
    pub fn put_into<R: AnyRow + Columns<Number = N>>(&self, row: &mut R)
        ensures { R.columns row.new ≡ self.now }
    {
        row_into(self.refined, self.level, self.fields, self.tuple, row)
    }
}

impl<N: Number> Columns for PacketRow<'_, N> {
    type Number = N;

    ghost use Rattle.std.specs.Prelude.{List, ℕ};

    ghost columns = { λ row. row };

    #[inline(always)]
    fn column(&self, place: u32) -> N {
        read_at(
            self.refined,
            self.level,
            self.tuple,
            self.fields[place as usize],
        )
    }
}
