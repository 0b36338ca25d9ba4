//! Tuples by column.
ghost use Rattle.std.specs.Prelude.{◌≡◌, ◌<◌, ◌≤◌, All, length, slice_index, IfOk};
ghost use Rattle.sn_fields.specs.Fields.{number_of, width_of};
ghost use Rattle.sn_lanes.specs.Columns.{column_at, column_of, columns_of};

use sn_base::memory::Memory;
use sn_base::seq::Seq;
use sn_fields::field::Field;
use sn_fields::tuple::Tuple;
use std::alloc::Global;
use std::marker::Model;

/// The numbers of some fields of tuples, a column for each field. Contracts see the list of the columns.
#[derive(Drop)]
pub struct Columns {
    columns: Seq<Seq<u64>>,
}

impl Model for Columns {
    ghost use Rattle.std.specs.Prelude.{ℕ, List};
    ghost use Rattle.std.specs.Coded.{coded_ℕ, coded_list};

    ghost Value = { List (List ℕ) };

    ghost coded = { coded_list (coded_list coded_ℕ) };

    ghost view = { λ a. a.columns };
}

/// The number of a field of at most 64 bits.
fn number_of(tuple: &Tuple, field: Field) -> u64
    requires { width_of field ≤ 64 }
    ensures { result ≡ slice_index tuple.now (number_of field) }
{
    tuple.get(field) as u64
}

/// The number of a field of at most 64 bits of each tuple, in the tuples' order.
fn column_of(alloc: Global, tuples: &[Tuple], field: Field) -> Result<Seq<u64>, Memory>
    requires { width_of field ≤ 64 }
    ensures { IfOk result (λ column. column ≡ column_of tuples.now field) }
{
    let mut column = Seq::new(alloc);
    for tuple in tuples {
        column.push(number_of(tuple, field))?;
    }
    Ok(column)
}

impl Columns {
    /// The numbers of these fields, each at most 64 bits wide, a column for each field. The only `Err` is out of memory.
    pub fn of(alloc: Global, tuples: &[Tuple], fields: &[Field]) -> Result<Columns, Memory>
        requires { All (λ field. width_of field ≤ 64) fields.now }
        ensures { IfOk result (λ columns. columns ≡ columns_of tuples.now fields.now) }
    {
        let mut columns = Seq::new(alloc);
        for field in fields {
            columns.push(column_of(alloc, tuples, *field)?)?;
        }
        Ok(Columns { columns })
    }

    /// The column at a place, from 0: the field's number of each tuple, in the tuples' order. Takes no memory.
    pub fn column(&self, i: usize) -> &[u64]
        requires { i < length self.now }
        ensures { result.now ≡ column_at self.now i }
    {
        self.columns.as_slice()[i].as_slice()
    }
}
