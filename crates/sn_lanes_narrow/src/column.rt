//! The numbers of a field in its own width.
ghost use Rattle.std.specs.Prelude.{◌≡◌, ◌≤◌, ◌<◌, ◌+◌, ◌^◌, length, map, slice_index, OnOk};
ghost use Rattle.sn_fields.specs.Fields.{number_of, width_of};
ghost use Rattle.sn_lanes.specs.Columns.{column_of};
ghost use Rattle.sn_lanes_narrow.specs.Marks.{greatest_in, number_mark, numbers_in};

use crate::compare::compare;
use crate::condition::Condition;
use crate::lane::Lane;
use sn_base::memory::Memory;
use sn_fields::field::Field;
use sn_fields::tuple::Tuple;
use sn_query_grammar::ast::Cmp;
use std::alloc::Global;

/// Numbers, each in as many bytes as the greatest of them may need.
#[derive(Drop)]
pub enum Numbers {
    Bytes(Vec<u8>),
    Halves(Vec<u16>),
    Words(Vec<u32>),
    Longs(Vec<u64>),
}

/// The numbers of a field of at most 64 bits, in its own width: 1, 2, 4 or 8 bytes.
#[derive(Drop)]
pub struct Column {
    pub field: Field,
    pub numbers: Numbers,
    ghost wide: { 2 ^ width_of field ≤ greatest_in numbers + 1 },
    ghost narrow: { width_of field ≤ 64 },
}

/// Writes a field's number of each tuple, in the tuples' order.
fn write_numbers<L: Lane>(tuples: &[Tuple], field: Field, out: &mut [L])
    requires lengths { length tuples.now ≡ length out.old }
    requires narrow { width_of field ≤ 64 }
    requires wide { 2 ^ width_of field ≤ L.GREATEST + 1 }
    ensures { map (λ x. L.value x) out.new ≡ column_of tuples.now field }
{
    for (place, tuple) in tuples.iter().enumerate() {
        out[place] = L::of(tuple.get(field) as u64);
    }
}

/// Makes room for as many numbers as there are tuples, and writes them.
fn fill_numbers<L: Lane>(tuples: &[Tuple], field: Field, held: &mut Vec<L>) -> Result<(), Memory>
    requires narrow { width_of field ≤ 64 }
    requires wide { 2 ^ width_of field ≤ L.GREATEST + 1 }
    ensures { OnOk result (map (λ x. L.value x) held.new.items ≡ column_of tuples.now field) }
{
    held.resize(tuples.len(), L::of(0))?;
    write_numbers(tuples, field, held.as_mut_slice());
    Ok(())
}

fn none_of(alloc: Global, field: Field) -> Numbers
    requires { width_of field ≤ 64 }
    ensures { 2 ^ width_of field ≤ greatest_in result + 1 }
{
    let width = field.width();
    if width <= 8 {
        Numbers::Bytes(Vec::new(alloc))
    } else if width <= 16 {
        Numbers::Halves(Vec::new(alloc))
    } else if width <= 32 {
        Numbers::Words(Vec::new(alloc))
    } else {
        Numbers::Longs(Vec::new(alloc))
    }
}

impl Column {
    /// A column of this field that holds no number.
    pub fn new(alloc: Global, field: Field) -> Column
        requires { width_of field ≤ 64 }
        ensures { result.field ≡ field }
    {
        Column {
            field,
            numbers: none_of(alloc, field),
        }
    }

    /// Makes it the column of these tuples, whatever it held before. Its room is kept.
    pub fn fill(&mut self, tuples: &[Tuple]) -> Result<(), Memory>
        ensures field { self.new.field ≡ self.old.field }
        ensures numbers { OnOk result (numbers_in self.new.numbers ≡ column_of tuples.now self.old.field) }
    {
        match &mut self.numbers {
            Numbers::Bytes(held) => fill_numbers(tuples, self.field, held),
            Numbers::Halves(held) => fill_numbers(tuples, self.field, held),
            Numbers::Words(held) => fill_numbers(tuples, self.field, held),
            Numbers::Longs(held) => fill_numbers(tuples, self.field, held),
        }
    }

    /// Writes 1 for each of its numbers that, and-ed, compares so with the constant, and 0 for the others. Takes no memory.
    pub fn compare(&self, and: u128, cmp: Cmp, constant: u64, out: &mut [u8])
        requires { length (numbers_in self.now.numbers) ≡ length out.old }
        ensures { out.new ≡ map (number_mark cmp and constant) (numbers_in self.now.numbers) }
    {
        match &self.numbers {
            Numbers::Bytes(held) => compare(held.as_slice(), and, cmp, constant, out),
            Numbers::Halves(held) => compare(held.as_slice(), and, cmp, constant, out),
            Numbers::Words(held) => compare(held.as_slice(), and, cmp, constant, out),
            Numbers::Longs(held) => compare(held.as_slice(), and, cmp, constant, out),
        }
    }
}
