//! The fields of a record.
ghost use Rattle.std.specs.Prelude.{◌≡◌, [], ◌∷◌, ◌++◌, replicate, length, IfOk};
ghost use Rattle.std.specs.Fmt.{decimal};
ghost use Rattle.csv.specs.Records.{fields_of};
ghost use Rattle.csv.specs.Writing.{default_writer, row_text};
ghost use Rattle.sn_out.specs.Text.{number_text};
ghost use Rattle.sn_out.specs.Records.{number_fields};

use crate::pieces::push_number;
use crate::rows::push_value;
use csv::{ByteRecord, WriterBuilder};
use sn_base::any_row::AnyRow;
use sn_base::column::Column;
use sn_base::memory::Memory;
use sn_base::number::Number;
use std::alloc::Global;
use std::marker::Model;

/// The fields of a record so far.
#[derive(Drop)]
pub struct Fields {
    held: ByteRecord,
}

impl Model for Fields {
    ghost use Rattle.std.specs.Prelude.{◌≡◌, ℕ, List, []};
    ghost use Rattle.std.specs.Coded.{coded_ℕ, coded_list};
    ghost use Rattle.csv.specs.Records.{fields_of, partial_of};

    ghost Value = { List (List ℕ) };

    ghost coded = { coded_list (coded_list coded_ℕ) };

    ghost view = { λ a. fields_of a.held };

    ghost invariant = { λ a. partial_of a.held ≡ [] };
}

impl Fields {
    /// No field.
    pub fn new(alloc: Global) -> Fields
        ensures { result ≡ [] }
    {
        Fields {
            held: ByteRecord::new(alloc),
        }
    }

    /// These fields and one of these bytes.
    pub fn with(self, field: &[u8]) -> Result<Fields, Memory>
        ensures { IfOk result (λ fields. fields ≡ self ++ field.now ∷ []) }
    {
        let mut held = self.held;
        match held.push_field(field) {
            Ok(()) => Ok(Fields { held }),
            Err(_) => Err(Memory),
        }
    }

    /// The text of the record that has these fields.
    pub fn text(&self, alloc: Global) -> Result<Vec<u8>, Memory>
        ensures { IfOk result (λ text. text.items ≡ row_text default_writer self.now) }
    {
        text_of(alloc, &self.held)
    }
}

fn text_of(alloc: Global, fields: &ByteRecord) -> Result<Vec<u8>, Memory>
    ensures { IfOk result (λ text. text.items ≡ row_text default_writer (fields_of fields.now)) }
{
    let mut writer = WriterBuilder::new().from_writer(Vec::new(alloc));
    if let Err(_) = writer.write_byte_record(fields) {
        return Err(Memory);
    }
    match writer.into_inner() {
        Ok(text) => Ok(text),
        Err(_) => Err(Memory),
    }
}

/// These fields and one of a number in decimal.
pub fn with_number(alloc: Global, fields: Fields, number: u64) -> Result<Fields, Memory>
    ensures { IfOk result (λ longer. longer ≡ fields ++ decimal number ∷ []) }
{
    let mut text = Vec::new(alloc);
    push_number(&mut text, number)?;
    fields.with(&text)
}

fn with_value<N: Number>(
    alloc: Global,
    fields: Fields,
    column: &Column,
    number: N,
) -> Result<Fields, Memory>
    ensures { IfOk result (λ longer. longer ≡ fields ++ number_text column.now (N.value number) ∷ []) }
{
    let mut text = Vec::new(alloc);
    push_value(&mut text, column, number)?;
    fields.with(&text)
}

/// These fields and one for each number of a row of either kind.
pub fn with_values<R: AnyRow>(
    alloc: Global,
    fields: Fields,
    columns: &[Column],
    row: &R,
) -> Result<Fields, Memory>
    requires { length columns.now ≡ length (R.columns row.now) }
    ensures { IfOk result (λ longer. longer ≡ fields ++ number_fields columns.now (R.columns row.now)) }
{
    let mut longer = fields;
    for place in 0..row.len() {
        longer = with_value(alloc, longer, &columns[place], row.column(place as u32))?;
    }
    Ok(longer)
}

/// These fields and this many empty ones.
pub fn with_empty_fields(fields: Fields, count: usize) -> Result<Fields, Memory>
    ensures { IfOk result (λ longer. longer ≡ fields ++ replicate count []) }
{
    let mut longer = fields;
    for _ in 0..count {
        longer = longer.with(b"")?;
    }
    Ok(longer)
}
