//! A schema: at most eight columns, held in place.
ghost use Rattle.std.specs.Prelude.{◌≡◌, ◌≤◌, ◌++◌, [], ◌∷◌, ◌↔◌, false, length, slice_get};
ghost use Rattle.std.specs.Bool.{OnTrue, OnFalse};
ghost use Rattle.sn_base.specs.Columns.{blank};

use crate::column::Column;
use crate::name::Name;
use std::marker::Model;

/// At most eight columns, in order.
#[derive(Clone, Copy, Debug)]
pub struct Schema {
    columns: [Column; 8],
    count: usize,
}

impl Model for Schema {
    ghost use Rattle.std.specs.Prelude.{List, length, take};
    ghost use Rattle.sn_base.specs.declared.column.Column.{Column};
    ghost use Rattle.sn_base.specs.Columns.{filled_columns, AreFilled, filled_columns_back, column_count_back};

    ghost Value = { List Column };

    ghost view = { λ a. take a.count a.columns };

    ghost invariant = { λ a. AreFilled a.columns a.count };

    ghost inverse = { λ xs. record { columns = filled_columns xs; count = length xs } };

    ghost inverse_ok = { λ a h i. record { columns = filled_columns_back a.columns a.count h i; count = column_count_back a.columns a.count h i } };
}

fn blank() -> Column
    ensures { result ≡ blank }
{
    let Some(name) = Name::new(b"_") else {
        unreachable!();
    };
    Column {
        name,
        width: 0,
        address: false,
    }
}

impl Schema {
    /// The schema of no column.
    pub fn new() -> Schema
        ensures { result ≡ [] }
    {
        Schema {
            columns: [blank(); 8],
            count: 0,
        }
    }

    /// Adds a column at the end. `false` exactly where eight are held, and then nothing changes.
    pub fn add(&mut self, column: Column) -> bool
        ensures added { OnTrue result (self.new ≡ self.old ++ column ∷ []) }
        ensures full { (result ≡ false) ↔ (length self.old ≡ 8) }
        ensures unchanged { OnFalse result (self.new ≡ self.old) }
    {
        if self.count == 8 {
            return false;
        }
        self.columns[self.count] = column;
        self.count += 1;
        true
    }

    /// How many columns there are.
    pub fn len(&self) -> usize
        ensures value { result ≡ length self.now }
        ensures most { result ≤ 8 }
    {
        self.count
    }

    /// The column at a place. `None` exactly past the end.
    pub fn get(&self, place: usize) -> Option<Column>
        ensures { result ≡ slice_get self.now place }
    {
        self.columns[..self.count].get(place).copied()
    }

    /// The columns, in order.
    pub fn as_slice(&self) -> &[Column]
        ensures value { result.now ≡ self.now }
        ensures most { length self.now ≤ 8 }
    {
        &self.columns[..self.count]
    }
}
