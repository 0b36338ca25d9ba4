//! Lists of rows whose kind is known when they are made.
ghost use Rattle.std.specs.Prelude.{◌≡◌, length, IfOk};
ghost use Rattle.sn_base.specs.RowLists.{rows_in};

use crate::memory::Memory;
use crate::row::Row;
use crate::row_seq::RowSeq;
use crate::short_row::ShortRow;
use std::alloc::Global;

/// Rows of one kind. Where no column of them has more than 64 bits they are short.
#[derive(Drop)]
pub enum RowList {
    Short(RowSeq<ShortRow>),
    Wide(RowSeq<Row>),
}

/// Short rows as rows of the other kind.
fn widened(alloc: Global, rows: &RowSeq<ShortRow>) -> Result<RowSeq<Row>, Memory>
    ensures { IfOk result (λ wide. wide ≡ rows.now) }
{
    let mut wide = RowSeq::new(alloc);
    for place in 0..rows.len() {
        wide.push(&Row::of_short(rows.at(place)))?;
    }
    Ok(wide)
}

impl RowList {
    /// How many rows there are.
    pub fn len(&self) -> usize
        ensures { result ≡ length (rows_in self.now) }
    {
        match self {
            RowList::Short(rows) => rows.len(),
            RowList::Wide(rows) => rows.len(),
        }
    }

    /// The rows with columns of 128 bits. Those that are short are copied.
    pub fn into_wide(self, alloc: Global) -> Result<RowSeq<Row>, Memory>
        ensures { IfOk result (λ rows. rows ≡ rows_in self) }
    {
        match self {
            RowList::Short(rows) => widened(alloc, &rows),
            RowList::Wide(rows) => Ok(rows),
        }
    }
}
