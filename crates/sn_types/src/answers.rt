//! Answers of queries.
ghost use Rattle.std.specs.Prelude.{◌≡◌, ◌↔◌, ◌++◌, ◌∷◌, [], length, IfOk, IfSome, IsNone, IfNone};
ghost use Rattle.sn_base.specs.RowLists.{rows_in};
ghost use Rattle.sn_base.specs.Sorted.{sorted_rows};
ghost use Rattle.sn_types.specs.Kinds.{rows_of};

use sn_base::memory::Memory;
use sn_base::row::Row;
use sn_base::row_list::RowList;
use sn_base::row_seq::RowSeq;
use sn_base::seq::Seq;
use sn_base::short_row::ShortRow;
use std::alloc::Global;
use std::marker::Model;

/// Rows of either kind, whose kind was chosen where they were made.
#[derive(Drop)]
pub enum EitherRows {
    Short(Seq<ShortRow>),
    Wide(Seq<Row>),
}

/// The rows of an answer. Contracts see them as lists of numbers, whatever their kind.
#[derive(Drop)]
pub struct AnswerRows {
    held: EitherRows,
}

impl Model for AnswerRows {
    ghost use Rattle.std.specs.Prelude.{List, ℕ};
    ghost use Rattle.std.specs.Coded.{coded_ℕ, coded_list};
    ghost use Rattle.sn_types.specs.Kinds.{rows_of};

    ghost Value = { List (List ℕ) };

    ghost coded = { coded_list (coded_list coded_ℕ) };

    ghost view = { λ a. rows_of a.held };
}

fn sorted_short(rows: RowSeq<ShortRow>) -> Result<Seq<ShortRow>, Memory>
    ensures { IfOk result (λ sorted. sorted ≡ sorted_rows rows) }
{
    let mut short = rows.into_vec();
    short.sort()?;
    Ok(Seq::from_vec(short))
}

fn sorted_wide(rows: RowSeq<Row>) -> Result<Seq<Row>, Memory>
    ensures { IfOk result (λ sorted. sorted ≡ sorted_rows rows) }
{
    let mut wide = rows.into_vec();
    wide.sort()?;
    Ok(Seq::from_vec(wide))
}

/// The last short row, taken off, with columns of 128 bits.
fn popped_short(rows: &mut Seq<ShortRow>) -> Option<Row>
    ensures some { IfSome result (λ row. rows.old ≡ rows.new ++ row ∷ []) }
    ensures none { IsNone result ↔ (rows.old ≡ []) }
    ensures empty { IfNone result (rows.new ≡ []) }
{
    match rows.pop() {
        Some(row) => Some(Row::of_short(&row)),
        None => None,
    }
}

impl AnswerRows {
    /// These rows.
    pub fn of(held: EitherRows) -> AnswerRows
        ensures { result ≡ rows_of held }
    {
        AnswerRows { held }
    }

    /// These rows, sorted by columns. None is copied.
    pub fn sorted(rows: RowList) -> Result<AnswerRows, Memory>
        ensures { IfOk result (λ sorted. sorted ≡ sorted_rows (rows_in rows)) }
    {
        let held = match rows {
            RowList::Short(rows) => EitherRows::Short(sorted_short(rows)?),
            RowList::Wide(rows) => EitherRows::Wide(sorted_wide(rows)?),
        };
        Ok(AnswerRows { held })
    }

    /// The rows, by their kind.
    pub fn either(&self) -> &EitherRows
        ensures { rows_of result.now ≡ self.now }
    {
        &self.held
    }

    /// How many rows there are.
    pub fn len(&self) -> usize
        ensures { result ≡ length self.now }
    {
        match &self.held {
            EitherRows::Short(rows) => rows.as_slice().len(),
            EitherRows::Wide(rows) => rows.as_slice().len(),
        }
    }

    /// Takes the last row off. `None` exactly where there is none.
    pub fn pop(&mut self) -> Option<Row>
        ensures some { IfSome result (λ row. self.old ≡ self.new ++ row ∷ []) }
        ensures none { IsNone result ↔ (self.old ≡ []) }
        ensures empty { IfNone result (self.new ≡ []) }
    {
        match &mut self.held {
            EitherRows::Short(rows) => popped_short(rows),
            EitherRows::Wide(rows) => rows.pop(),
        }
    }

    /// Equal rows.
    pub fn copy(&self, alloc: Global) -> Result<AnswerRows, Memory>
        ensures { IfOk result (λ copied. copied ≡ self.now) }
    {
        let held = match &self.held {
            EitherRows::Short(rows) => {
                EitherRows::Short(Seq::from_slice(alloc, rows.as_slice())?)
            }
            EitherRows::Wide(rows) => EitherRows::Wide(Seq::from_slice(alloc, rows.as_slice())?),
        };
        Ok(AnswerRows { held })
    }
}

/// The answers of all queries in one window.
#[derive(Drop)]
pub struct Answers {
    /// The window's number.
    pub window: u64,
    /// How many tuples were sent to the engine in it.
    pub emitted: u64,
    /// By query, then by level.
    pub parts: Seq<Part>,
}

/// The answer of a query at a level.
#[derive(Drop)]
pub struct Part {
    /// The query's number in its file.
    pub query: u32,
    pub level: u32,
    /// Sorted by columns.
    pub rows: AnswerRows,
}
