//! Items through operators.
ghost use Rattle.std.specs.Prelude.{◌≡◌, ◌≤◌, length, map, IfOk};
ghost use Rattle.sn_pipe_items.specs.Value.{is_at, is_partial, rows_with, taken, value};
ghost use Rattle.sn_ops.specs.Flow.{Fits};
ghost use Rattle.sn_engine.specs.Fitting.{PartsFit, ItemsFit};
ghost use Rattle.sn_report.specs.Items.{item_by};
ghost use Rattle.sn_types.specs.Values.{op_at};

use crate::rows::{partial_rows, push_rows_at, span_of};
use sn_base::any_row::AnyRow;
use sn_base::memory::Memory;
use sn_base::row_seq::RowSeq;
use sn_base::seed::Seed;
use sn_ops::group::{distinct_by, reduce_with};
use sn_ops::select::{filter, map};
use sn_report::frame::Item;
use sn_types::typed_op::TOp;
use std::alloc::Global;

/// What an operator gives for these rows and for the Partial rows at it among the items. Only a reduce looks for some.
fn taken<R: AnyRow>(
    alloc: Global,
    seed: Seed,
    op: &TOp,
    level: u32,
    rows: &RowSeq<R>,
    items: &[Item<R>],
    operator: u32,
) -> Result<RowSeq<R>, Memory>
    requires rows { Fits op.now rows.now }
    requires parts { PartsFit op.now (rows_with (is_partial operator) (map (item_by R.columns) items.now)) }
    ensures { IfOk result (λ out. out ≡ taken (op_at level op.now) rows.now (rows_with (is_partial operator) (map (item_by R.columns) items.now))) }
{
    match op {
        TOp::Filter(conds) => filter(alloc, rows, conds.as_slice(), level),
        TOp::Map(cols) => map(alloc, rows, cols.as_slice()),
        TOp::Distinct => distinct_by(alloc, seed, rows),
        TOp::Reduce(r) => {
            let parts = partial_rows(alloc, items, operator)?;
            reduce_with(alloc, seed, rows, &parts, r)
        }
    }
}

/// The value of items: the rows that go into the first operator go through all, and at each operator the rows that go
/// into the next one join.
pub(crate) fn value<R: AnyRow>(
    alloc: Global,
    seed: Seed,
    ops: &[TOp],
    level: u32,
    items: &[Item<R>],
) -> Result<RowSeq<R>, Memory>
    requires few { length ops.now ≤ 12 }
    requires items { let found = map (item_by R.columns) items.now in ItemsFit level 0 ops.now found (rows_with (is_at 0) found) }
    ensures { IfOk result (λ rows. rows ≡ value (map (op_at level) ops.now) (map (item_by R.columns) items.now)) }
{
    let span = span_of(items);
    let mut rows = RowSeq::with_room(alloc, items.len())?;
    push_rows_at(&mut rows, items, span, 0)?;
    let mut operator = 0;
    for op in ops {
        rows = taken(alloc, seed, op, level, &rows, items, operator)?;
        operator += 1;
        push_rows_at(&mut rows, items, span, operator)?;
    }
    Ok(rows)
}
