//! The items of a query's branches, finished.
ghost use Rattle.std.specs.Prelude.{◌≡◌, ◌<◌, length, map, IfOk};
ghost use Rattle.std.specs.List.{AllByRecursion};
ghost use Rattle.sn_base.specs.Columns.{IsOf};
ghost use Rattle.sn_base.specs.RowLists.{rows_in};
ghost use Rattle.sn_base.specs.Sorted.{sorted_rows};
ghost use Rattle.sn_engine_split.specs.Branches.{branch_value, query_value, IsItemOf};
ghost use Rattle.sn_report.specs.Items.{item_by};
ghost use Rattle.sn_types.specs.Typed.{query_at, branch_at, end_columns, final_columns};

use crate::items::{AnyItems, Items};
use crate::value::value;
use sn_base::any_row::AnyRow;
use sn_base::memory::Memory;
use sn_base::row_list::RowList;
use sn_base::row_seq::RowSeq;
use sn_ops::lists::join_lists;
use sn_report::frame::Item;
use sn_types::answers::AnswerRows;
use sn_types::typed::Typed;
use std::alloc::Global;

/// The value of the items of a branch at a level, over rows of a kind.
fn kind_value<R: AnyRow>(
    alloc: Global,
    t: &Typed,
    q: u32,
    b: u32,
    level: u32,
    items: &[Item<R>],
) -> Result<RowSeq<R>, Memory>
    requires query { q < length t.now.queries }
    requires branch { b < length (query_at t.now.queries q).branches }
    requires items { AllByRecursion (IsItemOf (branch_at t.now.queries q b)) (map (item_by R.columns) items.now) }
    ensures rows { IfOk result (λ rows. rows ≡ branch_value (query_at t.now.queries q) b level (map (item_by R.columns) items.now)) }
    ensures columns { IfOk result (λ rows. AllByRecursion (IsOf (end_columns (branch_at t.now.queries q b))) rows) }
{
    value(alloc, t.seed, t.operators(q, b), level, items)
}

/// The value of the items of a branch at a level, over rows of their kind.
fn branch_value(
    alloc: Global,
    t: &Typed,
    q: u32,
    b: u32,
    level: u32,
    items: &Items,
) -> Result<RowList, Memory>
    requires query { q < length t.now.queries }
    requires branch { b < length (query_at t.now.queries q).branches }
    requires items { AllByRecursion (IsItemOf (branch_at t.now.queries q b)) items.now }
    ensures rows { IfOk result (λ rows. rows_in rows ≡ branch_value (query_at t.now.queries q) b level items.now) }
    ensures columns { IfOk result (λ rows. AllByRecursion (IsOf (end_columns (branch_at t.now.queries q b))) (rows_in rows)) }
{
    match items.kind() {
        AnyItems::Short(items) => {
            let rows = kind_value(alloc, t, q, b, level, items.as_slice())?;
            Ok(RowList::Short(rows))
        }
        AnyItems::Wide(items) => {
            let rows = kind_value(alloc, t, q, b, level, items.as_slice())?;
            Ok(RowList::Wide(rows))
        }
    }
}

/// The value of the items of a query at a level: of its branch, or of its two branches joined and taken through the
/// operators after the join. A query of one branch doesn't look at `right`.
pub fn query_value(
    alloc: Global,
    t: &Typed,
    q: u32,
    level: u32,
    left: &Items,
    right: &Items,
) -> Result<RowList, Memory>
    requires query { q < length t.now.queries }
    requires left { AllByRecursion (IsItemOf (branch_at t.now.queries q 0)) left.now }
    requires right { AllByRecursion (IsItemOf (branch_at t.now.queries q 1)) right.now }
    ensures rows { IfOk result (λ rows. rows_in rows ≡ query_value (query_at t.now.queries q) level left.now right.now) }
    ensures columns { IfOk result (λ rows. AllByRecursion (IsOf (final_columns (query_at t.now.queries q))) (rows_in rows)) }
{
    if t.branches(q) == 2 {
        let left = branch_value(alloc, t, q, 0, level, left)?;
        let right = branch_value(alloc, t, q, 1, level, right)?;
        join_lists(alloc, t, q, level, left, right)
    } else {
        branch_value(alloc, t, q, 0, level, left)
    }
}

/// That value, sorted by columns.
pub fn sorted_value(
    alloc: Global,
    t: &Typed,
    q: u32,
    level: u32,
    left: &Items,
    right: &Items,
) -> Result<AnswerRows, Memory>
    requires query { q < length t.now.queries }
    requires left { AllByRecursion (IsItemOf (branch_at t.now.queries q 0)) left.now }
    requires right { AllByRecursion (IsItemOf (branch_at t.now.queries q 1)) right.now }
    ensures rows { IfOk result (λ rows. rows ≡ sorted_rows (query_value (query_at t.now.queries q) level left.now right.now)) }
    ensures columns { IfOk result (λ rows. AllByRecursion (IsOf (final_columns (query_at t.now.queries q))) rows) }
{
    let list = query_value(alloc, t, q, level, left, right)?;
    AnswerRows::sorted(list)
}
