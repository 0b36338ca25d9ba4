//! Branches and queries whose rows are of the kind that they need.
ghost use Rattle.std.specs.Prelude.{◌≡◌, ◌<◌, length, map, nat_eq, true, IfOk};
ghost use Rattle.std.specs.List.{list_any, AllByRecursion};
ghost use Rattle.sn_base.specs.Columns.{IsOf};
ghost use Rattle.sn_base.specs.Operators.{through};
ghost use Rattle.sn_base.specs.RowLists.{rows_in};
ghost use Rattle.sn_ops.specs.Packets.{OfALevel};
ghost use Rattle.sn_ops.specs.Joins.{joined};
ghost use Rattle.sn_ops.specs.Plain.{branch_rows, query_rows};
ghost use Rattle.sn_types.specs.Typed.{branch_of, branch_at, query_at, end_columns, final_columns};
ghost use Rattle.sn_types.specs.Values.{op_at};

use crate::packets::Kept;
use crate::plain::{branch_rows, join_branches};
use sn_base::memory::Memory;
use sn_base::row_list::RowList;
use sn_fields::tuple::Tuple;
use sn_types::typed::Typed;
use std::alloc::Global;

/// A branch on these tuples. Its rows are short where it isn't wide: that is asked once, and then no row is.
pub fn branch_list(
    alloc: Global,
    t: &Typed,
    q: u32,
    b: u32,
    level: u32,
    kept: Option<Kept>,
    tuples: &[Tuple],
) -> Result<RowList, Memory>
    requires query { q < length t.now.queries }
    requires branch { b < length (query_at t.now.queries q).branches }
    requires level { list_any (nat_eq level) (query_at t.now.queries q).levels ≡ true }
    requires kept { OfALevel (query_at t.now.queries q) kept }
    ensures rows { IfOk result (λ list. rows_in list ≡ branch_rows (query_at t.now.queries q) b level kept.entry tuples.now) }
    ensures columns { IfOk result (λ list. AllByRecursion (IsOf (end_columns (branch_at t.now.queries q b))) (rows_in list)) }
{
    if t.is_wide(q, b) {
        let rows = branch_rows(alloc, t, q, b, level, kept, tuples)?;
        Ok(RowList::Wide(rows))
    } else {
        let rows = branch_rows(alloc, t, q, b, level, kept, tuples)?;
        Ok(RowList::Short(rows))
    }
}

/// Rows of the two branches of a query, joined and taken through the operators after the join. Two lists of short rows give short
/// rows, since a pair has columns of the two rows, and no operator makes a number of 64 bits greater than that. Where one of them is
/// wide, the other one is copied if it is short.
pub fn join_lists(
    alloc: Global,
    t: &Typed,
    q: u32,
    level: u32,
    left: RowList,
    right: RowList,
) -> Result<RowList, Memory>
    requires query { q < length t.now.queries }
    requires branches { length (query_at t.now.queries q).branches ≡ 2 }
    requires left { AllByRecursion (IsOf (end_columns (branch_at t.now.queries q 0))) (rows_in left) }
    requires right { AllByRecursion (IsOf (end_columns (branch_at t.now.queries q 1))) (rows_in right) }
    ensures rows { let query = query_at t.now.queries q in IfOk result
        (λ list. rows_in list ≡ through (map (op_at level) query.posts) (joined query.keys (rows_in left) (rows_in right))) }
    ensures columns { IfOk result (λ list. AllByRecursion (IsOf (final_columns (query_at t.now.queries q))) (rows_in list)) }
{
    match (left, right) {
        (RowList::Short(left), RowList::Short(right)) => {
            let rows = join_branches(alloc, t, q, level, &left, &right)?;
            Ok(RowList::Short(rows))
        }
        (left, right) => {
            let left = left.into_wide(alloc)?;
            let right = right.into_wide(alloc)?;
            let rows = join_branches(alloc, t, q, level, &left, &right)?;
            Ok(RowList::Wide(rows))
        }
    }
}

/// The whole unsplit query on the tuples of a window: its branch, or its two branches joined and taken through the
/// operators after the join, with rows of the kind that its branches need. Without `kept` it sees all tuples; with it, those
/// alone whose refinement field, masked to `kept.bits`, is a member.
pub fn plain_list(
    alloc: Global,
    t: &Typed,
    q: u32,
    level: u32,
    kept: Option<Kept>,
    tuples: &[Tuple],
) -> Result<RowList, Memory>
    requires query { q < length t.now.queries }
    requires level { list_any (nat_eq level) (query_at t.now.queries q).levels ≡ true }
    requires kept { OfALevel (query_at t.now.queries q) kept }
    ensures rows { IfOk result (λ list. rows_in list ≡ query_rows (query_at t.now.queries q) level kept.entry tuples.now) }
    ensures columns { IfOk result (λ list. AllByRecursion (IsOf (final_columns (query_at t.now.queries q))) (rows_in list)) }
{
    if t.branches(q) == 2 {
        let left = branch_list(alloc, t, q, 0, level, kept, tuples)?;
        let right = branch_list(alloc, t, q, 1, level, kept, tuples)?;
        join_lists(alloc, t, q, level, left, right)
    } else {
        branch_list(alloc, t, q, 0, level, kept, tuples)
    }
}
