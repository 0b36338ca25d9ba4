//! The counts of a window beside the rows that it gives, in one pass over its packet rows.
ghost use Rattle.std.specs.Prelude.{◌≡◌, ℕ, ◌<◌, ◌≤◌, ◌+◌, length, nat_eq, option_copied, true, IfOk, OnOk};
ghost use Rattle.std.specs.List.{AllByRecursion, list_any};
ghost use Rattle.sn_base.specs.Columns.{IsOf};
ghost use Rattle.sn_base.specs.RowLists.{rows_in};
ghost use Rattle.sn_plan_choices.specs.Costs.{HasPlaces};
ghost use Rattle.sn_cost.specs.Adding.{Adds, AreSmall, HasRoom, kept_counts, of_branches, of_counts, with_fee};
ghost use Rattle.sn_cost_counts.specs.Standing.{ArePacked, IsPacked};
ghost use Rattle.sn_ops.specs.Packets.{OfALevel};
ghost use Rattle.sn_ops.specs.Plain.{branch_rows, query_rows};
ghost use Rattle.sn_switch.specs.Texts.{IsSwitch};
ghost use Rattle.sn_types.specs.Kinds.{AreBelow};
ghost use Rattle.sn_types.specs.Typed.{branch_at, end_columns, query_at};
ghost use Rattle.sn_windows.specs.Blocks.{most_records};

use crate::adding::add_counts;
use crate::registers::registers;
use sn_base::any_row::AnyRow;
use sn_base::memory::Memory;
use sn_base::row::Row;
use sn_base::row_list::RowList;
use sn_base::seq::Seq;
use sn_base::short_row::ShortRow;
use sn_cost_counts::branch::{Counted, counts_and_rows};
use sn_cost_counts::branch_at::BranchAt;
use sn_cost_tally::firsts::Firsts;
use sn_cost_tally::room::Room;
use sn_fields::tuple::Tuple;
use sn_ops::lists::join_lists;
use sn_ops::packets::Kept;
use sn_plan_choices::costs::CostTable;
use sn_plan_choices::setting::options;
use sn_switch::switch::Switch;
use sn_types::typed::Typed;

/// The counts of a branch, and the rows that it gives, of either kind.
#[derive(Drop)]
struct BranchCounts {
    counts: Seq<u64>,
    rows: RowList,
}

/// The counts of a branch at a level, and its rows, over the tuples of a window that are kept, whose packet rows are of a kind.
fn counted_over<R: AnyRow>(
    room: &mut Room,
    t: &Typed,
    s: &Switch,
    q: u32,
    b: u32,
    level: u32,
    kept: Option<Kept>,
    tuples: &[Tuple],
    packed: Option<&Firsts>,
) -> Result<Counted<R>, Memory>
    requires switch { IsSwitch s.now }
    requires query { q < length t.now.queries }
    requires branch { b < length (query_at t.now.queries q).branches }
    requires level { list_any (nat_eq level) (query_at t.now.queries q).levels ≡ true }
    requires kept { OfALevel (query_at t.now.queries q) kept }
    requires below { AreBelow R.Number.limit (branch_at t.now.queries q b).fields }
    requires few { length tuples.now ≤ most_records }
    requires packed { IsPacked (query_at t.now.queries q) b tuples.now (option_copied packed) }
    ensures counts { IfOk result (λ found. found.counts ≡ kept_counts s.now (query_at t.now.queries q) level kept.entry tuples.now b) }
    ensures small { IfOk result (λ found. AreSmall found.counts) }
    ensures rows { IfOk result (λ found. found.rows ≡ branch_rows (query_at t.now.queries q) b level kept.entry tuples.now) }
    ensures columns { IfOk result (λ found. AllByRecursion (IsOf (end_columns (branch_at t.now.queries q b))) found.rows) }
{
    let at = BranchAt {
        t,
        q,
        b,
        level,
        kept,
        tuples,
    };
    counts_and_rows(room, &at, &registers(s), packed)
}

/// The counts of a branch at a level, and its rows, over the tuples of a window that are kept. The kind of its rows is asked once.
fn counted(
    room: &mut Room,
    t: &Typed,
    s: &Switch,
    q: u32,
    b: u32,
    level: u32,
    kept: Option<Kept>,
    tuples: &[Tuple],
    packed: Option<&Firsts>,
) -> Result<BranchCounts, Memory>
    requires switch { IsSwitch s.now }
    requires query { q < length t.now.queries }
    requires branch { b < length (query_at t.now.queries q).branches }
    requires level { list_any (nat_eq level) (query_at t.now.queries q).levels ≡ true }
    requires kept { OfALevel (query_at t.now.queries q) kept }
    requires few { length tuples.now ≤ most_records }
    requires packed { IsPacked (query_at t.now.queries q) b tuples.now (option_copied packed) }
    ensures counts { IfOk result (λ found. found.counts ≡ kept_counts s.now (query_at t.now.queries q) level kept.entry tuples.now b) }
    ensures small { IfOk result (λ found. AreSmall found.counts) }
    ensures rows { IfOk result (λ found. rows_in found.rows ≡ branch_rows (query_at t.now.queries q) b level kept.entry tuples.now) }
    ensures columns { IfOk result (λ found. AllByRecursion (IsOf (end_columns (branch_at t.now.queries q b))) (rows_in found.rows)) }
{
    if t.is_wide(q, b) {
        let Counted { counts, rows } = counted_over::<Row>(
            room, t, s, q, b, level, kept, tuples, packed,
        )?;
        let rows = RowList::Wide(rows);
        Ok(BranchCounts { counts, rows })
    } else {
        let Counted { counts, rows } = counted_over::<ShortRow>(
            room, t, s, q, b, level, kept, tuples, packed,
        )?;
        let rows = RowList::Short(rows);
        Ok(BranchCounts { counts, rows })
    }
}

/// Adds the counts of a branch at a level, over the tuples of a window that are kept, each with a fee, to their entries at a front, and
/// gives its rows.
fn add_branch(
    room: &mut Room,
    t: &Typed,
    s: &Switch,
    q: u32,
    front: u32,
    b: u32,
    level: u32,
    kept: Option<Kept>,
    tuples: &[Tuple],
    packed: Option<&Firsts>,
    fee: u64,
    table: &mut CostTable,
) -> Result<RowList, Memory>
    requires switch { IsSwitch s.now }
    requires query { q < length t.now.queries }
    requires branch { b < length (query_at t.now.queries q).branches }
    requires level { list_any (nat_eq level) (query_at t.now.queries q).levels ≡ true }
    requires kept { OfALevel (query_at t.now.queries q) kept }
    requires few { length tuples.now ≤ most_records }
    requires packed { IsPacked (query_at t.now.queries q) b tuples.now (option_copied packed) }
    requires places { HasPlaces table.old (q + 1) }
    requires front { front < 16 }
    requires room { HasRoom table.old q front b fee }
    ensures small { OnOk result (AreSmall (kept_counts s.now (query_at t.now.queries q) level kept.entry tuples.now b)) }
    ensures adds { OnOk result (Adds table.old table.new (of_counts q front b (with_fee fee (kept_counts s.now (query_at t.now.queries q) level kept.entry tuples.now b)))) }
    ensures rows { IfOk result (λ list. rows_in list ≡ branch_rows (query_at t.now.queries q) b level kept.entry tuples.now) }
    ensures columns { IfOk result (λ list. AllByRecursion (IsOf (end_columns (branch_at t.now.queries q b))) (rows_in list)) }
{
    let BranchCounts { counts, rows } = counted(room, t, s, q, b, level, kept, tuples, packed)?;
    add_counts(
        table,
        q,
        front,
        b,
        options(t, s, q, b),
        counts.as_slice(),
        fee,
    );
    Ok(rows)
}

/// Adds the counts of all branches of a query at a level, over the tuples of a window that are kept, each with a fee, to their entries at
/// a front, and gives the rows of the query.
pub(crate) fn add_query_rows(
    room: &mut Room,
    t: &Typed,
    s: &Switch,
    q: u32,
    front: u32,
    level: u32,
    kept: Option<Kept>,
    tuples: &[Tuple],
    packed: &[Option<Firsts>],
    fee: u64,
    table: &mut CostTable,
) -> Result<RowList, Memory>
    requires switch { IsSwitch s.now }
    requires query { q < length t.now.queries }
    requires level { list_any (nat_eq level) (query_at t.now.queries q).levels ≡ true }
    requires kept { OfALevel (query_at t.now.queries q) kept }
    requires few { length tuples.now ≤ most_records }
    requires packed { ArePacked (query_at t.now.queries q) tuples.now packed.now }
    requires places { HasPlaces table.old (q + 1) }
    requires front { front < 16 }
    requires room { (b : ℕ) → b < 2 → HasRoom table.old q front b fee }
    ensures small { let query = query_at t.now.queries q in OnOk result ((b : ℕ) → b < length query.branches →
        AreSmall (kept_counts s.now query level kept.entry tuples.now b)) }
    ensures adds { let query = query_at t.now.queries q in OnOk result
        (Adds table.old table.new (of_branches q front (length query.branches) (λ b. with_fee fee (kept_counts s.now query level kept.entry tuples.now b)))) }
    ensures rows { IfOk result (λ list. rows_in list ≡ query_rows (query_at t.now.queries q) level kept.entry tuples.now) }
{
    let left = add_branch(
        room,
        t,
        s,
        q,
        front,
        0,
        level,
        kept,
        tuples,
        packed[0].as_ref(),
        fee,
        table,
    )?;
    if t.branches(q) != 2 {
        return Ok(left);
    }
    let right = add_branch(
        room,
        t,
        s,
        q,
        front,
        1,
        level,
        kept,
        tuples,
        packed[1].as_ref(),
        fee,
        table,
    )?;
    join_lists(t.alloc, t, q, level, left, right)
}
