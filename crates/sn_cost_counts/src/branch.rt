//! The counts of a branch, and its rows.
ghost use Rattle.std.specs.Prelude.{◌≡◌, ◌≤◌, ◌<◌, ◌*◌, Some, None, length, map, option_copied, IfOk, OnOk, if◌then◌else◌};
ghost use Rattle.std.specs.List.{AllByRecursion};
ghost use Rattle.sn_base.specs.Columns.{IsOf};
ghost use Rattle.sn_base.specs.Operators.{through};
ghost use Rattle.sn_cost_counts.specs.BranchAt.{AreParts, asked_branch, packets_of, prefix_of, query_of};
ghost use Rattle.sn_cost_counts.specs.Counts.{counts_of};
ghost use Rattle.sn_cost_counts.specs.Standing.{IsPacked, PaysFor, stood_for};
ghost use Rattle.sn_types.specs.Kinds.{AreBelow};
ghost use Rattle.sn_types.specs.Typed.{end_columns, first_columns};
ghost use Rattle.sn_types.specs.Values.{op_at};
ghost use Rattle.sn_windows.specs.Blocks.{most_records};

use crate::branch_at::{BranchAt, Registers};
use crate::coming::{ahead, come_through};
use crate::counts::{Along, Repeated, Steps, counts_along, counts_weighed};
use crate::weighed::come_weighed;
use sn_base::any_row::AnyRow;
use sn_base::memory::Memory;
use sn_base::row_seq::RowSeq;
use sn_base::seq::Seq;
use sn_cost_tally::firsts::Firsts;
use sn_cost_tally::room::Room;
use sn_ops::flow::run;
use sn_types::typed_op::TOp;

/// The counts of a branch, and the rows that it gives with no switch.
#[derive(Drop)]
pub struct Counted<R: AnyRow> {
    /// How many items it sends, as `counts_of` says.
    pub counts: Seq<u64>,
    /// What all its operators give of the same packet rows.
    pub rows: RowSeq<R>,
}

/// As many counts as most branches have, for which room is taken at once.
const COMMON_COUNTS: usize = 32;

/// The operators of the longest prefix of a branch: the filters and maps before its first distinct or reduce, and those from it on.
fn parts_of<'a>(at: &BranchAt<'a>) -> (&'a [TOp], &'a [TOp])
    ensures { AreParts (asked_branch at.now) result.0.now result.1.now }
{
    let cut = at.t.max_cut(at.q, at.b) as usize;
    let (ops, _) = at.t.operators(at.q, at.b).split_at(cut);
    ops.split_at(ahead(ops))
}

/// What comes of the packet rows of the tuples that are kept along the longest prefix of a branch, each by itself. They go through the filters and maps
/// before the first distinct or reduce one by one, and no list is made of them before.
fn along_all<R: AnyRow>(
    room: &mut Room,
    at: &BranchAt<'_>,
    registers: &Registers<'_>,
    asked: bool,
) -> Result<Along<R>, Memory>
    requires below { AreBelow R.Number.limit (asked_branch at.now).fields }
    ensures counts { IfOk result (λ along. along.counts ≡ counts_of (asked_branch at.now) at.now.level registers.now.chain registers.now.sizes.now (packets_of at.now at.now.tuples.now)) }
    ensures small { IfOk result (λ along. AllByRecursion (λ n. n ≤ 13 * most_records) along.counts) }
    ensures unsplit { IfOk result (λ along.
        along.unsplit ≡ (if asked then Some (through (map (op_at at.now.level) (prefix_of (asked_branch at.now))) (packets_of at.now at.now.tuples.now)) else None)) }
    ensures columns { OnOk result (AllByRecursion (IsOf (first_columns (asked_branch at.now))) (packets_of at.now at.now.tuples.now)) }
{
    let (front, rest) = parts_of(at);
    let found = come_through(room.alloc, at, front)?;
    let mut counts = Seq::from_vec(Vec::with_capacity(room.alloc, COMMON_COUNTS)?);
    found.reached.add_counts(front, &mut counts)?;
    let steps = Steps {
        ops: rest,
        level: at.level,
        registers,
    };
    counts_along(room, &steps, counts, found.rows, asked)
}

/// The same, where tuples that are alike for the branch are taken together: of the packet rows of one of them each, as often as `firsts`
/// says.
fn along_packed<R: AnyRow>(
    room: &mut Room,
    at: &BranchAt<'_>,
    registers: &Registers<'_>,
    firsts: &Firsts,
    asked: bool,
) -> Result<Along<R>, Memory>
    requires below { AreBelow R.Number.limit (asked_branch at.now).fields }
    requires firsts { PaysFor (query_of at.now) at.now.b at.now.tuples.now firsts.now }
    ensures counts { IfOk result (λ along. along.counts ≡ counts_of (asked_branch at.now) at.now.level registers.now.chain registers.now.sizes.now (packets_of at.now (stood_for at.now.tuples.now firsts.now))) }
    ensures small { IfOk result (λ along. AllByRecursion (λ n. n ≤ 13 * most_records) along.counts) }
    ensures unsplit { IfOk result (λ along.
        along.unsplit ≡ (if asked then Some (through (map (op_at at.now.level) (prefix_of (asked_branch at.now))) (packets_of at.now (stood_for at.now.tuples.now firsts.now))) else None)) }
    ensures columns { OnOk result (AllByRecursion (IsOf (first_columns (asked_branch at.now))) (packets_of at.now (stood_for at.now.tuples.now firsts.now))) }
{
    let (front, rest) = parts_of(at);
    let found = come_weighed(room.alloc, at, firsts, front)?;
    let mut counts = Seq::from_vec(Vec::with_capacity(room.alloc, COMMON_COUNTS)?);
    let together = found.reached.add_counts(front, &mut counts)?;
    let found = Repeated {
        rows: found.rows,
        weights: found.weights,
        together,
    };
    let steps = Steps {
        ops: rest,
        level: at.level,
        registers,
    };
    counts_weighed(room, &steps, counts, found, asked)
}

/// What comes of the packet rows of the tuples that are kept along the longest prefix of a branch.
fn along_prefix<R: AnyRow>(
    room: &mut Room,
    at: &BranchAt<'_>,
    registers: &Registers<'_>,
    packed: Option<&Firsts>,
    asked: bool,
) -> Result<Along<R>, Memory>
    requires below { AreBelow R.Number.limit (asked_branch at.now).fields }
    requires packed { IsPacked (query_of at.now) at.now.b at.now.tuples.now (option_copied packed) }
    ensures counts { IfOk result (λ along. along.counts ≡ counts_of (asked_branch at.now) at.now.level registers.now.chain registers.now.sizes.now (packets_of at.now at.now.tuples.now)) }
    ensures small { IfOk result (λ along. AllByRecursion (λ n. n ≤ 13 * most_records) along.counts) }
    ensures unsplit { IfOk result (λ along.
        along.unsplit ≡ (if asked then Some (through (map (op_at at.now.level) (prefix_of (asked_branch at.now))) (packets_of at.now at.now.tuples.now)) else None)) }
    ensures columns { OnOk result (AllByRecursion (IsOf (first_columns (asked_branch at.now))) (packets_of at.now at.now.tuples.now)) }
{
    match packed {
        Some(firsts) => along_packed(room, at, registers, firsts, asked),
        None => along_all(room, at, registers, asked),
    }
}

/// How many items a branch at a level sends of the packet rows of the tuples that are kept, for each cut and all sizes of its registers: by
/// cut, and within a cut by the sizes of the stateful operators before it, in lexicographic order of `registers.sizes`. Tuples that are alike
/// for the branch may be taken together: `packed` are the first of them.
///
/// # Errors
/// Out of memory.
pub fn counts_of<R: AnyRow>(
    room: &mut Room,
    at: &BranchAt<'_>,
    registers: &Registers<'_>,
    packed: Option<&Firsts>,
) -> Result<Seq<u64>, Memory>
    requires below { AreBelow R.Number.limit (asked_branch at.now).fields }
    requires packed { IsPacked (query_of at.now) at.now.b at.now.tuples.now (option_copied packed) }
    ensures counts { IfOk result (λ counts. counts ≡ counts_of (asked_branch at.now) at.now.level registers.now.chain registers.now.sizes.now (packets_of at.now at.now.tuples.now)) }
    ensures small { IfOk result (λ counts. AllByRecursion (λ n. n ≤ 13 * most_records) counts) }
{
    let along = along_prefix::<R>(room, at, registers, packed, false)?;
    Ok(along.counts)
}

/// `counts_of`, and beside it the rows that the branch gives of these packet rows with no switch. They cost little more than the
/// counts alone: the first distinct or reduce finds them by the way, and only the operators after it are run for them.
///
/// # Errors
/// Out of memory.
pub fn counts_and_rows<R: AnyRow>(
    room: &mut Room,
    at: &BranchAt<'_>,
    registers: &Registers<'_>,
    packed: Option<&Firsts>,
) -> Result<Counted<R>, Memory>
    requires below { AreBelow R.Number.limit (asked_branch at.now).fields }
    requires packed { IsPacked (query_of at.now) at.now.b at.now.tuples.now (option_copied packed) }
    ensures counts { IfOk result (λ c. c.counts ≡ counts_of (asked_branch at.now) at.now.level registers.now.chain registers.now.sizes.now (packets_of at.now at.now.tuples.now)) }
    ensures small { IfOk result (λ c. AllByRecursion (λ n. n ≤ 13 * most_records) c.counts) }
    ensures rows { IfOk result (λ c. c.rows ≡ through (map (op_at at.now.level) (asked_branch at.now).ops) (packets_of at.now at.now.tuples.now)) }
    ensures columns { IfOk result (λ c. AllByRecursion (IsOf (end_columns (asked_branch at.now))) c.rows) }
{
    let Along { counts, unsplit } = along_prefix(room, at, registers, packed, true)?;
    let Some(unsplit) = unsplit else {
        unreachable!();
    };
    let cut = at.t.max_cut(at.q, at.b) as usize;
    let (_, rest) = at.t.operators(at.q, at.b).split_at(cut);
    let rows = run(room.alloc, room.seed, rest, at.level, unsplit)?;
    Ok(Counted { counts, rows })
}
