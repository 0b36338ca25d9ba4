//! The counts of all settings of a prefix.
ghost use Rattle.std.specs.Prelude.{◌≡◌, ℕ, ◌+◌, ◌*◌, ◌≤◌, ◌<◌, ◌++◌, ◌∷◌, [], All, Some, None, length, map, option_map, IfOk, IfSome, if◌then◌else◌};
ghost use Rattle.std.specs.List.{AllByRecursion};
ghost use Rattle.sn_base.specs.Operators.{through};
ghost use Rattle.sn_cost_counts.specs.Coming.{ahead};
ghost use Rattle.sn_cost_counts.specs.BranchAt.{CanGo, counts_by};
ghost use Rattle.sn_cost_counts.specs.Flows.{starting};
ghost use Rattle.sn_cost_tally.specs.Weighed.{AreWeights, repeated};
ghost use Rattle.sn_cost_counts.specs.Fitting.{AllGo, Takes};
ghost use Rattle.sn_cost_counts.specs.Passing.{CanFollow, flows_of, held_by, unsplit_of};
ghost use Rattle.sn_ops.specs.Flow.{AllFit};
ghost use Rattle.sn_types.specs.Cuts.{greatest_cut};
ghost use Rattle.sn_types.specs.Values.{op_at};
ghost use Rattle.sn_chain.specs.Limits.{largest_register};
ghost use Rattle.sn_windows.specs.Blocks.{most_records};

use crate::branch_at::Registers;
use crate::passing::{Passing, PassingOf, after_registers};
use sn_base::any_row::AnyRow;
use sn_base::memory::Memory;
use sn_base::row_seq::RowSeq;
use sn_base::seq::Seq;
use sn_cost_tally::room::Room;
use sn_types::typed_op::TOp;

/// What comes of the rows of a window along a prefix.
#[derive(Drop)]
pub(crate) struct Along<R: AnyRow> {
    /// How many items are sent, for each cut and all sizes of its registers.
    pub counts: Seq<u64>,
    /// What the operators give of all rows, with no register, if that was asked for.
    pub unsplit: Option<RowSeq<R>>,
}

/// Operators at a level, and the registers that a distinct or a reduce among them may have.
#[derive(Drop)]
pub(crate) struct Steps<'a> {
    pub ops: &'a [TOp],
    /// In bits.
    pub level: u32,
    pub registers: &'a Registers<'a>,
}

/// Adds to the counts before how many items a prefix sends that ends before one of these operators or after the last, for each cut and all
/// sizes of its registers, of rows on their way; and, where they're kept, what the operators give of all rows.
fn counts_on<R: AnyRow>(
    room: &mut Room,
    steps: &Steps<'_>,
    before: Seq<u64>,
    passing: PassingOf<R>,
) -> Result<Along<R>, Memory>
    requires go { (passed : ℕ) × (passed + length steps.now.ops.now ≤ 12) × AllGo steps.now.level passed steps.now.ops.now (flows_of passing) }
    requires shape { CanFollow passing steps.now.ops.now }
    requires fits { IfSome (held_by passing) (AllFit steps.now.level steps.now.ops.now) }
    ensures counts { IfOk result (λ along. along.counts ≡ before ++ counts_by steps.now (flows_of passing)) }
    ensures unsplit { IfOk result (λ along. along.unsplit ≡ option_map (through (map (op_at steps.now.level) steps.now.ops.now)) (unsplit_of passing)) }
{
    let mut counts = before;
    let mut passing = passing;
    for op in steps.ops {
        passing.add_counts(&mut counts)?;
        passing = passing.after(
            room,
            op,
            steps.level,
            steps.registers.chain,
            steps.registers.sizes,
        )?;
    }
    passing.add_counts(&mut counts)?;
    Ok(Along {
        counts,
        unsplit: passing.into_unsplit(),
    })
}

/// Adds to the counts before how many items a prefix of these operators sends of these rows, for each cut and all sizes of its registers; and,
/// if it's asked for, what the operators give of them.
pub(crate) fn counts_along<R: AnyRow>(
    room: &mut Room,
    steps: &Steps<'_>,
    before: Seq<u64>,
    rows: RowSeq<R>,
    asked: bool,
) -> Result<Along<R>, Memory>
    requires can { CanGo steps.now rows }
    ensures counts { IfOk result (λ along. along.counts ≡ before ++ counts_by steps.now (starting rows ∷ [])) }
    ensures unsplit { IfOk result (λ along. along.unsplit ≡ (if asked then Some (through (map (op_at steps.now.level) steps.now.ops.now) rows) else None)) }
{
    counts_on(room, steps, before, Passing::Together(rows, 0, asked))
}

/// Rows that stand for several each.
#[derive(Drop)]
pub(crate) struct Repeated<R: AnyRow> {
    pub rows: RowSeq<R>,
    /// For how many each of them stands.
    pub weights: Vec<u64>,
    /// For how many all of them stand.
    pub together: u64,
}

/// The same of rows that stand for several each, where the first of the operators is a distinct or a reduce.
pub(crate) fn counts_weighed<R: AnyRow>(
    room: &mut Room,
    steps: &Steps<'_>,
    before: Seq<u64>,
    found: Repeated<R>,
    asked: bool,
) -> Result<Along<R>, Memory>
    requires first { (0 < length steps.now.ops.now) × (ahead steps.now.ops.now ≡ 0) }
    requires weights { AreWeights found.rows (Some found.weights.items) }
    requires together { found.together ≡ length (repeated found.rows found.weights.items) }
    requires can { CanGo steps.now (repeated found.rows found.weights.items) }
    ensures counts { IfOk result (λ along. along.counts ≡ before ++ counts_by steps.now (starting (repeated found.rows found.weights.items) ∷ [])) }
    ensures unsplit { IfOk result (λ along. along.unsplit ≡ (if asked then Some (through (map (op_at steps.now.level) steps.now.ops.now) (repeated found.rows found.weights.items)) else None)) }
{
    let Some((op, after)) = steps.ops.split_first() else {
        unreachable!();
    };
    let Repeated {
        rows,
        weights,
        together,
    } = found;
    let mut counts = before;
    counts.push(together)?;
    let weights = Some(weights.as_slice());
    let passing = after_registers(
        room,
        op,
        steps.registers.chain,
        steps.registers.sizes,
        rows,
        weights,
        0,
        asked,
    )?;
    let after = Steps {
        ops: after,
        level: steps.level,
        registers: steps.registers,
    };
    counts_on(room, &after, counts, passing)
}
