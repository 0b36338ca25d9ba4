//! Rows on their way through the operators of a prefix.
ghost use Rattle.std.specs.Prelude.{◌≡◌, ◌*◌, ℕ, suc, List, ◌≤◌, ◌<◌, ◌∷◌, ◌++◌, All, length, map, replicate, option_copied, option_map, Some, None, true, IfOk, IfSome, OnOk, if◌then◌else◌};
ghost use Rattle.sn_base.specs.Operators.{apply};
ghost use Rattle.sn_cost_counts.specs.Fitting.{AllGo};
ghost use Rattle.sn_cost_counts.specs.Flows.{counted, starting, stepped, wider};
ghost use Rattle.sn_cost_counts.specs.Shared.{flows_in};
ghost use Rattle.sn_cost_counts.specs.Passing.{CanFollow, flows_of, held_by, unsplit_of};
ghost use Rattle.sn_cost_tally.specs.Weighed.{AreWeights, weighed};
ghost use Rattle.sn_ops.specs.Flow.{Fits};
ghost use Rattle.sn_types.specs.declared.typed_op.TOp.{TOp};
ghost use Rattle.sn_types.specs.Cuts.{cut_after_distinct, filters_ahead, greatest_cut, is_stateful};
ghost use Rattle.sn_types.specs.Values.{op_at};
ghost use Rattle.sn_chain.specs.Limits.{largest_register};
ghost use Rattle.sn_windows.specs.Blocks.{most_records};

use crate::again::by_marks;
use crate::filters::filter_each;
use crate::flow::{Flow, FlowOf};
use crate::shared::{Shared, SharedOf, add_marked, none_over, passed, repeated};
use crate::sizes::first;
use sn_base::any_row::AnyRow;
use sn_base::memory::Memory;
use sn_base::row_seq::RowSeq;
use sn_base::seq::Seq;
use sn_cost_tally::room::Room;
use sn_ops::flow::operate;
use sn_types::cuts::is_stateful;
use sn_types::typed_op::TOp;

/// The rows of a window after some operators of a prefix. Contracts see any list of rows as what it holds, as in a `Flow`.
#[derive(Drop)]
pub(crate) enum Passing<L> {
    /// As long as no register overflows: the same for all lists of sizes, of which there are this many after the first. Whether
    /// they're to be kept with no register, too.
    Together(L, usize, bool),
    /// After the first operator at which one overflowed, and filters and maps after it: those with no register, held once, and
    /// for each list of sizes which of them have a home. Whether they're to be kept with no register, too.
    Marked(Shared<L>, bool),
    /// After a reduce that follows, and filters after it: those for each list of sizes, and, where they're kept, what the operators
    /// give of all rows, with no register.
    Apart(Vec<Flow<L>>, Option<L>),
}

/// Those whose rows are of a kind.
pub(crate) type PassingOf<R> = Passing<RowSeq<R>>;

/// Adds how many items each of these makes.
fn add_each<R: AnyRow>(flows: &[FlowOf<R>], counts: &mut Seq<u64>) -> Result<(), Memory>
    requires sent { All (λ f. f.sent ≤ 13 * most_records) flows.now }
    requires few { All (λ f. length f.rows ≤ most_records) flows.now }
    ensures { OnOk result (counts.new ≡ counts.old ++ map counted flows.now) }
{
    for flow in flows {
        counts.push(flow.count())?;
    }
    Ok(())
}

/// Adds a count this many times.
fn add_repeated_count(count: u64, times: usize, counts: &mut Seq<u64>) -> Result<(), Memory>
    ensures { OnOk result (counts.new ≡ counts.old ++ replicate times count) }
{
    for _ in 0..times {
        counts.push(count)?;
    }
    Ok(())
}

/// What an operator gives of all rows, where they're kept.
fn after_all<R: AnyRow>(
    room: &Room,
    op: &TOp,
    level: u32,
    unsplit: Option<RowSeq<R>>,
) -> Result<Option<RowSeq<R>>, Memory>
    requires { IfSome unsplit (Fits op.now) }
    ensures { IfOk result (λ next. next ≡ option_map (apply (op_at level op.now)) unsplit) }
{
    let Some(rows) = unsplit else {
        return Ok(None);
    };
    let next = operate(room.alloc, room.seed, op, level, &rows)?;
    Ok(Some(next))
}

/// How many lists of sizes stand after the first, where each of this many after the first, and the first, goes on with this many
/// sizes. None where there is no list, or where there are more than a number counts.
fn longer(more: usize, sizes: usize) -> Option<usize>
    ensures { IfSome result (λ after. suc after ≡ suc more * sizes) }
{
    more.checked_add(1)?.checked_mul(sizes)?.checked_sub(1)
}

/// What a distinct or a reduce gives of one row at most.
fn of_one<R: AnyRow>(room: &Room, op: &TOp, rows: RowSeq<R>) -> Result<RowSeq<R>, Memory>
    requires stateful { is_stateful op.now ≡ true }
    requires fits { Fits op.now rows }
    requires one { length rows ≤ 1 }
    ensures { IfOk result (λ all. all ≡ apply (op_at 0 op.now) rows) }
{
    match op {
        TOp::Distinct => Ok(rows),
        _ => operate(room.alloc, room.seed, op, 0, &rows),
    }
}

/// Rows after a distinct or a reduce, before which they're the same for this many lists of sizes after the first, and for the first.
/// They stay the same where no register overflows. What it gives of all rows comes by the way, where it finds the distinct keys. The same
/// registers overflow for each list of sizes before, so that the marks are copied for them. Where there are weights, each row stands for as many as its weight says.
pub(crate) fn after_registers<R: AnyRow>(
    room: &mut Room,
    op: &TOp,
    depth: u32,
    slots: &[u32],
    rows: RowSeq<R>,
    weights: Option<&[u64]>,
    more: usize,
    kept: bool,
) -> Result<PassingOf<R>, Memory>
    requires stateful { is_stateful op.now ≡ true }
    requires most_depth { depth ≤ 4 }
    requires sizes { All (λ size. (1 ≤ size) × (size ≤ largest_register)) slots.now }
    requires fits { Fits op.now rows }
    requires weights { AreWeights rows (option_copied weights) }
    requires few { length (weighed rows (option_copied weights)) ≤ most_records }
    ensures flows { IfOk result (λ next. flows_of next ≡ wider depth 0 slots.now op.now (starting (weighed rows (option_copied weights.entry)) ∷ replicate more (starting (weighed rows (option_copied weights.entry))))) }
    ensures unsplit { IfOk result (λ next. unsplit_of next ≡ (if kept then Some (apply (op_at 0 op.now) (weighed rows (option_copied weights.entry))) else None)) }
    ensures held { IfOk result (λ next. held_by next ≡ Some (apply (op_at 0 op.now) (weighed rows (option_copied weights.entry)))) }
    ensures shape { IfOk result (λ next. (ahead : List TOp) → length (op.now ∷ ahead) ≤ greatest_cut (op.now ∷ ahead) → CanFollow next ahead) }
{
    let Shared {
        rows,
        homes,
        distinct,
    } = first(room, op, depth, slots, &rows, weights)?;
    if none_over(homes.as_slice()) {
        if let Some(after) = longer(more, homes.len()) {
            return Ok(Passing::Together(rows, after, kept));
        }
    }
    let homes = repeated(room.alloc, homes, more)?;
    let shared = Shared {
        rows,
        homes,
        distinct,
    };
    Ok(Passing::Marked(shared, kept))
}

/// Rows after a distinct or a reduce that are one row at most, before which they're the same for this many lists of sizes after the
/// first, and for the first: a row alone finds a home in a register of any size.
fn after_one<R: AnyRow>(
    room: &mut Room,
    op: &TOp,
    depth: u32,
    slots: &[u32],
    rows: RowSeq<R>,
    more: usize,
    kept: bool,
) -> Result<PassingOf<R>, Memory>
    requires stateful { is_stateful op.now ≡ true }
    requires some_depth { 1 ≤ depth }
    requires most_depth { depth ≤ 4 }
    requires sizes { All (λ size. (1 ≤ size) × (size ≤ largest_register)) slots.now }
    requires fits { Fits op.now rows }
    requires one { length rows ≤ 1 }
    ensures flows { IfOk result (λ next. flows_of next ≡ wider depth 0 slots.now op.now (starting rows ∷ replicate more (starting rows))) }
    ensures unsplit { IfOk result (λ next. unsplit_of next ≡ (if kept then Some (apply (op_at 0 op.now) rows) else None)) }
    ensures held { IfOk result (λ next. held_by next ≡ Some (apply (op_at 0 op.now) rows)) }
    ensures shape { IfOk result (λ next. (ahead : List TOp) → length (op.now ∷ ahead) ≤ greatest_cut (op.now ∷ ahead) → CanFollow next ahead) }
{
    match longer(more, slots.len()) {
        Some(after) => Ok(Passing::Together(of_one(room, op, rows)?, after, kept)),
        None => after_registers(room, op, depth, slots, rows, None, more, kept),
    }
}

/// Rows after an operator, before which they're the same for this many lists of sizes after the first, and for the first.
fn after_same<R: AnyRow>(
    room: &mut Room,
    op: &TOp,
    level: u32,
    depth: u32,
    slots: &[u32],
    rows: RowSeq<R>,
    more: usize,
    kept: bool,
) -> Result<PassingOf<R>, Memory>
    requires most_depth { depth ≤ 4 }
    requires sizes { All (λ size. (1 ≤ size) × (size ≤ largest_register)) slots.now }
    requires fits { Fits op.now rows }
    requires few { length rows ≤ most_records }
    ensures flows { IfOk result (λ next. flows_of next ≡ wider depth level slots.now op.now (starting rows ∷ replicate more (starting rows))) }
    ensures unsplit { IfOk result (λ next. unsplit_of next ≡ (if kept then Some (apply (op_at level op.now) rows) else None)) }
    ensures held { IfOk result (λ next. held_by next ≡ Some (apply (op_at level op.now) rows)) }
    ensures shape { IfOk result (λ next. (ahead : List TOp) → length (op.now ∷ ahead) ≤ greatest_cut (op.now ∷ ahead) → CanFollow next ahead) }
{
    if !is_stateful(op) {
        let next = operate(room.alloc, room.seed, op, level, &rows)?;
        Ok(Passing::Together(next, more, kept))
    } else if rows.len() <= 1 && depth > 0 {
        after_one(room, op, depth, slots, rows, more, kept)
    } else {
        after_registers(room, op, depth, slots, rows, None, more, kept)
    }
}

/// Rows for each list of sizes, and all rows, after a filter.
fn after_apart<R: AnyRow>(
    room: &Room,
    op: &TOp,
    level: u32,
    flows: Vec<FlowOf<R>>,
    unsplit: Option<RowSeq<R>>,
) -> Result<PassingOf<R>, Memory>
    requires shape { (ahead : List TOp) × (length (op.now ∷ ahead) ≤ filters_ahead (op.now ∷ ahead)) }
    requires fits_each { All (λ f. Fits op.now f.rows) flows.items }
    requires fits { IfSome unsplit (Fits op.now) }
    ensures flows { IfOk result (λ next. flows_of next ≡ map (stepped 0 0 (op_at level op.now)) flows.items) }
    ensures unsplit { IfOk result (λ next. unsplit_of next ≡ option_map (apply (op_at level op.now)) unsplit) }
    ensures held { IfOk result (λ next. held_by next ≡ option_map (apply (op_at level op.now)) unsplit) }
    ensures shape { IfOk result (λ next. (ahead : List TOp) → length (op.now ∷ ahead) ≤ filters_ahead (op.now ∷ ahead) → CanFollow next ahead) }
{
    match op {
        TOp::Filter(conds) => {
            let mut flows = flows;
            filter_each(room.alloc, conds.as_slice(), level, flows.as_mut_slice())?;
            let unsplit = after_all(room, op, level, unsplit)?;
            Ok(Passing::Apart(flows, unsplit))
        }
        TOp::Map(_) | TOp::Distinct | TOp::Reduce(_) => unreachable!(),
    }
}

/// Shared rows after an operator. They stay shared after a filter or a map, so that each row goes through it once for all lists of sizes,
/// whether or not it has a home there. At a reduce after a distinct each list of sizes has other rows in its registers: they go
/// apart, and each row's key is looked up once for all of them.
fn after_marked<R: AnyRow>(
    room: &mut Room,
    op: &TOp,
    level: u32,
    depth: u32,
    slots: &[u32],
    shared: SharedOf<R>,
    kept: bool,
) -> Result<PassingOf<R>, Memory>
    requires most_depth { depth ≤ 4 }
    requires sizes { All (λ size. (1 ≤ size) × (size ≤ largest_register)) slots.now }
    requires go { (passed : ℕ) × (ahead : List TOp) × (passed < 12) × AllGo level passed (op.now ∷ ahead) (flows_in shared) }
    requires shape { (ahead : List TOp) × (length (op.now ∷ ahead) ≤ (if shared.distinct then cut_after_distinct (op.now ∷ ahead) else filters_ahead (op.now ∷ ahead))) }
    requires fits { Fits op.now shared.rows }
    ensures flows { IfOk result (λ next. flows_of next ≡ wider depth level slots.now op.now (flows_in shared)) }
    ensures unsplit { IfOk result (λ next. unsplit_of next ≡ option_map (apply (op_at level op.now)) (if kept then Some shared.rows else None)) }
    ensures held { IfOk result (λ next. IfSome (held_by next) (λ rows. Some (apply (op_at level op.now) shared.rows) ≡ Some rows)) }
    ensures shape { IfOk result (λ next. (ahead : List TOp) → length (op.now ∷ ahead) ≤ (if shared.distinct then cut_after_distinct (op.now ∷ ahead) else filters_ahead (op.now ∷ ahead)) → CanFollow next ahead) }
{
    match op {
        TOp::Filter(_) | TOp::Map(_) => {
            let next = passed(room.alloc, op, level, shared)?;
            Ok(Passing::Marked(next, kept))
        }
        TOp::Reduce(r) => {
            let flows = by_marks(room, r, depth, slots, &shared)?;
            let unsplit = if kept { Some(shared.rows) } else { None };
            let unsplit = after_all(room, op, level, unsplit)?;
            Ok(Passing::Apart(flows, unsplit))
        }
        TOp::Distinct => unreachable!(),
    }
}

impl<R: AnyRow> Passing<RowSeq<R>> {
    /// Adds how many items are sent where the prefix ends here, for each list of sizes.
    pub(crate) fn add_counts(&self, counts: &mut Seq<u64>) -> Result<(), Memory>
        requires sent { All (λ f. f.sent ≤ 13 * most_records) (flows_of self.now) }
        requires few { All (λ f. length f.rows ≤ most_records) (flows_of self.now) }
        ensures { OnOk result (counts.new ≡ counts.old ++ map counted (flows_of self.now)) }
    {
        match self {
            Passing::Together(rows, more, _) => {
                let count = rows.len() as u64;
                counts.push(count)?;
                add_repeated_count(count, *more, counts)
            }
            Passing::Marked(shared, _) => {
                add_marked(&shared.rows, shared.homes.as_slice(), counts)
            }
            Passing::Apart(flows, _) => add_each(flows.as_slice(), counts),
        }
    }

    /// The rows after an operator, which fits all rows as long as they're held. What is held after it comes of them.
    pub(crate) fn after(
        self,
        room: &mut Room,
        op: &TOp,
        level: u32,
        depth: u32,
        slots: &[u32],
    ) -> Result<PassingOf<R>, Memory>
        requires most_depth { depth ≤ 4 }
        requires sizes { All (λ size. (1 ≤ size) × (size ≤ largest_register)) slots.now }
        requires go { (passed : ℕ) × (ahead : List TOp) × (passed < 12) × AllGo level passed (op.now ∷ ahead) (flows_of self) }
        requires shape { (ahead : List TOp) × CanFollow self (op.now ∷ ahead) }
        requires fits { IfSome (held_by self) (Fits op.now) }
        ensures flows { IfOk result (λ next. flows_of next ≡ wider depth level slots.now op.now (flows_of self)) }
        ensures unsplit { IfOk result (λ next. unsplit_of next ≡ option_map (apply (op_at level op.now)) (unsplit_of self)) }
        ensures held { IfOk result (λ next. IfSome (held_by next) (λ rows. option_map (apply (op_at level op.now)) (held_by self) ≡ Some rows)) }
        ensures shape { IfOk result (λ next. (ahead : List TOp) → CanFollow self (op.now ∷ ahead) → CanFollow next ahead) }
    {
        match self {
            Passing::Together(rows, more, kept) => {
                after_same(room, op, level, depth, slots, rows, more, kept)
            }
            Passing::Marked(shared, kept) => {
                after_marked(room, op, level, depth, slots, shared, kept)
            }
            Passing::Apart(flows, unsplit) => { after_apart(room, op, level, flows, unsplit) }
        }
    }

    /// What the operators gave of all rows, if that was kept.
    pub(crate) fn into_unsplit(self) -> Option<RowSeq<R>>
        ensures { result ≡ unsplit_of self }
    {
        match self {
            Passing::Together(rows, _, kept) => { if kept { Some(rows) } else { None } }
            Passing::Marked(shared, kept) => { if kept { Some(shared.rows) } else { None } }
            Passing::Apart(_, unsplit) => unsplit,
        }
    }
}
