//! A reduce, with registers of each size.
ghost use Rattle.std.specs.Prelude.{◌≡◌, ◌≤◌, All, false, length, map, option_copied, IfOk};
ghost use Rattle.sn_base.specs.Groups.{columns_at, once, same_row};
ghost use Rattle.sn_base.specs.Operators.{apply};
ghost use Rattle.sn_chain.specs.Limits.{largest_register};
ghost use Rattle.sn_cost_counts.specs.Flows.{starting, stepped};
ghost use Rattle.sn_cost_counts.specs.Shared.{flows_in};
ghost use Rattle.sn_cost_seats.specs.Tallies.{tallied};
ghost use Rattle.sn_ops.specs.Flow.{ReduceFits};
ghost use Rattle.sn_cost_tally.specs.Weighed.{AreWeights, weighed};
ghost use Rattle.sn_types.specs.Values.{op_at};
ghost use Rattle.sn_windows.specs.Blocks.{most_records};

use crate::shared::{Shared, SharedOf, homes_of};
use sn_base::any_row::AnyRow;
use sn_base::memory::Memory;
use sn_base::row_seq::RowSeq;
use sn_cost_tally::groups::{Groups, group_rows};
use sn_cost_tally::room::Room;
use sn_types::typed_op::{TOp, TReduce};

/// Groups rows. Where there are weights, each row stands for as many as its weight says.
fn groups_of<R: AnyRow>(
    room: &Room,
    rows: &RowSeq<R>,
    weights: Option<&[u64]>,
    r: &TReduce,
) -> Result<Groups<R>, Memory>
    requires weights { AreWeights rows.now (option_copied weights) }
    requires few { length (weighed rows.now (option_copied weights)) ≤ most_records }
    requires fits { ReduceFits r.now rows.now }
    ensures keys { IfOk result (λ groups. groups.tally.keys ≡ once same_row (map (columns_at r.now.keys) (weighed rows.now (option_copied weights.entry)))) }
    ensures times { IfOk result (λ groups. groups.tally.times.items ≡ tallied (map (columns_at r.now.keys) (weighed rows.now (option_copied weights.entry)))) }
    ensures rows { IfOk result (λ groups. groups.rows ≡ apply (op_at 0 (TOp.Reduce r.now)) (weighed rows.now (option_copied weights.entry))) }
{
    group_rows(
        room.alloc,
        room.seed,
        rows,
        weights,
        r.keys.as_slice(),
        r.value,
        r.fold,
    )
}

/// Rows after a reduce: each key with the fold of its values, and for each size which of them have a home. Where there are
/// weights, each row stands for as many as its weight says.
pub(crate) fn reduce<R: AnyRow>(
    room: &mut Room,
    r: &TReduce,
    depth: u32,
    slots: &[u32],
    rows: &RowSeq<R>,
    weights: Option<&[u64]>,
) -> Result<SharedOf<R>, Memory>
    requires most_depth { depth ≤ 4 }
    requires sizes { All (λ size. (1 ≤ size) × (size ≤ largest_register)) slots.now }
    requires fits { ReduceFits r.now rows.now }
    requires weights { AreWeights rows.now (option_copied weights) }
    requires few { length (weighed rows.now (option_copied weights)) ≤ most_records }
    ensures rows { IfOk result (λ shared. shared.rows ≡ apply (op_at 0 (TOp.Reduce r.now)) (weighed rows.now (option_copied weights.entry))) }
    ensures distinct { IfOk result (λ shared. shared.distinct ≡ false) }
    ensures flows { IfOk result (λ shared. flows_in shared ≡ map (λ size. stepped depth size (op_at 0 (TOp.Reduce r.now)) (starting (weighed rows.now (option_copied weights.entry)))) slots.now) }
{
    let groups = groups_of(room, rows, weights, r)?;
    let homes = homes_of(room, depth, slots, &groups.tally)?;
    Ok(Shared {
        rows: groups.rows,
        homes,
        distinct: false,
    })
}
