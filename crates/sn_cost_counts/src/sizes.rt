//! The first distinct or reduce, with registers of each size.
ghost use Rattle.std.specs.Prelude.{◌≡◌, ◌*◌, ◌≤◌, All, length, map, option_copied, true, IfOk};
ghost use Rattle.sn_base.specs.Operators.{apply};
ghost use Rattle.sn_chain.specs.Limits.{largest_register};
ghost use Rattle.sn_cost_counts.specs.Flows.{starting, stepped};
ghost use Rattle.sn_cost_counts.specs.Shared.{flows_in, is_distinct};
ghost use Rattle.sn_cost_tally.specs.Weighed.{AreWeights, weighed};
ghost use Rattle.sn_ops.specs.Flow.{Fits};
ghost use Rattle.sn_types.specs.Cuts.{is_stateful};
ghost use Rattle.sn_types.specs.Values.{op_at};
ghost use Rattle.sn_windows.specs.Blocks.{most_records};

use crate::grouped::reduce;
use crate::once::distinct;
use crate::shared::SharedOf;
use sn_base::any_row::AnyRow;
use sn_base::memory::Memory;
use sn_base::row_seq::RowSeq;
use sn_cost_tally::room::Room;
use sn_types::typed_op::TOp;

/// Rows after a distinct or a reduce that is the first: those with no register, and for each size which of them have a home. Where there are
/// weights, each row stands for as many as its weight says.
pub(crate) fn first<R: AnyRow>(
    room: &mut Room,
    op: &TOp,
    depth: u32,
    slots: &[u32],
    rows: &RowSeq<R>,
    weights: Option<&[u64]>,
) -> Result<SharedOf<R>, Memory>
    requires stateful { is_stateful op.now ≡ true }
    requires most_depth { depth ≤ 4 }
    requires sizes { All (λ size. (1 ≤ size) × (size ≤ largest_register)) slots.now }
    requires fits { Fits op.now rows.now }
    requires weights { AreWeights rows.now (option_copied weights) }
    requires few { length (weighed rows.now (option_copied weights)) ≤ most_records }
    ensures rows { IfOk result (λ shared. shared.rows ≡ apply (op_at 0 op.now) (weighed rows.now (option_copied weights.entry))) }
    ensures distinct { IfOk result (λ shared. shared.distinct ≡ is_distinct op.now) }
    ensures flows { IfOk result (λ shared. flows_in shared ≡ map (λ size. stepped depth size (op_at 0 op.now) (starting (weighed rows.now (option_copied weights.entry)))) slots.now) }
{
    match op {
        TOp::Distinct => distinct(room, depth, slots, rows, weights),
        TOp::Reduce(r) => reduce(room, r, depth, slots, rows, weights),
        TOp::Filter(_) | TOp::Map(_) => unreachable!(),
    }
}
