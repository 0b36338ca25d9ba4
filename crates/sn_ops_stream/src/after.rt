//! A packet's way into the operators of a branch after those at their front.
ghost use Rattle.std.specs.Prelude.{◌≡◌, ◌++◌, ◌∷◌, [], true, List, OnOk};
ghost use Rattle.sn_base.specs.Groups.{Row};
ghost use Rattle.sn_ops.specs.Passing.{CanTake};
ghost use Rattle.sn_ops.specs.Standing.{Stands};
ghost use Rattle.sn_ops_stream.specs.Fronts.{admits};

use sn_base::any_row::AnyRow;
use sn_base::memory::Memory;
use sn_base::row_seq::RowSeq;
use sn_ops::seen::Seen;
use sn_ops::start::start;
use sn_types::packet::PacketRow;
use sn_types::typed_op::TOp;

/// Takes a packet row through operators as `start` does, where the first `front` of them are filters that let it through: they
/// aren't asked.
pub(crate) fn start_after<R: AnyRow>(
    front: usize,
    ops: &[TOp],
    seen: &mut [Seen<R>],
    level: u32,
    packet: &PacketRow<'_, R::Number>,
    row: &mut R,
    out: &mut RowSeq<R>,
) -> Result<(), Memory>
    requires front { admits level front ops.now packet.now ≡ true }
    requires can { CanTake level ops.now seen.old packet.now }
    ensures { OnOk result ((rows : List Row) → Stands level ops.now seen.old rows out.old → Stands level ops.now seen.new (rows ++ packet.now ∷ []) out.new) }
{
    if front == 0 {
        return start(ops, seen, level, packet, row, out);
    }
    let Some((_first, following)) = ops.split_first() else {
        unreachable!();
    };
    let Some((_seen, later)) = seen.split_first_mut() else {
        unreachable!();
    };
    start_after(front - 1, following, later, level, packet, row, out)
}
