//! A packet's way into the operators of a branch.
ghost use Rattle.std.specs.Prelude.{◌≡◌, ◌++◌, ◌∷◌, [], List, OnOk};
ghost use Rattle.sn_base.specs.Groups.{Row};
ghost use Rattle.sn_ops.specs.Passing.{CanTake};
ghost use Rattle.sn_ops.specs.Standing.{Stands};

use crate::seen::{Passage, Seen};
use crate::take::take;
use sn_base::any_row::AnyRow;
use sn_base::memory::Memory;
use sn_base::row_seq::RowSeq;
use sn_types::packet::PacketRow;
use sn_types::typed_op::TOp;

/// Takes a packet row through operators as `take` takes a row; `row` changes on the way. None is made of it for the filters
/// at their front, nor for a map after these.
pub fn start<R: AnyRow>(
    ops: &[TOp],
    seen: &mut [Seen<R>],
    level: u32,
    packet: &PacketRow<'_, R::Number>,
    row: &mut R,
    out: &mut RowSeq<R>,
) -> Result<(), Memory>
    requires { CanTake level ops.now seen.old packet.now }
    ensures { OnOk result ((rows : List Row) → Stands level ops.now seen.old rows out.old → Stands level ops.now seen.new (rows ++ packet.now ∷ []) out.new) }
{
    let Some((op, following)) = ops.split_first() else {
        packet.put_into(row);
        return out.push(row);
    };
    let Some((first, later)) = seen.split_first_mut() else {
        unreachable!();
    };
    match first.begin(op, level, packet, row)? {
        Passage::Same => start(following, later, level, packet, row, out),
        Passage::Other => take(following, later, level, row, out),
        Passage::Stays => Ok(()),
    }
}
