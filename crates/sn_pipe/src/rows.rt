//! What the packet rows of a pipe have in common.
ghost use Rattle.std.specs.Prelude.{◌≡◌, ◌≤◌, ℕ, List, length, map, IfOk, IfSome};
ghost use Rattle.std.proofs.Props.{props};
ghost use Rattle.sn_base.specs.Columns.{IsOf};
ghost use Rattle.sn_fields.specs.Fields.{width_of};
ghost use Rattle.sn_types.specs.Kinds.{AreBelow};
ghost use Rattle.sn_types.specs.Typed.{packet_row};
ghost use Rattle.sn_types_faults.specs.Columns.{field_column};

use sn_base::memory::Memory;
use sn_base::number::Number;
use sn_base::seq::Seq;
use sn_fields::field::Field;
use sn_fields::tuple::Tuple;
use sn_types::packet::{PacketRow, Packets};
use std::alloc::Global;

/// What is the same for the packet rows of all tuples of a pipe. The pipe holds it beside the query that it is of, so that none of it is
/// looked up for each tuple.
#[derive(Drop)]
pub struct PacketRows {
    /// The refinement field.
    pub refined: Option<Field>,
    /// The level, to which it is masked.
    pub level: u32,
    /// The level, or 0, which masks nothing, where the level keeps all bits of the field.
    pub masking: u32,
    /// The fields of the rows.
    pub fields: Seq<Field>,
    ghost few: { length fields ≤ 8 },
    ghost within: { IfSome refined (λ other. masking ≤ width_of other) } by { Prim.hlevel props },
    ghost same: { (tuple : List ℕ) → packet_row refined masking fields tuple ≡ packet_row refined level fields tuple },
}

impl PacketRows {
    /// What these packet rows have in common.
    pub(crate) fn of(alloc: Global, packets: &Packets<'_>) -> Result<PacketRows, Memory>
        ensures refined { IfOk result (λ rows. rows.refined ≡ packets.now.refined) }
        ensures level { IfOk result (λ rows. rows.level ≡ packets.now.level) }
        ensures fields { IfOk result (λ rows. rows.fields ≡ packets.now.fields.now) }
    {
        let fields = Seq::from_slice(alloc, packets.fields)?;
        Ok(PacketRows {
            refined: packets.refined,
            level: packets.level,
            masking: packets.masking,
            fields,
        })
    }

    /// The packet row of a tuple, each number of its field's width. No row is made of it.
    #[inline(always)]
    pub(crate) fn row<'a, N: Number>(&'a self, tuple: &'a Tuple) -> PacketRow<'a, N>
        requires { AreBelow N.limit self.now.fields }
        ensures row { result ≡ packet_row self.now.refined self.now.level self.now.fields tuple.now }
        ensures columns { IsOf (map field_column self.now.fields) result }
    {
        let packets = Packets {
            refined: self.refined,
            level: self.level,
            masking: self.masking,
            fields: self.fields.as_slice(),
        };
        packets.row(tuple)
    }
}
