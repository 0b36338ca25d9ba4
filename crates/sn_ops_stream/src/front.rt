//! The filters at the front of a branch, as conditions on fields.
ghost use Rattle.std.specs.Prelude.{◌≡◌, ℕ, List, Bool, ◌&&◌, ◌==◌, IfOk, IfSome, take, if◌then◌else◌};
ghost use Rattle.std.specs.List.{find, list_all};
ghost use Rattle.sn_types.specs.Typed.{is_field, packet_row};
ghost use Rattle.sn_types.specs.Values.{constant_at, holds};
ghost use Rattle.sn_lanes_narrow.specs.Marks.{asks, asks_all};
ghost use Rattle.sn_ops_stream.specs.Fronts.{IsFront};

use sn_base::memory::Memory;
use sn_fields::field::Field;
use sn_lanes_narrow::condition::Condition;
use sn_types::evaluate::constant_at;
use sn_types::packet::{Packets, is_field};
use sn_types::typed_op::{TCond, TOp};

/// A condition on a column of packet rows as one on a field, where the column is the field as it stands: `None` where it may be masked.
fn condition_of(packets: &Packets<'_>, cond: &TCond) -> Option<Condition>
    ensures { IfSome result (λ c. (tuple : List ℕ) → holds packets.now.level cond.now (packet_row packets.now.refined packets.now.level packets.now.fields.now tuple) ≡ asks c tuple) }
{
    let field = *packets.fields.get(cond.col as usize)?;
    if packets.masking != 0 && is_field(packets.refined, field) {
        return None;
    }
    Some(Condition {
        field,
        and: cond.and,
        cmp: cond.cmp,
        constant: constant_at(packets.level, cond.relaxed.as_slice(), cond.own),
    })
}

/// Adds the conditions of a filter, where each is one on a field: the answer says whether they are. Where they aren't, none is added.
fn add_filter(
    packets: &Packets<'_>,
    conds: &[TCond],
    conditions: &mut Vec<Condition>,
) -> Result<bool, Memory>
    ensures { IfOk result (λ added. (tuple : List ℕ) → asks_all conditions.new.items tuple
        ≡ (if added then asks_all conditions.old.items tuple && list_all (λ c. holds packets.now.level c (packet_row packets.now.refined packets.now.level packets.now.fields.now tuple)) conds.now else asks_all conditions.old.items tuple)) }
{
    let before = conditions.len();
    for cond in conds {
        match condition_of(packets, cond) {
            Some(condition) => conditions.push(condition)?,
            None => {
                conditions.truncate(before);
                return Ok(false);
            }
        }
    }
    Ok(true)
}

/// How many operators at the front of a branch are filters whose conditions are on fields as they stand. Their conditions are
/// `conditions` then, whatever these were before.
pub(crate) fn front_into(
    packets: &Packets<'_>,
    ops: &[TOp],
    conditions: &mut Vec<Condition>,
) -> Result<usize, Memory>
    ensures { IfOk result (λ front. IsFront packets.now.refined packets.now.level packets.now.fields.now ops.now front conditions.new.items) }
{
    conditions.clear();
    for (place, op) in ops.iter().enumerate() {
        let TOp::Filter(conds) = op else {
            return Ok(place);
        };
        if !add_filter(packets, conds.as_slice(), conditions)? {
            return Ok(place);
        }
    }
    Ok(ops.len())
}
