//! A packet's way into the stages of a pipe.
ghost use Rattle.std.specs.Prelude.{◌≡◌, ◌+◌, ◌≤◌, IfSome, IsNone, length};
ghost use Rattle.std.specs.Option.{option_map};
ghost use Rattle.sn_pipe.specs.Leading.{Leads, StopsAhead};
ghost use Rattle.sn_pipe.specs.Passing.{CanPass};
ghost use Rattle.sn_pipe.specs.Stages.{item_at, item_from, stages_after};

use crate::stage::{Passage, Stage, StageOf};
use crate::stages::pass;
use sn_base::any_row::AnyRow;
use sn_types::evaluate::passes;
use sn_types::packet::PacketRow;

/// How many filters stand at the front of these stages, where a packet row passes all of them. `None` exactly where it fails at one.
#[inline(always)]
fn leading<R: AnyRow>(
    stages: &[StageOf<R>],
    level: u32,
    packet: &PacketRow<'_, R::Number>,
) -> Option<usize>
    requires { CanPass level stages.now packet.now }
    ensures some { IfSome result (Leads level stages.now packet.now) }
    ensures none { IsNone result → StopsAhead level stages.now packet.now }
{
    for place in 0..stages.len() {
        match &stages[place] {
            Stage::Filter(conds) => {
                if !passes(conds.as_slice(), level, packet) {
                    return None;
                }
            }
            _ => return Some(place),
        }
    }
    Some(stages.len())
}

/// Takes a packet row into the first of these stages, and on as `pass` takes a row; `row` changes on the way. None is made of it for
/// a map or a reduce.
fn enter<R: AnyRow>(
    stages: &mut [StageOf<R>],
    level: u32,
    first: u8,
    packet: &PacketRow<'_, R::Number>,
    row: &mut R,
) -> Option<u8>
    requires few { first + length stages.old ≤ 12 }
    requires can { CanPass level stages.old packet.now }
    ensures item { option_map (λ i. item_at i (R.columns row.new)) result ≡ item_from level first stages.old packet.now }
    ensures stages { stages.new ≡ stages_after level stages.old packet.now }
    ensures operator { IfSome result (λ i. i ≤ 12) }
{
    let Some((stage, following)) = stages.split_first_mut() else {
        packet.put_into(row);
        return Some(first);
    };
    match stage.begin(level, packet, row) {
        Passage::Same => enter(following, level, first + 1, packet, row),
        Passage::Other => pass(following, level, first + 1, row),
        Passage::Stays => None,
        Passage::Over => {
            packet.put_into(row);
            Some(first)
        }
    }
}

/// Takes a packet row through stages as `pass` takes a row; `row` changes on the way. None is made of it for the filters
/// at their front, nor for a map or a reduce after these. The filters are gone through in one place, since most packets stop there.
#[inline(always)]
pub(crate) fn start<R: AnyRow>(
    stages: &mut [StageOf<R>],
    level: u32,
    packet: &PacketRow<'_, R::Number>,
    row: &mut R,
) -> Option<u8>
    requires few { length stages.old ≤ 12 }
    requires can { CanPass level stages.old packet.now }
    ensures item { option_map (λ i. item_at i (R.columns row.new)) result ≡ item_from level 0 stages.old packet.now }
    ensures stages { stages.new ≡ stages_after level stages.old packet.now }
    ensures operator { IfSome result (λ i. i ≤ 12) }
{
    let Some(count) = leading(stages, level, packet) else {
        return None;
    };
    let (_, rest) = stages.split_at_mut(count);
    enter(rest, level, count as u8, packet, row)
}
