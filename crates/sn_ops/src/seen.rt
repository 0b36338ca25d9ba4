//! What an operator has seen.
ghost use Rattle.std.specs.Prelude.{◌≡◌, ℕ, List, ◌≤◌, ◌<◌, ◌∷◌, [], All, length, not, slice_index, unwrap_or, IfOk, OnOk, Some, None, if◌then◌else◌};
ghost use Rattle.std.specs.List.{list_any};
ghost use Rattle.std.specs.Map.{lookup};
ghost use Rattle.sn_base.specs.AnyFold.{any_has, any_step, any_unit};
ghost use Rattle.sn_base.specs.Groups.{columns_at, same_row};
ghost use Rattle.sn_ops.specs.Passing.{CanMeet, flows, gone_as};
ghost use Rattle.sn_ops.specs.Standing.{Stands, groups_after, rows_after};

use sn_base::any_row::AnyRow;
use sn_base::memory::Memory;
use sn_base::seed::Seed;
use sn_table::rows::Rows;
use sn_table::table::Table;
use sn_types::evaluate::{folded_at, map_into, passes};
use sn_types::packet::PacketRow;
use sn_types::typed_op::{TOp, TReduce};
use std::alloc::Global;
use std::marker::Model;

/// What an operator has seen: a distinct its rows, a reduce its groups, and the others nothing.
#[derive(Drop)]
pub struct Seen<R: AnyRow> {
    rows: Rows<R>,
    groups: Table<R>,
}

impl<R: AnyRow> Model for Seen<R> {
    ghost use Rattle.sn_ops.specs.SeenStates.{SeenState, seen_code};

    ghost Value = { SeenState };

    ghost coded = { seen_code };

    ghost view = { λ a. record { rows = a.rows; groups = a.groups } };

    ghost inverse = { λ s. record { rows = s.rows; groups = s.groups } };
}

/// What becomes of a packet row at an operator.
#[derive(Clone, Copy)]
pub(crate) enum Passage {
    /// It goes on as it is.
    Same,
    /// Another row goes on.
    Other,
    /// It goes no further.
    Stays,
}

fn same_if(goes: bool) -> Passage
    ensures { (packet other : List ℕ) → gone_as result packet other ≡ (if goes then Some packet else None) }
{
    if goes { Passage::Same } else { Passage::Stays }
}

/// Adds a row's value to its key's fold.
fn add_row<R: AnyRow>(r: &TReduce, groups: &mut Table<R>, row: &R) -> Result<(), Memory>
    requires { CanMeet (TOp.Reduce r.now) groups.old.entries (R.columns row.now) }
    ensures { OnOk result (groups.new.entries ≡ groups_after (TOp.Reduce r.now) groups.old.entries (R.columns row.now)) }
{
    let value = folded_at(r.fold, row, r.value);
    groups.add_at(r.fold, row, r.keys.as_slice(), value)
}

/// What these operators have seen at first: nothing.
pub fn unseen<R: AnyRow>(alloc: Global, seed: Seed, ops: &[TOp]) -> Result<Vec<Seen<R>>, Memory>
    ensures { IfOk result (λ seen. (level : ℕ) → Stands level ops.now seen.items [] []) }
{
    let mut seen = Vec::new(alloc);
    for place in 0..ops.len() {
        if let Err(_) = seen.push(Seen::new(alloc, seed)) {
            return Err(Memory);
        }
    }
    Ok(seen)
}

/// Tells each operator to expect as many rows and groups as the one at its place has seen in `before`, the window before. Room
/// is made for them once, with the first that comes, in place of growing by doubling, and takes at most what that window took.
/// Where none comes none is made. No answer depends on it.
pub fn expect_all<R: AnyRow>(seen: &mut [Seen<R>], before: &[Seen<R>])
    ensures { seen.new ≡ seen.old }
{
    for (place, next) in seen.iter_mut().enumerate() {
        if let Some(last) = before.get(place) {
            next.expect(last);
        }
    }
}

impl<R: AnyRow> Seen<R> {
    /// Nothing. What is seen is found by hashes from this seed.
    pub fn new(alloc: Global, seed: Seed) -> Seen<R>
        ensures rows { result.rows.keys ≡ [] }
        ensures groups { result.groups.entries ≡ [] }
    {
        Seen {
            rows: Rows::new(alloc, seed),
            groups: Table::new(alloc, seed),
        }
    }

    /// Tells that as many rows and groups will come as `before` has. No answer depends on it.
    fn expect(&mut self, before: &Seen<R>)
        ensures { self.new ≡ self.old }
    {
        self.rows.expect(before.rows.len());
        self.groups.expect(before.groups.len());
    }

    /// The groups of a reduce.
    pub(crate) fn groups(&self) -> &Table<R>
        ensures { result.now.entries ≡ self.now.groups.entries }
    {
        &self.groups
    }

    /// Whether a row goes on at the operator that has seen this, as which `row` then is. It is seen then.
    pub(crate) fn pass(&mut self, op: &TOp, level: u32, row: &mut R) -> Result<bool, Memory>
        requires { CanMeet op.now self.old.groups.entries (R.columns row.old) }
        ensures passed { IfOk result (λ goes. (if goes then Some (R.columns row.new) else None) ≡ flows level op.now self.old.rows.keys (R.columns row.old)) }
        ensures rows { OnOk result (self.new.rows.keys ≡ rows_after op.now self.old.rows.keys (R.columns row.old)) }
        ensures groups { OnOk result (self.new.groups.entries ≡ groups_after op.now self.old.groups.entries (R.columns row.old)) }
    {
        match op {
            TOp::Filter(conds) => Ok(passes(conds.as_slice(), level, row)),
            TOp::Map(exprs) => {
                let before = *row;
                map_into(&before, exprs.as_slice(), row);
                Ok(true)
            }
            TOp::Distinct => self.rows.insert(row),
            TOp::Reduce(r) => {
                add_row(r, &mut self.groups, row)?;
                Ok(false)
            }
        }
    }

    /// What becomes of a packet row at the operator that has seen this. It is seen then, and `row` is the other row, where
    /// there is one. No row is made of it for a filter or a map.
    pub(crate) fn begin(
        &mut self,
        op: &TOp,
        level: u32,
        packet: &PacketRow<'_, R::Number>,
        row: &mut R,
    ) -> Result<Passage, Memory>
        requires { CanMeet op.now self.old.groups.entries packet.now }
        ensures passed { IfOk result (λ passage. gone_as passage packet.now (R.columns row.new) ≡ flows level op.now self.old.rows.keys packet.now) }
        ensures rows { OnOk result (self.new.rows.keys ≡ rows_after op.now self.old.rows.keys packet.now) }
        ensures groups { OnOk result (self.new.groups.entries ≡ groups_after op.now self.old.groups.entries packet.now) }
    {
        match op {
            TOp::Filter(conds) => Ok(same_if(passes(conds.as_slice(), level, packet))),
            TOp::Map(exprs) => {
                map_into(packet, exprs.as_slice(), row);
                Ok(Passage::Other)
            }
            TOp::Distinct | TOp::Reduce(_) => {
                packet.put_into(row);
                if self.pass(op, level, row)? {
                    Ok(Passage::Other)
                } else {
                    Ok(Passage::Stays)
                }
            }
        }
    }
}
