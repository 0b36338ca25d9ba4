//! The lanes of a plan, made of its pieces.
ghost use Rattle.std.specs.Prelude.{◌≡◌, ◌≤◌, ◌++◌, List, length, map, IfOk, OnOk};
ghost use Rattle.std.specs.List.{AllByRecursion};
ghost use Rattle.sn_emit.specs.Making.{CanMake, InRange};
ghost use Rattle.sn_emit.specs.Plans.{AreNewLanes, IsNewLane, Placed, gate_before, lane_of, pieces_from, placed, tables_of};
ghost use Rattle.sn_plan_fit.specs.Fits.{Fits};
ghost use Rattle.sn_switch.specs.Texts.{IsSwitch};
ghost use Rattle.sn_types.specs.Kinds.{AreBelow};
ghost use Rattle.sn_types.specs.Typed.{branch_at};

use crate::sender::Sender;
use crate::sender_of::SenderOf;
use crate::tables::Tables;
use sn_base::any_row::AnyRow;
use sn_base::lane::Lane;
use sn_base::memory::Memory;
use sn_base::seq::Seq;
use sn_pipe::gate::Gate;
use sn_pipe::pipe::Pipe;
use sn_plan_fit::{level_before, place_in};
use sn_plan_grammar::plan::{Piece, Plan};
use sn_switch::switch::Switch;
use sn_types::typed::Typed;

/// The table of the level before a level on a path.
fn gate_before(entries: Option<u32>, path: &[u32], level: u32) -> Option<Gate>
    requires { length path.now ≤ 8 }
    ensures { result ≡ gate_before entries path.now level }
{
    match level_before(path, level) {
        Some(bits) => Some(Gate { bits, entries }),
        None => None,
    }
}

/// The lane of a piece.
fn lane_of(q: u32, path: &[u32], piece: &Piece) -> Lane
    requires path { length path.now ≤ 8 }
    requires range { InRange (lane_of q path.now piece.now) }
    ensures { result ≡ lane_of q path.now piece.now }
{
    Lane {
        query: q as u8,
        level: place_in(path, piece.level) as u8,
        branch: piece.branch as u8,
    }
}

/// The lane of a piece, with a pipe of its own over rows of a kind.
fn sender_over<R: AnyRow>(
    t: &Typed,
    tables: Tables,
    q: u32,
    path: &[u32],
    piece: &Piece,
) -> Result<SenderOf<Pipe<R>>, Memory>
    requires some_depth { 1 ≤ tables.depth }
    requires most_depth { tables.depth ≤ 4 }
    requires path { length path.now ≤ 8 }
    requires can { CanMake t.now.queries (placed q path.now piece.now) }
    requires below { AreBelow R.Number.limit (branch_at t.now.queries q piece.now.branch).fields }
    ensures { IfOk result (λ s. IsNewLane t.now.queries tables (placed q path.now piece.now) s) }
{
    let coarser = gate_before(tables.entries, path, piece.level);
    let slots = piece.slots.as_slice();
    let pipe = Pipe::make(
        t.alloc,
        t,
        q,
        piece.branch,
        piece.level,
        coarser,
        piece.cut,
        tables.depth,
        slots,
    )?;
    Ok(SenderOf {
        lane: lane_of(q, path, piece),
        pipe,
        given: 0,
        ended: false,
    })
}

/// The lane of a piece, over rows of the kind that its branch has.
fn sender(t: &Typed, tables: Tables, q: u32, path: &[u32], piece: &Piece) -> Result<Sender, Memory>
    requires some_depth { 1 ≤ tables.depth }
    requires most_depth { tables.depth ≤ 4 }
    requires path { length path.now ≤ 8 }
    requires can { CanMake t.now.queries (placed q path.now piece.now) }
    ensures { IfOk result (λ s. IsNewLane t.now.queries tables (placed q path.now piece.now) s) }
{
    if t.is_wide(q, piece.branch) {
        Ok(Sender::of_wide(sender_over(t, tables, q, path, piece)?))
    } else {
        Ok(Sender::of_short(sender_over(t, tables, q, path, piece)?))
    }
}

/// Adds a lane for each of these pieces of an entry.
fn push_senders(
    lanes: &mut Seq<Sender>,
    t: &Typed,
    tables: Tables,
    q: u32,
    path: &[u32],
    pieces: &[Piece],
) -> Result<(), Memory>
    requires some_depth { 1 ≤ tables.depth }
    requires most_depth { tables.depth ≤ 4 }
    requires path { length path.now ≤ 8 }
    requires can { AllByRecursion (λ piece. CanMake t.now.queries (placed q path.now piece)) pieces.now }
    ensures { OnOk result ((done : List Placed) → AreNewLanes t.now.queries tables done lanes.old →
        AreNewLanes t.now.queries tables (done ++ map (placed q path.now) pieces.now) lanes.new) }
{
    for piece in pieces {
        lanes.push(sender(t, tables, q, path, piece)?)?;
    }
    Ok(())
}

/// The lanes of pieces that can be made, one for each in the plan's order, each at the start of a window, with an empty prefix set,
/// in a switch with this room.
pub fn senders_of(t: &Typed, tables: Tables, plan: &Plan) -> Result<Vec<Sender>, Memory>
    requires some_depth { 1 ≤ tables.depth }
    requires most_depth { tables.depth ≤ 4 }
    requires few { length plan.now.entries ≤ 8 }
    requires can { AllByRecursion (CanMake t.now.queries) (pieces_from 0 plan.now.entries) }
    ensures { IfOk result (λ lanes. AreNewLanes t.now.queries tables (pieces_from 0 plan.now.entries) lanes.items) }
{
    let mut lanes = Seq::new(t.alloc);
    let mut q = 0;
    for entry in plan.entries.as_slice() {
        let path = entry.levels.as_slice();
        push_senders(&mut lanes, t, tables, q, path, entry.pieces.as_slice())?;
        q += 1;
    }
    Ok(lanes.into_vec())
}

/// The lanes of a plan that fits, one for each piece in the plan's order, each at the start of a window, with an empty prefix set.
pub fn senders(t: &Typed, s: &Switch, plan: &Plan) -> Result<Vec<Sender>, Memory>
    requires switch { IsSwitch s.now }
    requires fits { Fits t.now.queries s.now plan.now.entries }
    ensures { IfOk result (λ lanes. AreNewLanes t.now.queries (tables_of s.now) (pieces_from 0 plan.now.entries) lanes.items) }
{
    let tables = Tables::of(s);
    senders_of(t, tables, plan)
}
