//! What one switch of several runs of a plan: each piece up to its first operator with registers.
ghost use Rattle.std.specs.Prelude.{◌≡◌, ◌<◌, ◌≤◌, IfOk, length, map};
ghost use Rattle.std.specs.List.{AllByRecursion};
ghost use Rattle.sn_emit.specs.Making.{CanMake};
ghost use Rattle.sn_emit.specs.Plans.{pieces_from};
ghost use Rattle.sn_engine_many.specs.Shorts.{short_entries, short_entry, short_piece, up_to_stateful};
ghost use Rattle.sn_types.specs.Typed.{query_at};

use sn_base::memory::Memory;
use sn_base::seq::Seq;
use sn_engine::fronts::front;
use sn_plan_grammar::plan::{Entry, Piece, Plan};
use sn_plan_grammar::short::Short;
use sn_types::typed::Typed;
use sn_types::typed_op::TOp;
use std::alloc::Global;

/// How many operators stand up to the first that has registers, this one too; all, where none has.
fn up_to_stateful(ops: &[TOp]) -> u32
    requires { length ops.now ≤ 12 }
    ensures { result ≡ up_to_stateful ops.now }
{
    let mut count = 0;
    for op in ops {
        match op {
            TOp::Filter(_) | TOp::Map(_) => count += 1,
            TOp::Distinct | TOp::Reduce(_) => return count + 1,
        }
    }
    count
}

fn copy_short(alloc: Global, short: &Short) -> Short
    ensures { result ≡ short.now }
{
    match Short::new(alloc, short.as_slice()) {
        Some(copied) => copied,
        None => unreachable!(),
    }
}

/// A piece of a query, cut after its first operator with registers.
fn short_piece(alloc: Global, t: &Typed, q: u32, piece: &Piece) -> Piece
    requires query { q < length t.now.queries }
    requires branch { piece.now.branch < length (query_at t.now.queries q).branches }
    ensures { result ≡ short_piece (query_at t.now.queries q) piece.now }
{
    Piece {
        level: piece.level,
        branch: piece.branch,
        cut: up_to_stateful(front(t, q, piece.branch, piece.cut)),
        slots: copy_short(alloc, &piece.slots),
        stages: copy_short(alloc, &piece.stages),
    }
}

fn short_pieces(alloc: Global, t: &Typed, q: u32, pieces: &[Piece]) -> Result<Seq<Piece>, Memory>
    requires query { q < length t.now.queries }
    requires branches { AllByRecursion (λ piece. piece.branch < length (query_at t.now.queries q).branches) pieces.now }
    ensures { IfOk result (λ shorts. shorts ≡ map (short_piece (query_at t.now.queries q)) pieces.now) }
{
    let mut shorts = Seq::new(alloc);
    for piece in pieces {
        shorts.push(short_piece(alloc, t, q, piece))?;
    }
    Ok(shorts)
}

fn short_entry(alloc: Global, t: &Typed, q: u32, entry: &Entry) -> Result<Entry, Memory>
    requires query { q < length t.now.queries }
    requires branches { AllByRecursion (λ piece. piece.branch < length (query_at t.now.queries q).branches) entry.now.pieces }
    ensures { IfOk result (λ short. short ≡ short_entry (query_at t.now.queries q) entry.now) }
{
    Ok(Entry {
        name: entry.name,
        levels: copy_short(alloc, &entry.levels),
        pieces: short_pieces(alloc, t, q, entry.pieces.as_slice())?,
    })
}

/// What a switch of several runs of a plan.
pub(crate) fn short_plan(t: &Typed, plan: &Plan) -> Result<Plan, Memory>
    requires few { length plan.now.entries ≤ length t.now.queries }
    requires can { AllByRecursion (CanMake t.now.queries) (pieces_from 0 plan.now.entries) }
    ensures { IfOk result (λ short. short.entries ≡ short_entries t.now.queries 0 plan.now.entries) }
{
    let mut entries = Seq::new(t.alloc);
    let mut q = 0;
    for entry in plan.entries.as_slice() {
        entries.push(short_entry(t.alloc, t, q, entry)?)?;
        q += 1;
    }
    Ok(Plan { entries })
}
