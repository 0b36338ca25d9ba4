//! Partial plans, read from their front.
ghost use Rattle.std.specs.Prelude.{◌≡◌, ◌≤◌, ◌+◌, ℕ, List, [], map};
ghost use Rattle.std.specs.List.{sum_by};
ghost use Rattle.sn_switch.specs.Texts.{IsSwitch};
ghost use Rattle.sn_switch.specs.declared.switch.Switch.{Switch};
ghost use Rattle.sn_types.specs.declared.typed_query.TypedQuery.{TypedQuery};
ghost use Rattle.sn_plan_fit.specs.Capped.{capped};
ghost use Rattle.sn_tree_space.specs.Space.{IsPartial, IsSmall};
ghost use Rattle.sn_tree_space.specs.Agendas.{Agenda, agenda_space, first_choices};
ghost use Rattle.sn_plan_choices.specs.Planning.{Task, Taken, planning, first_tasks, least_of};
ghost use Rattle.sn_plan_space.specs.declared.known.KnownQuery.{KnownQuery};
ghost use Rattle.sn_plan_space.specs.Known.{known_query, numbered};
ghost use Rattle.sn_plan_space.specs.Positions.{Stands};
ghost use Rattle.sn_plan_space.specs.Reading.{after_choices};
ghost use Rattle.sn_plan_space.specs.Totals.{AreTotals};

use crate::known::{KnownPiece, KnownQuery};
use crate::position::{Position, after};
use crate::queries::add_least;
use crate::totals::Totals;
use sn_tree_space::follow::Follow;

/// Where a reader stands before the first choice.
fn start<'a>(known: &'a [KnownQuery]) -> Position<'a>
    ensures { (s : Switch) (entry : ℕ → ℕ → ℕ → ℕ → ℕ) (queries : List TypedQuery) → known.now ≡ map (known_query s entry) (numbered 0 queries) →
        Stands s entry result (after_choices s entry queries []) }
{
    Position {
        waiting: None,
        pieces: &[],
        queries: known,
        spent: 0,
    }
}

/// Where a reader stands after a partial plan.
pub fn position_after<'a>(stages: u32, known: &'a [KnownQuery], partial: &[u32]) -> Position<'a>
    requires { stages ≤ 32 }
    ensures { (s : Switch) (entry : ℕ → ℕ → ℕ → ℕ → ℕ) (queries : List TypedQuery) → s.stages ≡ stages →
        known.now ≡ map (known_query s entry) (numbered 0 queries)
        → IsPartial (agenda_space (planning s entry) (first_tasks 0 queries)) partial.now → Stands s entry result (after_choices s entry queries partial.now) }
{
    let mut position = start(known);
    for choice in partial {
        position = after(position, stages, *choice).0;
    }
    position
}

/// What a partial plan takes up.
pub fn totals_after(stages: u32, known: &[KnownQuery], partial: &[u32]) -> Totals
    requires { stages ≤ 32 }
    ensures { (s : Switch) (entry : ℕ → ℕ → ℕ → ℕ → ℕ) (queries : List TypedQuery) → s.stages ≡ stages →
        known.now ≡ map (known_query s entry) (numbered 0 queries)
        → IsPartial (agenda_space (planning s entry) (first_tasks 0 queries)) partial.now →
        AreTotals result (after_choices s entry queries partial.now).taken }
{
    let mut position = start(known);
    let mut totals = Totals::new();
    for choice in partial {
        let (next, took) = after(position, stages, *choice);
        totals.add(took);
        position = next;
    }
    totals
}

/// How many options a piece has.
fn options_in(piece: &KnownPiece) -> u32
    ensures { result ≡ piece.now.count }
{
    piece.count
}

/// How many paths a query has.
fn paths_in(query: &KnownQuery) -> u32
    ensures { result ≡ query.now.count }
{
    query.count
}

/// What may follow at a position.
pub fn follow_at(position: Position, stages: u32) -> Follow
    requires { stages ≤ 32 }
    ensures value { (s : Switch) (entry : ℕ → ℕ → ℕ → ℕ → ℕ) (a : Agenda Task Taken) → s.stages ≡ stages → Stands s entry position.entry a →
        result ≡ first_choices (planning s entry) a.left }
    ensures small { IsSmall result }
{
    if let Some(waiting) = position.waiting {
        return Follow::Choices(waiting.least, stages.saturating_sub(waiting.least));
    }
    if let Some((piece, _)) = position.pieces.split_first() {
        return Follow::Choices(0, options_in(piece));
    }
    if let Some((query, _)) = position.queries.split_first() {
        return Follow::Choices(0, paths_in(query));
    }
    Follow::Complete
}

/// A sum with the least that each of these queries costs, or 2^64 - 1 where it is more.
fn add_least_queries(sum: u64, queries: &[KnownQuery]) -> u64
    ensures { result ≡ capped (sum + sum_by (λ (q : KnownQuery). q.least) queries.now) }
{
    let mut total = sum;
    for query in queries {
        total = total.saturating_add(query.least);
    }
    total
}

/// What was spent, with the least that is still to be spent, or 2^64 - 1 where it is more.
pub fn lower_at(position: Position) -> u64
    ensures { (s : Switch) (entry : ℕ → ℕ → ℕ → ℕ → ℕ) (a : Agenda Task Taken) → Stands s entry position.entry a →
        result ≡ capped (a.spent + sum_by (least_of s entry) a.left) }
{
    let chosen = add_least(position.spent, position.pieces);
    add_least_queries(chosen, position.queries)
}
