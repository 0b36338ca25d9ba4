//! Queries of which a coarser level answers every prefix of what a finer level answers.
ghost use Rattle.std.specs.Prelude.{◌≡◌, ◌<◌, ◌==◌, length, nat_le, true};
ghost use Rattle.std.specs.List.{find, list_all};
ghost use Rattle.sn_refine_laws.specs.Monotone.{are_thresholds, is_above, is_monotone, is_rising, is_threshold, rises_from};
ghost use Rattle.sn_types.specs.Typed.{query_at};
ghost use Rattle.sn_types.specs.Values.{constant_at};

use sn_base::any_fold::AnyFold;
use sn_query_grammar::ast::{Cmp, Relax};
use sn_types::typed::Typed;
use sn_types::typed_op::{TCond, TOp};

fn is_rising(fold: AnyFold) -> bool
    ensures { result ≡ is_rising fold }
{
    match fold {
        AnyFold::SatSum(_) => true,
        AnyFold::Max(_) => true,
        AnyFold::Min(_) => false,
        AnyFold::Or(_) => true,
    }
}

fn is_above(cmp: Cmp) -> bool
    ensures { result ≡ is_above cmp }
{
    match cmp {
        Cmp::Eq => false,
        Cmp::Ne => false,
        Cmp::Lt => false,
        Cmp::Le => false,
        Cmp::Gt => true,
        Cmp::Ge => true,
    }
}

fn relaxed_at(level: u32, relaxed: &[Relax]) -> Option<Relax>
    ensures { result ≡ find (λ r. r.level == level) relaxed.now }
{
    relaxed.iter().copied().find(|relax| relax.level == level)
}

/// The constant of a condition at a level.
fn constant(level: u32, c: &TCond) -> u64
    ensures { result ≡ constant_at level c.now.relaxed c.now.own }
{
    match relaxed_at(level, c.relaxed.as_slice()) {
        Some(relax) => relax.value,
        None => c.own,
    }
}

/// Whether no level of these has a greater constant than the finest.
fn no_greater(levels: &[u32], finest: u32, c: &TCond) -> bool
    ensures { result ≡ list_all (λ level. nat_le (constant_at level c.now.relaxed c.now.own) (constant_at finest c.now.relaxed c.now.own)) levels.now }
{
    levels
        .iter()
        .all(|level| constant(*level, c) <= constant(finest, c))
}

/// Whether a condition asks if the column at this place is above a constant that no level has greater than the finest.
fn is_threshold(levels: &[u32], finest: u32, place: usize, c: &TCond) -> bool
    ensures { result ≡ is_threshold levels.now finest place c.now }
{
    c.col as usize == place
        && c.and == u128::MAX
        && is_above(c.cmp)
        && no_greater(levels, finest, c)
}

fn all_thresholds(levels: &[u32], finest: u32, place: usize, conds: &[TCond]) -> bool
    ensures { result ≡ list_all (is_threshold levels.now finest place) conds.now }
{
    conds.iter().all(|c| is_threshold(levels, finest, place, c))
}

fn are_thresholds(levels: &[u32], finest: u32, place: usize, ops: &[TOp]) -> bool
    ensures { result ≡ are_thresholds levels.now finest place ops.now }
{
    match ops.split_first() {
        None => true,
        Some((TOp::Filter(conds), rest)) => {
            all_thresholds(levels, finest, place, conds.as_slice())
                && are_thresholds(levels, finest, place, rest)
        }
        Some(_) => false,
    }
}

fn has_no_relaxed(conds: &[TCond]) -> bool
    ensures { result ≡ list_all (λ c. length c.relaxed == 0) conds.now }
{
    conds.iter().all(|c| c.relaxed.as_slice().is_empty())
}

fn rises_from(levels: &[u32], finest: u32, may: bool, ops: &[TOp]) -> bool
    ensures { result ≡ rises_from levels.now finest may ops.now }
{
    match ops.split_first() {
        None => false,
        Some((TOp::Filter(conds), rest)) => {
            has_no_relaxed(conds.as_slice()) && rises_from(levels, finest, may, rest)
        }
        Some((TOp::Map(_), rest)) => rises_from(levels, finest, may, rest),
        Some((TOp::Distinct, rest)) => may && rises_from(levels, finest, false, rest),
        Some((TOp::Reduce(r), rest)) => {
            is_rising(r.fold) && are_thresholds(levels, finest, r.keys.as_slice().len(), rest)
        }
    }
}

/// Whether a query is monotone. It has one branch: filters without relaxed constants, maps and at most one distinct, then a reduce by
/// a sum, the greater number or the bitwise or, and then only filters that ask by `>` or `>=`, without `&`, whether its value is
/// above a constant. No level of the refine line has a greater constant there than the finest one has.
pub fn monotone(t: &Typed, q: u32) -> bool
    requires { q < length t.now.queries }
    ensures { result ≡ is_monotone (query_at t.now.queries q) }
{
    if t.branches(q) != 1 {
        return false;
    }
    let ops = t.operators(q, 0);
    rises_from(t.levels(q), t.finest_level(q), true, ops)
}
