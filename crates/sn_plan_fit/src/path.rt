//! Paths of queries, and the pieces along them.
ghost use Rattle.std.specs.Prelude.{◌≡◌, ◌==◌, ◌≤◌, ◌<◌, List, ◌++◌, false, length, position, IfSome, MatchOption};
ghost use Rattle.std.specs.List.{list_all};
ghost use Rattle.sn_plan_fit.specs.Checks.{reported};
ghost use Rattle.sn_plan_fit.specs.declared.misfit.MisfitKind.TheVariants as MisfitKind;
ghost use Rattle.sn_plan_fit.specs.Paths.{rises, is_among, last_of, same_level, is_path, place_in, level_before, Place, level_places, places, are_at};
ghost use Rattle.sn_plan_fit.specs.Paths.{is_entry, path_misfit};

use crate::misfit::{Misfit, MisfitKind};
use sn_plan_grammar::plan::{Entry, Piece};
use sn_types::typed_query::{TypedBranch, TypedQuery};

fn rises(numbers: &[u32]) -> bool
    ensures { result ≡ rises numbers.now }
{
    let Some((first, rest)) = numbers.split_first() else {
        return true;
    };
    let mut before = *first;
    for number in rest {
        if *number <= before {
            return false;
        }
        before = *number;
    }
    true
}

/// Whether a number is one of these.
pub(crate) fn is_among(numbers: &[u32], number: u32) -> bool
    ensures { result ≡ is_among numbers.now number }
{
    numbers.iter().any(|other| number == *other)
}

fn are_among(levels: &[u32], path: &[u32]) -> bool
    ensures { result ≡ list_all (is_among levels.now) path.now }
{
    for level in path {
        if !is_among(levels, *level) {
            return false;
        }
    }
    true
}

fn position_in(path: &[u32], level: u32) -> Option<usize>
    ensures place { result ≡ position (λ other. level == other) path.now }
    ensures within { IfSome result (λ place. place < length path.now) }
{
    path.iter().position(|other| level == *other)
}

/// The place of a level in a path, from 0; and 0 where it isn't there.
pub fn place_in(path: &[u32], level: u32) -> u32
    requires { length path.now ≤ 8 }
    ensures { result ≡ place_in path.now level }
{
    match position_in(path, level) {
        Some(place) => place as u32,
        None => 0,
    }
}

/// The level before a level on a path. `None` exactly where it is the first.
pub fn level_before(path: &[u32], level: u32) -> Option<u32>
    requires { length path.now ≤ 8 }
    ensures { result ≡ level_before path.now level }
{
    let place = place_in(path, level) as usize;
    if place == 0 {
        None
    } else {
        Some(path[place - 1])
    }
}

fn last(numbers: &[u32]) -> Option<u32>
    ensures { result ≡ last_of numbers.now }
{
    let mut last = None;
    for number in numbers {
        last = Some(*number);
    }
    last
}

fn same_level(a: Option<u32>, b: Option<u32>) -> bool
    ensures { result ≡ same_level a b }
{
    match (a, b) {
        (Some(a), Some(b)) => a == b,
        _ => false,
    }
}

fn is_path(levels: &[u32], path: &[u32]) -> bool
    ensures { result ≡ is_path levels.now path.now }
{
    rises(path) && are_among(levels, path) && same_level(last(path), last(levels))
}

/// The pieces after those of a level, if each branch has its piece.
fn after_level<'a>(level: u32, branches: &[TypedBranch], pieces: &'a [Piece]) -> Option<&'a [Piece]>
    ensures { (later : List Place) → MatchOption result (are_at (level_places level 0 branches.now ++ later) pieces.now ≡ false)
        (λ after. are_at (level_places level 0 branches.now ++ later) pieces.now ≡ are_at later after.now) }
{
    let mut rest = pieces;
    for (number, _) in branches.iter().enumerate() {
        let Some((piece, after)) = rest.split_first() else {
            return None;
        };
        if piece.level != level || piece.branch as usize != number {
            return None;
        }
        rest = after;
    }
    Some(rest)
}

/// Whether the pieces are one for each level and branch, in order.
fn are_pieces(branches: &[TypedBranch], path: &[u32], pieces: &[Piece]) -> bool
    ensures { result ≡ are_at (places branches.now path.now) pieces.now }
{
    let mut rest = pieces;
    for level in path {
        let Some(after) = after_level(*level, branches, rest) else {
            return false;
        };
        rest = after;
    }
    rest.is_empty()
}

fn is_entry(query: &TypedQuery, entry: &Entry) -> bool
    ensures { result ≡ is_entry query.now entry.now }
{
    entry.name == query.name
        && is_path(query.levels.as_slice(), entry.levels.as_slice())
        && are_pieces(
            query.branches.as_slice(),
            entry.levels.as_slice(),
            entry.pieces.as_slice(),
        )
}

fn wrong_entry(number: usize) -> Misfit
    ensures { result ≡ record { kind = MisfitKind.Path; want = 0; got = number } }
{
    Misfit {
        kind: MisfitKind::Path,
        want: 0,
        got: number as u64,
    }
}

/// Whether the entries are those of the queries.
pub(crate) fn paths(queries: &[TypedQuery], entries: &[Entry]) -> Result<(), Misfit>
    ensures { reported result ≡ path_misfit 0 queries.now entries.now }
{
    let mut rest = entries;
    for (number, query) in queries.iter().enumerate() {
        let Some((entry, after)) = rest.split_first() else {
            return Err(wrong_entry(number));
        };
        if !is_entry(query, entry) {
            return Err(wrong_entry(number));
        }
        rest = after;
    }
    if rest.is_empty() {
        Ok(())
    } else {
        Err(wrong_entry(queries.len()))
    }
}
