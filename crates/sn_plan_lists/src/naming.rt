//! The plan that choices name.
ghost use Rattle.std.specs.Prelude.{◌≡◌, ◌≤◌, ◌++◌, ℕ, List, [], take, drop, length, IfOk};
ghost use Rattle.std.specs.List.{AllByRecursion};
ghost use Rattle.sn_switch.specs.Texts.{IsSwitch};
ghost use Rattle.sn_plan_fit.specs.Fits.{Fits};
ghost use Rattle.sn_tree_space.specs.Space.{IsPlan};
ghost use Rattle.sn_plan_choices.specs.Options.{path_of};
ghost use Rattle.sn_plan_choices.specs.Settings.{IsNarrow};
ghost use Rattle.sn_plan_lists.specs.Bounds.{HasBounds};
ghost use Rattle.sn_plan_lists.specs.Chosen.{Seat, seat_at, level_seats, path_seats, piece_at, after_piece, pieces_at, after_pieces, entry_at, after_entry};
ghost use Rattle.sn_plan_lists.specs.Chosen.{plan_at};
ghost use Rattle.sn_plan_lists.specs.Theorems.{plans_of};

use crate::front::{first, short, split};
use sn_base::memory::Memory;
use sn_base::seq::Seq;
use sn_plan_choices::setting::{Setting, branch_option};
use sn_plan_fit::piece::prefix;
use sn_plan_grammar::plan::{Entry, Piece, Plan};
use sn_plan_grammar::short::Short;
use sn_switch::switch::Switch;
use sn_types::cuts::stateful;
use sn_types::typed::Typed;
use sn_types::typed_query::{TypedBranch, TypedQuery};
use std::alloc::Global;

/// The path of a number among those of these levels.
fn path_of(alloc: Global, levels: &[u32], number: u32) -> Result<Short, Memory>
    requires { length levels.now ≤ 8 }
    ensures { IfOk result (λ path. path ≡ path_of number levels.now) }
{
    let mut path = Seq::new(alloc);
    let mut bits = number;
    for i in 0..levels.len() {
        if bits % 2 == 1 || i + 1 == levels.len() {
            path.push(levels[i])?;
        }
        bits /= 2;
    }
    Ok(short(alloc, path.as_slice()))
}

/// The sizes of an option.
fn sizes_of(alloc: Global, option: Setting) -> Short
    requires { option.used ≤ 2 }
    ensures { result ≡ take option.used option.sizes }
{
    short(alloc, &option.sizes[..option.used as usize])
}

/// The piece of a branch at a level that choices name, and the choices after it.
fn piece_at<'a>(
    alloc: Global,
    s: &Switch,
    branch: &TypedBranch,
    level: u32,
    number: u32,
    choices: &'a [u32],
) -> (Piece, &'a [u32])
    requires switch { IsSwitch s.now }
    requires narrow { IsNarrow branch.now }
    ensures piece { result.0 ≡ piece_at s.now (seat_at level number branch.now) choices.now }
    ensures rest { result.1.now ≡ after_piece s.now (seat_at level number branch.now) choices.now }
{
    let option = branch_option(s, branch, first(choices));
    let registers = s.chain as usize * stateful(prefix(branch, option.cut));
    let following = split(choices, 1).1;
    let (stages, rest) = split(following, registers);
    let piece = Piece {
        level,
        branch: number,
        cut: option.cut,
        slots: sizes_of(alloc, option),
        stages: short(alloc, stages),
    };
    (piece, rest)
}

/// Adds the pieces of a level that choices name, and gives the choices after them.
fn add_level<'a>(
    alloc: Global,
    s: &Switch,
    branches: &[TypedBranch],
    level: u32,
    choices: &'a [u32],
    pieces: &mut Seq<Piece>,
) -> Result<&'a [u32], Memory>
    requires switch { IsSwitch s.now }
    requires few { length branches.now ≤ 2 }
    requires narrow { AllByRecursion IsNarrow branches.now }
    ensures pieces { IfOk result (λ rest. pieces.new ≡ pieces.old ++ pieces_at s.now (level_seats level 0 branches.now) choices.now) }
    ensures rest { IfOk result (λ rest. rest.now ≡ after_pieces s.now (level_seats level 0 branches.now) choices.now) }
{
    let mut rest = choices;
    let mut number = 0;
    for branch in branches {
        let (piece, after) = piece_at(alloc, s, branch, level, number, rest);
        pieces.push(piece)?;
        rest = after;
        number += 1;
    }
    Ok(rest)
}

/// The pieces along a path that choices name, and the choices after them.
fn path_pieces<'a>(
    alloc: Global,
    s: &Switch,
    branches: &[TypedBranch],
    path: &[u32],
    choices: &'a [u32],
) -> Result<(Seq<Piece>, &'a [u32]), Memory>
    requires switch { IsSwitch s.now }
    requires few { length branches.now ≤ 2 }
    requires narrow { AllByRecursion IsNarrow branches.now }
    ensures pieces { IfOk result (λ found. found.0 ≡ pieces_at s.now (path_seats branches.now path.now) choices.now) }
    ensures rest { IfOk result (λ found. found.1.now ≡ after_pieces s.now (path_seats branches.now path.now) choices.now) }
{
    let mut pieces = Seq::new(alloc);
    let mut rest = choices;
    for level in path {
        rest = add_level(alloc, s, branches, *level, rest, &mut pieces)?;
    }
    Ok((pieces, rest))
}

/// The entry of a query that choices name, and the choices after it.
fn entry_at<'a>(
    alloc: Global,
    s: &Switch,
    query: &TypedQuery,
    choices: &'a [u32],
) -> Result<(Entry, &'a [u32]), Memory>
    requires switch { IsSwitch s.now }
    requires bounds { HasBounds query.now }
    ensures entry { IfOk result (λ found. found.0 ≡ entry_at s.now query.now choices.now) }
    ensures rest { IfOk result (λ found. found.1.now ≡ after_entry s.now query.now choices.now) }
{
    let levels = path_of(alloc, query.levels.as_slice(), first(choices))?;
    let following = split(choices, 1).1;
    let branches = query.branches.as_slice();
    let (pieces, rest) = path_pieces(alloc, s, branches, levels.as_slice(), following)?;
    let entry = Entry {
        name: query.name,
        levels,
        pieces,
    };
    Ok((entry, rest))
}

/// The entries that choices name, query by query.
fn entries_at(t: &Typed, s: &Switch, choices: &[u32]) -> Result<Plan, Memory>
    requires { IsSwitch s.now }
    ensures { IfOk result (λ plan. plan.entries ≡ plan_at s.now t.now.queries choices.now) }
{
    let mut entries = Seq::new(t.alloc);
    let mut rest = choices;
    for query in t.queries.as_slice() {
        let (entry, after) = entry_at(t.alloc, s, query, rest)?;
        entries.push(entry)?;
        rest = after;
    }
    Ok(Plan { entries })
}

/// The plan that a complete list of choices names: query by query its path, and then for each piece its option and the stages of its registers. The
/// switch is one that a text can stand for. Of a list that isn't complete, choices that are missing count as 0 or as no stages.
///
/// # Errors
/// Out of memory.
pub fn plan_of(t: &Typed, s: &Switch, choices: &[u32]) -> Result<Plan, Memory>
    requires { IsSwitch s.now }
    ensures plan { IfOk result (λ plan. plan.entries ≡ plan_at s.now t.now.queries choices.now) }
    // The plan of a complete list that isn't broken fits.
    ensures fits { (entry : ℕ → ℕ → ℕ → ℕ → ℕ) → IsPlan (plans_of s.now entry t.now.queries) choices.now →
        IfOk result (λ plan. Fits t.now.queries s.now plan.entries) }
{
    entries_at(t, s, choices)
}
