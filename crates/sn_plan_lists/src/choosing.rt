//! The choices of a plan.
ghost use Rattle.std.specs.Prelude.{◌≡◌, ◌≤◌, ◌<◌, ◌++◌, ◌∷◌, ℕ, List, [], length, IfOk};
ghost use Rattle.std.specs.List.{AllByRecursion};
ghost use Rattle.sn_switch.specs.Texts.{IsSwitch};
ghost use Rattle.sn_types.specs.Typed.{branch_of};
ghost use Rattle.sn_plan_fit.specs.Fits.{Fits};
ghost use Rattle.sn_plan_choices.specs.Settings.{IsNarrow};
ghost use Rattle.sn_plan_lists.specs.Numbers.{option_number};
ghost use Rattle.sn_plan_lists.specs.Bounds.{HasBounds};
ghost use Rattle.sn_plan_lists.specs.Chosen.{plan_at, entry_choices, plan_choices};
ghost use Rattle.sn_plan_lists.specs.Theorems.{plans_of};
ghost use Rattle.sn_tree_space.specs.Space.{IsPlan};

use crate::numbers::{option_number, path_number};
use sn_base::memory::Memory;
use sn_base::seq::Seq;
use sn_plan_grammar::plan::{Entry, Piece, Plan};
use sn_switch::switch::Switch;
use sn_types::typed::Typed;
use sn_types::typed_query::{TypedBranch, TypedQuery};

/// The branch of a piece, which the query has.
pub(crate) fn branch_of<'a>(query: &'a TypedQuery, piece: &Piece) -> &'a TypedBranch
    requires { piece.now.branch < length query.now.branches }
    ensures { result.now ≡ branch_of query.now piece.now.branch }
{
    match query.branches.as_slice().get(piece.branch as usize) {
        Some(branch) => branch,
        None => unreachable!(),
    }
}

/// Adds the choices of a piece: the number of its option, and its stages.
fn add_piece(
    s: &Switch,
    branch: &TypedBranch,
    piece: &Piece,
    choices: &mut Seq<u32>,
) -> Result<(), Memory>
    requires switch { IsSwitch s.now }
    requires narrow { IsNarrow branch.now }
    ensures { IfOk result (λ u. choices.new ≡ choices.old ++ option_number s.now branch.now (piece.now.cut, piece.now.slots) ∷ piece.now.stages) }
{
    choices.push(option_number(s, branch, piece))?;
    for stage in piece.stages.as_slice() {
        choices.push(*stage)?;
    }
    Ok(())
}

/// Adds the choices of an entry: the number of its path, and the choices of its pieces.
fn add_entry(
    s: &Switch,
    query: &TypedQuery,
    entry: &Entry,
    choices: &mut Seq<u32>,
) -> Result<(), Memory>
    requires switch { IsSwitch s.now }
    requires bounds { HasBounds query.now }
    requires known { AllByRecursion (λ p. p.branch < length query.now.branches) entry.now.pieces }
    ensures { IfOk result (λ u. choices.new ≡ choices.old ++ entry_choices s.now query.now entry.now) }
{
    let number = path_number(query.levels.as_slice(), entry.levels.as_slice());
    choices.push(number)?;
    for piece in entry.pieces.as_slice() {
        add_piece(s, branch_of(query, piece), piece, choices)?;
    }
    Ok(())
}

/// The choices of a plan, query by query.
fn choices_along(t: &Typed, s: &Switch, plan: &Plan) -> Result<Seq<u32>, Memory>
    requires switch { IsSwitch s.now }
    requires fits { Fits t.now.queries s.now plan.now.entries }
    ensures { IfOk result (λ choices. choices ≡ plan_choices s.now t.now.queries plan.now.entries) }
{
    let mut choices = Seq::new(t.alloc);
    let mut rest = plan.entries.as_slice();
    for query in t.queries.as_slice() {
        let Some((entry, after)) = rest.split_first() else {
            return Ok(choices);
        };
        add_entry(s, query, entry, &mut choices)?;
        rest = after;
    }
    Ok(choices)
}

/// The choices of a plan that fits: the one complete list that names it. The switch is one that a text can stand for.
///
/// # Errors
/// Out of memory.
pub fn choices_of(t: &Typed, s: &Switch, plan: &Plan) -> Result<Seq<u32>, Memory>
    requires switch { IsSwitch s.now }
    requires fits { Fits t.now.queries s.now plan.now.entries }
    ensures choices { IfOk result (λ choices. choices ≡ plan_choices s.now t.now.queries plan.now.entries) }
    // It is a complete list that isn't broken.
    ensures plan { (entry : ℕ → ℕ → ℕ → ℕ → ℕ) → IfOk result (IsPlan (plans_of s.now entry t.now.queries)) }
    // It names the plan.
    ensures names { IfOk result (λ choices. plan_at s.now t.now.queries choices ≡ plan.now.entries) }
    // No other such list does.
    ensures only { (entry : ℕ → ℕ → ℕ → ℕ → ℕ) (r : List ℕ) → IsPlan (plans_of s.now entry t.now.queries) r → plan_at s.now t.now.queries r ≡ plan.now.entries →
        IfOk result (λ choices. choices ≡ r) }
{
    choices_along(t, s, plan)
}
