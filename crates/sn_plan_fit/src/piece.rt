//! A piece by itself.
ghost use Rattle.std.specs.Prelude.{◌≡◌, ◌≤◌, ◌*◌, ◌^◌, ◌++◌, List, take, length, MatchOption, Some, None};
ghost use Rattle.sn_switch.specs.Texts.{IsSwitch};
ghost use Rattle.sn_plan_fit.specs.Checks.{reported};
ghost use Rattle.sn_plan_fit.specs.Placing.{Table};
ghost use Rattle.sn_plan_fit.specs.Gaps.{least_after};
ghost use Rattle.sn_types.specs.Cuts.{stateful};
ghost use Rattle.sn_plan_fit.specs.Tables.{is_first, membership, order_misfit};
ghost use Rattle.sn_plan_fit.specs.Pieces.{piece_branch, tables_of, cut_misfit, strange_size, count_misfit, slots_misfit, stages_misfit, tables_misfit};
ghost use Rattle.sn_plan_fit.specs.Pieces.{piece_misfit};

use crate::misfit::{Misfit, MisfitKind};
use crate::order::{end, order};
use crate::path::is_among;
use sn_plan_grammar::plan::Piece;
use sn_switch::switch::Switch;
use sn_types::cuts::stateful;
use sn_types::typed_op::TOp;
use sn_types::typed_query::{TypedBranch, TypedQuery};

/// The operators before a cut.
pub fn prefix(branch: &TypedBranch, cut: u32) -> &[TOp]
    ensures value { result.now ≡ take cut branch.now.ops }
    ensures few { length result.now ≤ 2 ^ 32 }
{
    let ops = branch.ops.as_slice();
    ops.split_at(ops.len().min(cut as usize)).0
}

/// The branch of a piece, if the query has one of its number.
pub fn branch_of<'a>(query: &'a TypedQuery, piece: &Piece) -> Option<&'a TypedBranch>
    ensures { MatchOption result (piece_branch query.now piece.now ≡ None) (λ branch. piece_branch query.now piece.now ≡ Some branch.now) }
{
    query.branches.as_slice().get(piece.branch as usize)
}

/// Whether the cut is one of the branch.
pub(crate) fn cut(branch: &TypedBranch, piece: &Piece) -> Result<(), Misfit>
    ensures { reported result ≡ cut_misfit branch.now piece.now }
{
    if piece.cut <= branch.max_cut {
        return Ok(());
    }
    Err(Misfit {
        kind: MisfitKind::Cut,
        want: u64::from(branch.max_cut),
        got: u64::from(piece.cut),
    })
}

fn known_sizes(known: &[u32], sizes: &[u32]) -> Result<(), Misfit>
    ensures { reported result ≡ strange_size known.now sizes.now }
{
    for size in sizes {
        if !is_among(known, *size) {
            return Err(Misfit {
                kind: MisfitKind::Slots,
                want: 0,
                got: u64::from(*size),
            });
        }
    }
    Ok(())
}

fn number_of(kind: MisfitKind, want: u64, got: usize) -> Result<(), Misfit>
    ensures { reported result ≡ count_misfit kind want got }
{
    let got = got as u64;
    if got == want {
        return Ok(());
    }
    Err(Misfit { kind, want, got })
}

fn slots(switch: &Switch, branch: &TypedBranch, piece: &Piece) -> Result<(), Misfit>
    ensures { reported result ≡ slots_misfit switch.now.slots branch.now piece.now }
{
    let sizes = piece.slots.as_slice();
    let wanted = stateful(prefix(branch, piece.cut));
    number_of(MisfitKind::Slots, wanted as u64, sizes.len())?;
    known_sizes(switch.slots.as_slice(), sizes)
}

/// Whether there are as many stages as registers, where there are as many sizes as operators that have them.
fn stages(switch: &Switch, branch: &TypedBranch, piece: &Piece) -> Result<(), Misfit>
    requires { length piece.now.slots ≡ stateful (take piece.now.cut branch.now.ops) }
    ensures { reported result ≡ stages_misfit switch.now.chain branch.now piece.now }
{
    let wanted = u64::from(switch.chain) * piece.slots.as_slice().len() as u64;
    number_of(MisfitKind::Order, wanted, piece.stages.as_slice().len())
}

fn is_first(level: u32, path: &[u32]) -> bool
    ensures { result ≡ is_first level path.now }
{
    match path {
        [] => false,
        [first, ..] => level == *first,
    }
}

/// The least stage after the membership table, if there is one.
fn least_first(level: u32, path: &[u32]) -> u64
    ensures order { (following : List Table) → order_misfit 0 (membership level path.now ++ following) ≡ order_misfit result following }
    ensures least { (following : List Table) → least_after 0 (membership level path.now ++ following) ≡ least_after result following }
    ensures low { result ≤ 1 }
{
    if is_first(level, path) { 0 } else { 1 }
}

/// Whether the tables have a place, where there are as many stages as registers.
fn tables(switch: &Switch, path: &[u32], branch: &TypedBranch, piece: &Piece) -> Result<(), Misfit>
    requires stages { 1 ≤ switch.now.stages }
    requires chain { 1 ≤ switch.now.chain }
    requires count { length piece.now.stages ≡ switch.now.chain * stateful (take piece.now.cut branch.now.ops) }
    ensures { reported result ≡ tables_misfit switch.now.stages (tables_of switch.now.chain path.now branch.now piece.now) }
{
    let written = piece.stages.as_slice();
    let least = order(
        least_first(piece.level, path),
        switch.chain as usize,
        prefix(branch, piece.cut),
        written,
    )?;
    end(switch.stages, !written.is_empty(), least)
}

/// Whether a piece fits by itself.
pub(crate) fn piece(
    switch: &Switch,
    path: &[u32],
    branch: &TypedBranch,
    piece: &Piece,
) -> Result<(), Misfit>
    requires { IsSwitch switch.now }
    ensures { reported result ≡ piece_misfit switch.now path.now branch.now piece.now }
{
    cut(branch, piece)?;
    slots(switch, branch, piece)?;
    stages(switch, branch, piece)?;
    tables(switch, path, branch, piece)
}
