//! Whether a plan fits a switch, and whether it has the shape of the queries.
ghost use Rattle.std.specs.Prelude.{◌≡◌, ◌↔◌, ℕ, ◌<◌, ◌≤◌, ◌^◌, List, IsOk, None, nat_lt};
ghost use Rattle.sn_switch.specs.Texts.{IsSwitch};
ghost use Rattle.sn_plan_fit.specs.Capped.{AreSmall};
ghost use Rattle.sn_plan_fit.specs.Checks.{reported, failing};
ghost use Rattle.sn_plan_fit.specs.Fits.{Fits, HasShape};
ghost use Rattle.sn_plan_fit.specs.Loads.{load_in};
ghost use Rattle.sn_plan_fit.specs.Registers.{Register};
ghost use Rattle.sn_plan_fit.specs.Pieces.{cut_misfit, piece_misfit, on_branch, piece_branch, first_piece, first_misfit, all_registers, all_metadata};
ghost use Rattle.sn_plan_fit.specs.Pieces.{load_misfit, loads_misfit, meta_misfit, shape_misfit, fit_misfit};

use crate::loads::{Load, plan_loads};
use crate::metadata::plan_metadata;
use crate::misfit::{Misfit, MisfitKind};
use crate::path::paths;
use crate::piece::{branch_of, cut, piece};
use sn_plan_grammar::plan::{Entry, Piece, Plan};
use sn_switch::switch::Switch;
use sn_types::typed::Typed;
use sn_types::typed_query::TypedQuery;

/// Whether a piece of a query fits by itself.
fn query_piece(
    switch: &Switch,
    path: &[u32],
    query: &TypedQuery,
    piece_of: &Piece,
) -> Result<(), Misfit>
    requires { IsSwitch switch.now }
    ensures { reported result ≡ on_branch None (λ b. piece_misfit switch.now path.now b piece_of.now) (piece_branch query.now piece_of.now) }
{
    match branch_of(query, piece_of) {
        None => Ok(()),
        Some(branch) => piece(switch, path, branch, piece_of),
    }
}

fn entry_pieces(switch: &Switch, query: &TypedQuery, entry: &Entry) -> Result<(), Misfit>
    requires { IsSwitch switch.now }
    ensures { reported result ≡ first_piece (piece_misfit switch.now entry.now.levels) query.now entry.now.pieces }
{
    let path = entry.levels.as_slice();
    let pieces = entry.pieces.as_slice();
    for piece in pieces {
        query_piece(switch, path, query, piece)?;
    }
    Ok(())
}

/// Whether each piece fits by itself.
fn plan_pieces(switch: &Switch, queries: &[TypedQuery], entries: &[Entry]) -> Result<(), Misfit>
    requires { IsSwitch switch.now }
    ensures { reported result ≡ first_misfit (piece_misfit switch.now) queries.now entries.now }
{
    let mut rest = entries;
    for query in queries {
        let Some((entry, after)) = rest.split_first() else {
            return Ok(());
        };
        entry_pieces(switch, query, entry)?;
        rest = after;
    }
    Ok(())
}

/// Whether the cut of a piece of a query is one of its branch.
fn query_cut(query: &TypedQuery, piece: &Piece) -> Result<(), Misfit>
    ensures { reported result ≡ on_branch None (λ b. cut_misfit b piece.now) (piece_branch query.now piece.now) }
{
    match branch_of(query, piece) {
        None => Ok(()),
        Some(branch) => cut(branch, piece),
    }
}

fn entry_cuts(query: &TypedQuery, pieces: &[Piece]) -> Result<(), Misfit>
    ensures { reported result ≡ first_piece (λ b p. cut_misfit b p) query.now pieces.now }
{
    for piece in pieces {
        query_cut(query, piece)?;
    }
    Ok(())
}

fn plan_cuts(queries: &[TypedQuery], entries: &[Entry]) -> Result<(), Misfit>
    ensures { reported result ≡ first_misfit (λ path b p. cut_misfit b p) queries.now entries.now }
{
    let mut rest = entries;
    for query in queries {
        let Some((entry, after)) = rest.split_first() else {
            return Ok(());
        };
        entry_cuts(query, entry.pieces.as_slice())?;
        rest = after;
    }
    Ok(())
}

fn at_most(kind: MisfitKind, want: u64, got: u64) -> Result<(), Misfit>
    ensures { reported result ≡ failing (nat_lt want got) kind want got }
{
    if got <= want {
        Ok(())
    } else {
        Err(Misfit { kind, want, got })
    }
}

/// Whether the registers of a stage keep the limits.
fn stage_fits(switch: &Switch, load: Load) -> Result<(), Misfit>
    ensures { (registers : List Register) (stage : ℕ) → AreSmall switch.now registers → load ≡ load_in registers stage →
        reported result ≡ load_misfit switch.now registers stage }
{
    at_most(
        MisfitKind::Actions,
        u64::from(switch.actions),
        load.registers,
    )?;
    at_most(MisfitKind::Bits, switch.bits, load.bits)
}

/// Whether the registers of each stage keep the limits.
fn stages_fit(switch: &Switch, queries: &[TypedQuery], entries: &[Entry]) -> Result<(), Misfit>
    requires few { switch.now.stages ≤ 32 }
    requires small { AreSmall switch.now (all_registers switch.now.chain queries.now entries.now) }
    ensures { reported result ≡ loads_misfit switch.now (all_registers switch.now.chain queries.now entries.now) 0 switch.now.stages }
{
    let loads = plan_loads(switch.chain as usize, queries, entries);
    for stage in 0..switch.stages {
        stage_fits(switch, loads.at(stage))?;
    }
    Ok(())
}

/// Whether the metadata of all pieces keeps the limit.
fn metadata_fits(switch: &Switch, queries: &[TypedQuery], entries: &[Entry]) -> Result<(), Misfit>
    requires { all_metadata queries.now entries.now < 2 ^ 64 }
    ensures { reported result ≡ meta_misfit switch.now (all_metadata queries.now entries.now) }
{
    at_most(
        MisfitKind::Meta,
        u64::from(switch.meta),
        plan_metadata(queries, entries),
    )
}

/// The checks one after another.
fn checked(t: &Typed, s: &Switch, plan: &Plan) -> Result<(), Misfit>
    requires { IsSwitch s.now }
    ensures { reported result ≡ fit_misfit t.now.queries s.now plan.now.entries }
{
    let queries = t.queries.as_slice();
    let entries = plan.entries.as_slice();
    paths(queries, entries)?;
    plan_pieces(s, queries, entries)?;
    stages_fit(s, queries, entries)?;
    metadata_fits(s, queries, entries)
}

/// Whether a plan fits the switch: its entries are those of the queries, every piece has its cut, its sizes and a place
/// for its tables in the stages, and over the whole plan each stage's registers, their bits, and the metadata keep the
/// limits. The switch is one that a text can stand for. It takes no memory.
///
/// # Errors
/// The first check that fails, in the order of [`MisfitKind`]: the paths of all entries, then piece by piece `Cut` to
/// `Stage`, then stage by stage `Actions` and `Bits`, then `Meta`.
pub fn fits(t: &Typed, s: &Switch, plan: &Plan) -> Result<(), Misfit>
    requires { IsSwitch s.now }
    // A plan is answered `Ok` exactly where it fits.
    ensures fits { IsOk result ↔ Fits t.now.queries s.now plan.now.entries }
    // Else the first check that fails is answered.
    ensures misfit { reported result ≡ fit_misfit t.now.queries s.now plan.now.entries }
{
    checked(t, s, plan)
}

/// Whether every path, and then every cut, is one of its query.
fn shaped(t: &Typed, plan: &Plan) -> Result<(), Misfit>
    ensures { reported result ≡ shape_misfit t.now.queries plan.now.entries }
{
    let queries = t.queries.as_slice();
    let entries = plan.entries.as_slice();
    paths(queries, entries)?;
    plan_cuts(queries, entries)
}

/// Whether a plan has the shape of the queries: its entries are theirs, and every cut is one of its branch. Sizes and
/// stages aren't looked at. It takes no memory.
///
/// # Errors
/// The first of the checks `Path` of all entries and `Cut` of all pieces that fails.
pub fn shape(t: &Typed, plan: &Plan) -> Result<(), Misfit>
    // A plan is answered `Ok` exactly where it has the shape.
    ensures shape { IsOk result ↔ HasShape t.now.queries plan.now.entries }
    // Else the first check that fails is answered.
    ensures misfit { reported result ≡ shape_misfit t.now.queries plan.now.entries }
{
    shaped(t, plan)
}
