//! Making what is known of each choice.
ghost use Rattle.std.specs.Prelude.{◌≡◌, ◌<◌, ◌≤◌, ◌+◌, ℕ, List, ◌++◌, map, length, false, IfOk, OnOk, take};
ghost use Rattle.std.specs.List.{sum_by};
ghost use Rattle.sn_switch.specs.Texts.{IsSwitch};
ghost use Rattle.sn_types.specs.declared.typed_query.TypedQuery.{TypedQuery};
ghost use Rattle.sn_types.specs.Typed.{query_at};
ghost use Rattle.sn_plan_fit.specs.Capped.{capped};
ghost use Rattle.sn_plan_fit.specs.Registers.{metadata};
ghost use Rattle.sn_plan_choices.specs.Settings.{IsNarrow};
ghost use Rattle.sn_plan_choices.specs.Costs.{entry_in, HasPlaces};
ghost use Rattle.sn_plan_choices.specs.Options.{options};
ghost use Rattle.sn_plan_choices.specs.Within.{least_below};
ghost use Rattle.sn_plan_choices.specs.Planning.{PathTask, level_pieces, path_pieces, pieces_of};
ghost use Rattle.sn_plan_space.specs.Known.{known_option, known_piece, known_path, known_query, numbered};
ghost use Rattle.sn_plan_space.specs.Made.{task_of};
ghost use Rattle.sn_plan_space.specs.Readable.{IsReadable, AreReadable, AreNarrow};

use crate::known::{KnownOption, KnownPiece, KnownQuery, PieceAt};
use crate::slots::piece_slots;
use sn_base::memory::Memory;
use sn_base::seq::Seq;
use sn_plan_choices::costs::CostTable;
use sn_plan_choices::setting::{branch_option, branch_options};
use sn_plan_fit::metadata::piece_metadata;
use sn_plan_grammar::plan::Piece;
use sn_plan_grammar::short::Short;
use sn_switch::switch::Switch;
use sn_types::typed_query::{TypedBranch, TypedQuery};
use std::alloc::Global;

/// No numbers.
fn no_numbers(alloc: Global) -> Short {
    match Short::new(alloc, &[]) {
        Some(none) => none,
        None => unreachable!(),
    }
}

/// The metadata of a piece of a branch that is cut there.
fn metadata_at(alloc: Global, branch: &TypedBranch, cut: u32) -> u64
    ensures { result ≡ metadata branch.now.schemas false 0 (take cut branch.now.ops) }
{
    let piece = Piece {
        level: 0,
        branch: 0,
        cut,
        slots: no_numbers(alloc),
        stages: no_numbers(alloc),
    };
    piece_metadata(branch, &piece)
}

/// The least of the first n + 1 numbers, from that of the first n and the next.
pub fn lesser(n: u32, least: u64, next: u64) -> u64
    ensures { (f : ℕ → ℕ) → least ≡ least_below f n → next ≡ f n → result ≡ least_below f (n + 1) }
{
    if n == 0 { next } else { next.min(least) }
}

/// An option of a piece, by its number.
fn option_of(
    alloc: Global,
    s: &Switch,
    c: &CostTable,
    at: PieceAt,
    branch: &TypedBranch,
    n: u32,
) -> Result<KnownOption, Memory>
    requires switch { IsSwitch s.now }
    requires narrow { IsNarrow branch.now }
    requires places { HasPlaces c.now (at.query + 1) }
    requires levels { at.levels < 16 }
    requires number { at.number < 2 }
    requires n { n < 256 }
    ensures { IfOk result (λ option. option ≡ known_option s.now (entry_in c.now) (task_of at branch.now) n) }
{
    let setting = branch_option(s, branch, n);
    let slots = piece_slots(alloc, s, at.is_first, branch, &setting)?;
    Ok(KnownOption {
        cost: c.entry(at.query, at.levels, at.number, n),
        metadata: metadata_at(alloc, branch, setting.cut),
        slots,
    })
}

/// A piece with its options.
fn piece_of(
    alloc: Global,
    s: &Switch,
    c: &CostTable,
    at: PieceAt,
    branch: &TypedBranch,
) -> Result<KnownPiece, Memory>
    requires switch { IsSwitch s.now }
    requires narrow { IsNarrow branch.now }
    requires places { HasPlaces c.now (at.query + 1) }
    requires levels { at.levels < 16 }
    requires number { at.number < 2 }
    ensures { IfOk result (λ piece. piece ≡ known_piece s.now (entry_in c.now) (task_of at branch.now)) }
{
    let mut options = Seq::new(alloc);
    let mut least = 0;
    let count = branch_options(s, branch);
    for n in 0..count {
        let option = option_of(alloc, s, c, at, branch, n)?;
        least = lesser(n, least, option.cost);
        options.push(option)?;
    }
    Ok(KnownPiece {
        least,
        count,
        options,
    })
}

/// Adds the pieces of a level, one for each branch.
pub fn add_level(
    pieces: &mut Seq<KnownPiece>,
    alloc: Global,
    s: &Switch,
    c: &CostTable,
    at: PieceAt,
    branches: &[TypedBranch],
) -> Result<(), Memory>
    requires switch { IsSwitch s.now }
    requires narrow { AreNarrow branches.now }
    requires few { length branches.now ≤ 2 }
    requires places { HasPlaces c.now (at.query + 1) }
    requires levels { at.levels < 16 }
    ensures { OnOk result (pieces.new ≡ pieces.old ++ map (known_piece s.now (entry_in c.now)) (level_pieces at.query at.levels at.is_first 0 branches.now)) }
{
    for (n, branch) in branches.iter().enumerate() {
        let own = PieceAt {
            query: at.query,
            levels: at.levels,
            is_first: at.is_first,
            number: n as u32,
        };
        pieces.push(piece_of(alloc, s, c, own, branch)?)?;
    }
    Ok(())
}
