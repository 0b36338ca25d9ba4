//! Making what is known of queries.
ghost use Rattle.std.specs.Prelude.{◌≡◌, ◌<◌, ◌≤◌, ◌+◌, ◌^◌, ◌++◌, map, length, Bool, [], ◌||◌, ◌==◌, ◌%◌, if◌then◌else◌, IfOk, OnOk};
ghost use Rattle.std.specs.List.{sum_by};
ghost use Rattle.sn_switch.specs.Texts.{IsSwitch};
ghost use Rattle.sn_plan_fit.specs.Capped.{capped};
ghost use Rattle.sn_plan_choices.specs.Costs.{entry_in, HasPlaces};
ghost use Rattle.sn_plan_choices.specs.Planning.{level_pieces, path_pieces};
ghost use Rattle.sn_plan_space.specs.declared.known.KnownPiece.{KnownPiece};
ghost use Rattle.sn_plan_space.specs.Known.{known_piece, known_query, numbered};
ghost use Rattle.sn_plan_space.specs.Made.{is_none};
ghost use Rattle.sn_plan_space.specs.Readable.{IsReadable, AreReadable, AreNarrow};

use crate::known::{KnownPiece, KnownQuery, PieceAt};
use crate::make::{add_level, lesser};
use sn_base::memory::Memory;
use sn_base::seq::Seq;
use sn_plan_choices::costs::CostTable;
use sn_switch::switch::Switch;
use sn_types::typed_query::{TypedBranch, TypedQuery};
use std::alloc::Global;

/// A power of two.
fn bit_of(i: usize) -> u32
    requires { i < 4 }
    ensures value { result ≡ 2 ^ i }
    ensures most { result ≤ 8 }
{
    if i == 0 {
        1
    } else if i == 1 {
        2
    } else if i == 2 {
        4
    } else {
        8
    }
}

/// A sum with the least that each of these pieces costs, or 2^64 - 1 where it is more.
pub fn add_least(sum: u64, pieces: &[KnownPiece]) -> u64
    ensures { result ≡ capped (sum + sum_by (λ (p : KnownPiece). p.least) pieces.now) }
{
    let mut total = sum;
    for piece in pieces {
        total = total.saturating_add(piece.least);
    }
    total
}

/// Adds the pieces of a level, if it is one of the path.
fn add_chosen(
    chosen: bool,
    pieces: &mut Seq<KnownPiece>,
    alloc: Global,
    s: &Switch,
    c: &CostTable,
    at: PieceAt,
    branches: &[TypedBranch],
) -> Result<(), Memory>
    requires switch { IsSwitch s.now }
    requires narrow { AreNarrow branches.now }
    requires few { length branches.now ≤ 2 }
    requires places { HasPlaces c.now (at.query + 1) }
    requires levels { at.levels < 16 }
    ensures { OnOk result (pieces.new ≡ pieces.old ++
        map (known_piece s.now (entry_in c.now)) (if chosen then level_pieces at.query at.levels at.is_first 0 branches.now else [])) }
{
    if chosen {
        add_level(pieces, alloc, s, c, at, branches)
    } else {
        Ok(())
    }
}

/// Whether a level, with these after it, is one of the path: the lowest bit says so, and the finest always is.
fn is_chosen(following: &[u32], left: u32) -> bool
    ensures { result ≡ (is_none following.now || (left % 2 == 1)) }
{
    match following {
        [] => true,
        [_, ..] => left % 2 == 1,
    }
}

/// The levels of a path after one that is chosen or not.
fn after_level(chosen: bool, front: u32, before: u32) -> u32
    ensures { result ≡ (if chosen then front else before) }
{
    if chosen { front } else { before }
}

/// The pieces of path m of a query.
fn path_of(
    alloc: Global,
    s: &Switch,
    c: &CostTable,
    query: u32,
    typed: &TypedQuery,
    m: u32,
) -> Result<Seq<KnownPiece>, Memory>
    requires switch { IsSwitch s.now }
    requires readable { IsReadable typed.now }
    requires places { HasPlaces c.now (query + 1) }
    ensures { IfOk result (λ pieces. pieces ≡ map (known_piece s.now (entry_in c.now)) (path_pieces query typed.now.branches m 0 0 typed.now.levels)) }
{
    let mut pieces = Seq::new(alloc);
    let mut levels = typed.levels.as_slice();
    let mut i = 0;
    let mut left = m;
    let mut before = 0;
    while let Some((_, following)) = levels.split_first() {
        let chosen = is_chosen(following, left);
        let front = before + bit_of(i);
        let at = PieceAt {
            query,
            levels: front,
            is_first: before == 0,
            number: 0,
        };
        add_chosen(
            chosen,
            &mut pieces,
            alloc,
            s,
            c,
            at,
            typed.branches.as_slice(),
        )?;
        before = after_level(chosen, front, before);
        left /= 2;
        i += 1;
        levels = following;
    }
    Ok(pieces)
}

/// A query with its paths.
fn query_of(
    alloc: Global,
    s: &Switch,
    c: &CostTable,
    query: u32,
    typed: &TypedQuery,
) -> Result<KnownQuery, Memory>
    requires switch { IsSwitch s.now }
    requires readable { IsReadable typed.now }
    requires places { HasPlaces c.now (query + 1) }
    ensures { IfOk result (λ known. known ≡ known_query s.now (entry_in c.now) (record { query = query; typed = typed.now })) }
{
    let mut paths = Seq::new(alloc);
    let mut least = 0;
    let count = bit_of(typed.levels.as_slice().len() - 1);
    for m in 0..count {
        let path = path_of(alloc, s, c, query, typed, m)?;
        least = lesser(m, least, add_least(0, path.as_slice()));
        paths.push(path)?;
    }
    Ok(KnownQuery {
        least,
        count,
        paths,
    })
}

/// All queries with their paths.
pub fn queries_of(
    alloc: Global,
    s: &Switch,
    c: &CostTable,
    queries: &[TypedQuery],
) -> Result<Seq<KnownQuery>, Memory>
    requires switch { IsSwitch s.now }
    requires readable { AreReadable queries.now }
    requires few { length queries.now ≤ 8 }
    requires places { HasPlaces c.now (length queries.now) }
    ensures { IfOk result (λ known. known ≡ map (known_query s.now (entry_in c.now)) (numbered 0 queries.now)) }
{
    let mut known = Seq::new(alloc);
    for (n, query) in queries.iter().enumerate() {
        known.push(query_of(alloc, s, c, n as u32, query)?)?;
    }
    Ok(known)
}
