//! The refined answers of a query, window by window.
ghost use Rattle.std.specs.Prelude.{◌≡◌, ◌<◌, ◌≤◌, map, take, length, nat_eq, true, filter, Some, None, [], IsSome, IfOk, OnOk, OnErr};
ghost use Rattle.std.specs.List.{list_any};
ghost use Rattle.std.specs.FinSet as set;
ghost use Rattle.sn_refine.specs.Refined.{level_rows};
ghost use Rattle.sn_refine.specs.Steps.{IsPathOf, follows, prefixes_of, kept_at, is_held, rows_at, parts_in, kept_of};
ghost use Rattle.sn_types.specs.Typed.{query_at};
ghost use Rattle.sn_windows.specs.Rising.{IsAbove};

use crate::members::members;
use sn_base::members::Members;
use sn_base::memory::Memory;
use sn_base::seq::Seq;
use sn_fields::tuple::Tuple;
use sn_ops::lists::plain_list;
use sn_ops::packets::Kept;
use sn_types::answers::{AnswerRows, Part};
use sn_types::typed::Typed;
use std::alloc::Global;

/// The refined answers of a query along a path of its levels: what a switch and an engine together have to give, with
/// neither of them. Windows are given by rising number; one that is left out held no record.
#[derive(Drop)]
pub struct Refined {
    pub alloc: Global,
    pub query: u32,
    pub path: Seq<u32>,
    /// The window that was given last.
    pub last: Option<u64>,
    /// The prefixes that each level but the last answered in that window.
    pub kept: Seq<Members>,
}

/// Whether window `w` is the next one after the one that was given last: no, where none was given.
pub fn follows(last: Option<u64>, w: u64) -> bool
    requires { IsAbove last w }
    ensures { result ≡ follows last w }
{
    match last {
        Some(last) => last + 1 == w,
        None => false,
    }
}

/// The answers at a level to all tuples.
pub fn first_rows(
    alloc: Global,
    t: &Typed,
    q: u32,
    level: u32,
    tuples: &[Tuple],
) -> Result<AnswerRows, Memory>
    requires query { q < length t.now.queries }
    requires level { list_any (nat_eq level) (query_at t.now.queries q).levels ≡ true }
    ensures { IfOk result (λ rows. rows ≡ level_rows (query_at t.now.queries q) level (Some tuples.now)) }
{
    let rows = plain_list(alloc, t, q, level, None, tuples)?;
    AnswerRows::sorted(rows)
}

/// The answers at a level to the tuples with one of these prefixes.
fn next_rows(
    alloc: Global,
    t: &Typed,
    q: u32,
    level: u32,
    kept: Kept,
    tuples: &[Tuple],
) -> Result<AnswerRows, Memory>
    requires query { q < length t.now.queries }
    requires level { list_any (nat_eq level) (query_at t.now.queries q).levels ≡ true }
    requires refined { IsSome (query_at t.now.queries q).field }
    requires bits { list_any (nat_eq kept.bits) (query_at t.now.queries q).levels ≡ true }
    ensures { let query = query_at t.now.queries q in IfOk result
        (λ rows. rows ≡ level_rows query level (Some (filter (is_held query.field kept.entry.bits kept.entry.members.now) tuples.now))) }
{
    let rows = plain_list(alloc, t, q, level, Some(kept), tuples)?;
    AnswerRows::sorted(rows)
}

/// The prefixes that each of these answers holds.
fn prefixes_of(alloc: Global, t: &Typed, q: u32, parts: &[Part]) -> Result<Seq<Members>, Memory>
    requires { q < length t.now.queries }
    ensures { IfOk result (λ sets. sets ≡ map (λ part. prefixes_of (query_at t.now.queries q) part.rows) parts.now) }
{
    let mut sets = Seq::new(alloc);
    for part in parts {
        sets.push(members(alloc, t, q, &part.rows)?)?;
    }
    Ok(sets)
}

impl Refined {
    /// No window was given yet.
    pub fn make(alloc: Global, t: &Typed, q: u32, path: &[u32]) -> Result<Refined, Memory>
        requires { IsPathOf t.now.queries q path.now }
        ensures query { IfOk result (λ refined. refined.query ≡ q) }
        ensures path { IfOk result (λ refined. refined.path ≡ path.now) }
        ensures last { IfOk result (λ refined. refined.last ≡ None) }
        ensures kept { IfOk result (λ refined. refined.kept ≡ []) }
    {
        let _queries = t.queries();
        let levels = path.to_vec(alloc)?;
        Ok(Refined {
            alloc,
            query: q,
            path: Seq::from_vec(levels),
            last: None,
            kept: Seq::new(alloc),
        })
    }

    /// The prefixes that the level at a place answered in the window before this one.
    pub fn kept_at<'a>(&'a self, w: u64, place: usize, none: &'a Members) -> &'a Members
        requires above { IsAbove self.now.last w }
        requires none { none.now ≡ set.empty }
        ensures { result.now ≡ kept_at self.now.last self.now.kept w place }
    {
        if !follows(self.last, w) {
            return none;
        }
        match self.kept.as_slice().get(place) {
            Some(members) => members,
            None => none,
        }
    }

    /// The answers at a place of the path.
    fn rows_at(
        &self,
        t: &Typed,
        w: u64,
        place: usize,
        none: &Members,
        tuples: &[Tuple],
    ) -> Result<AnswerRows, Memory>
        requires path { IsPathOf t.now.queries self.now.query self.now.path }
        requires above { IsAbove self.now.last w }
        requires place { place < length self.now.path }
        requires none { none.now ≡ set.empty }
        ensures { IfOk result (λ rows. rows ≡ rows_at (query_at t.now.queries self.now.query) self.now.path
            (kept_at self.now.last self.now.kept w) tuples.now place) }
    {
        let path = self.path.as_slice();
        if place == 0 {
            return first_rows(self.alloc, t, self.query, path[0], tuples);
        }
        let kept = Kept {
            members: self.kept_at(w, place - 1, none),
            bits: path[place - 1],
        };
        next_rows(self.alloc, t, self.query, path[place], kept, tuples)
    }

    /// The answers at the first n levels of the path.
    fn parts(&self, t: &Typed, w: u64, tuples: &[Tuple], count: usize) -> Result<Seq<Part>, Memory>
        requires path { IsPathOf t.now.queries self.now.query self.now.path }
        requires above { IsAbove self.now.last w }
        requires count { count ≤ length self.now.path }
        ensures { IfOk result (λ parts. parts ≡ take count
            (parts_in self.now.query (query_at t.now.queries self.now.query) self.now.path (kept_at self.now.last self.now.kept w) tuples.now)) }
    {
        let none = Members::new(self.alloc);
        let mut parts = Seq::new(self.alloc);
        for place in 0..count {
            let rows = self.rows_at(t, w, place, &none, tuples)?;
            parts.push(Part {
                query: self.query,
                level: self.path.as_slice()[place],
                rows,
            })?;
        }
        Ok(parts)
    }

    /// What `window` would answer, and the prefixes that it would keep. Nothing changes.
    pub fn answers(
        &self,
        t: &Typed,
        w: u64,
        tuples: &[Tuple],
    ) -> Result<(Seq<Part>, Seq<Members>), Memory>
        requires path { IsPathOf t.now.queries self.now.query self.now.path }
        requires above { IsAbove self.now.last w }
        ensures parts { IfOk result (λ both. both.0 ≡
            parts_in self.now.query (query_at t.now.queries self.now.query) self.now.path (kept_at self.now.last self.now.kept w) tuples.now) }
        ensures kept { IfOk result (λ both. both.1 ≡ kept_of (query_at t.now.queries self.now.query) self.now.path both.0) }
    {
        let levels = self.path.as_slice().len();
        let parts = self.parts(t, w, tuples, levels)?;
        let coarser = levels.saturating_sub(1);
        let kept = prefixes_of(self.alloc, t, self.query, &parts.as_slice()[..coarser])?;
        Ok((parts, kept))
    }

    /// A window was answered, of which these prefixes are kept.
    pub fn keep(&mut self, w: u64, kept: Seq<Members>)
        ensures kept { self.new.kept ≡ kept }
        ensures last { self.new.last ≡ Some w }
        ensures query { self.new.query ≡ self.old.query }
        ensures path { self.new.path ≡ self.old.path }
    {
        self.kept = kept;
        self.last = Some(w);
    }

    /// The answers at each level of the path in a window. A level after the first sees those tuples alone whose prefix
    /// the level before it answered in window `w - 1`; that is none where window `w - 1` wasn't given. An `Err` changes
    /// nothing.
    pub fn window(&mut self, t: &Typed, w: u64, tuples: &[Tuple]) -> Result<Seq<Part>, Memory>
        requires path { IsPathOf t.now.queries self.old.query self.old.path }
        requires above { IsAbove self.old.last w }
        ensures parts { IfOk result (λ parts. parts ≡
            parts_in self.old.query (query_at t.now.queries self.old.query) self.old.path (kept_at self.old.last self.old.kept w) tuples.now) }
        ensures kept { IfOk result (λ parts. self.new.kept ≡ kept_of (query_at t.now.queries self.old.query) self.old.path parts) }
        ensures last { OnOk result (self.new.last ≡ Some w) }
        ensures err { OnErr result ((self.new.last ≡ self.old.last) × (self.new.kept ≡ self.old.kept)) }
        ensures query { self.new.query ≡ self.old.query }
        ensures path { self.new.path ≡ self.old.path }
    {
        let (parts, kept) = self.answers(t, w, tuples)?;
        self.keep(w, kept);
        Ok(parts)
    }
}
