//! The refined answers of a query beside the unrefined ones, window by window.
ghost use Rattle.std.specs.Prelude.{◌≡◌, ◌<◌, ◌≤◌, ◌++◌, ◌∷◌, ◌-◌, [], ℕ, suc, filter, length, map, true, slice_index, unwrap_or};
ghost use Rattle.std.specs.Prelude.{IsSome, Some, None, IfOk, OnOk, OnErr};
ghost use Rattle.std.specs.List.{AllByRecursion};
ghost use Rattle.std.proofs.Math.Bool.{Bool-set};
ghost use Rattle.std.proofs.Math.Bridge.{le_prop};
ghost use Rattle.sn_refine_laws.specs.Monotone.{is_monotone};
ghost use Rattle.sn_refine_laws.specs.Reported.{EndsFinest};
ghost use Rattle.sn_fields.specs.declared.field.Field.{Field};
ghost use Rattle.sn_detect.specs.Keeping.{AreUpTo, InTime, OnTheWay, Rise, is_admitted, look_of, time_prop, upto_prop, way_prop, ends_prop, path_prop, rise_prop};
ghost use Rattle.sn_detect.specs.Stays.{AreStays, HeldIn, IsInTime, ReportedIn};
ghost use Rattle.sn_detect.specs.Finding.{stays_of};
ghost use Rattle.sn_refine.specs.Refined.{column_of, level_rows};
ghost use Rattle.sn_refine.specs.Steps.{IsPathOf, kept_at, kept_of, parts_in, rows_at};
ghost use Rattle.sn_types.specs.Typed.{HasWidths, finest_level, query_at};
ghost use Rattle.sn_windows.specs.Rising.{IsAbove};

use crate::finding::stays_of;
use crate::look::Look;
use crate::stay::Stay;
use sn_base::any_row::AnyRow;
use sn_base::memory::Memory;
use sn_base::number::Number;
use sn_base::seq::Seq;
use sn_fields::tuple::Tuple;
use sn_refine::members::{column, place_of};
use sn_refine::refined::{Refined, first_rows};
use sn_types::answers::{AnswerRows, EitherRows};
use sn_types::typed::Typed;
use std::alloc::Global;

/// The answers of a window at the finest level.
#[derive(Drop)]
pub struct Compared {
    /// Refined along the path.
    pub refined: AnswerRows,
    /// To all tuples.
    pub unrefined: AnswerRows,
}

/// A query that is refined along a path, beside the same query unrefined.
#[derive(Drop)]
pub struct Detect {
    pub alloc: Global,
    pub t: Typed,
    pub refined: Refined,
    /// The windows that were given, in their order.
    pub looks: Seq<Look>,
    ghost path: { IsPathOf t.queries refined.query refined.path } by { path_prop t.queries refined.query refined.path },
    ghost some: { 1 ≤ length refined.path },
    ghost is_refined: { IsSome (query_at t.queries refined.query).field },
    ghost ends: { EndsFinest (query_at t.queries refined.query) refined.path } by { ends_prop (query_at t.queries refined.query) refined.path },
    ghost upto: { AreUpTo refined.last looks } by { upto_prop refined.last looks },
    ghost rise: { Rise looks } by { rise_prop looks },
    // what the next window rests on: the prefixes of the addresses that were held on up to the last one
    ghost way: { is_monotone (query_at t.queries refined.query) ≡ true →
        OnTheWay (query_at t.queries refined.query).field refined.path refined.last refined.kept
        looks } by { way_prop (is_monotone (query_at t.queries refined.query))
            (query_at t.queries refined.query).field refined.path refined.last refined.kept looks },
    // bounded delay
    ghost time: { is_monotone (query_at t.queries refined.query) ≡ true →
        InTime refined.path looks } by { time_prop (is_monotone (query_at t.queries refined.query)) refined.path looks },
}

/// The numbers in the refinement column of rows of one kind.
fn numbers_of<R: AnyRow>(alloc: Global, t: &Typed, q: u32, rows: &[R]) -> Result<Seq<u128>, Memory>
    requires { q < length t.now.queries }
    ensures { IfOk result (λ numbers. numbers ≡
        map (λ row. slice_index (R.columns row) (unwrap_or (query_at t.now.queries q).column 0)) rows.now) }
{
    let place = place_of(t, q);
    let mut numbers = Seq::new(alloc);
    for row in rows {
        numbers.push(column(row, place).whole())?;
    }
    Ok(numbers)
}

/// The numbers in the refinement column of answers, whose kind is asked once.
fn addresses(alloc: Global, t: &Typed, q: u32, rows: &AnswerRows) -> Result<Seq<u128>, Memory>
    requires { q < length t.now.queries }
    ensures { IfOk result (λ numbers. numbers ≡ column_of (query_at t.now.queries q) rows.now) }
{
    match rows.either() {
        EitherRows::Short(rows) => numbers_of(alloc, t, q, rows.as_slice()),
        EitherRows::Wide(rows) => numbers_of(alloc, t, q, rows.as_slice()),
    }
}

impl Detect {
    /// No window was given yet.
    pub fn make(alloc: Global, t: &Typed, q: u32, path: &[u32]) -> Result<Detect, Memory>
        requires path { IsPathOf t.now.queries q path.now }
        requires some { 1 ≤ length path.now }
        requires refined { IsSome (query_at t.now.queries q).field }
        requires ends { EndsFinest (query_at t.now.queries q) path.now }
        ensures queries { IfOk result (λ detect. detect.t.queries ≡ t.now.queries) }
        ensures query { IfOk result (λ detect. detect.refined.query ≡ q) }
        ensures path { IfOk result (λ detect. detect.refined.path ≡ path.now) }
        ensures last { IfOk result (λ detect. detect.refined.last ≡ None) }
        ensures kept { IfOk result (λ detect. detect.refined.kept ≡ []) }
        ensures looks { IfOk result (λ detect. detect.looks ≡ []) }
    {
        let refined = Refined::make(alloc, t, q, path)?;
        let copied = t.copy()?;
        Ok(Detect {
            alloc,
            t: copied,
            refined,
            looks: Seq::new(alloc),
        })
    }

    /// The answers to all tuples at the finest level.
    fn unrefined(&self, tuples: &[Tuple]) -> Result<AnswerRows, Memory>
        ensures { let query = query_at self.now.t.queries self.now.refined.query in IfOk result
            (λ rows. rows ≡ level_rows query (finest_level query) (Some tuples.now)) }
    {
        let q = self.refined.query;
        let finest = self.t.finest_level(q);
        first_rows(self.alloc, &self.t, q, finest, tuples)
    }

    /// Both answers of a window at the finest level. An `Err` changes nothing.
    pub fn window(&mut self, w: u64, tuples: &[Tuple]) -> Result<Compared, Memory>
        requires above { IsAbove self.old.refined.last w }
        requires widths { AllByRecursion HasWidths tuples.now }
        ensures unrefined { let query = query_at self.old.t.queries self.old.refined.query in IfOk result
            (λ compared. compared.unrefined ≡ level_rows query (finest_level query) (Some tuples.now)) }
        ensures refined { let query = query_at self.old.t.queries self.old.refined.query in IfOk result (λ compared.
            (last : ℕ) → length self.old.refined.path ≡ suc last →
            compared.refined ≡ rows_at query self.old.refined.path (kept_at self.old.refined.last self.old.refined.kept w) tuples.now last) }
        ensures no_false_row { let query = query_at self.old.t.queries self.old.refined.query in IfOk result (λ compared.
            (last : ℕ) (field : Field) → length self.old.refined.path ≡ suc (suc last) → query.field ≡ Some field →
            compared.refined ≡ filter (is_admitted query field (slice_index self.old.refined.path last)
            (kept_at self.old.refined.last self.old.refined.kept w last)) compared.unrefined) }
        ensures looks { let query = query_at self.old.t.queries self.old.refined.query in IfOk result (λ compared.
            self.new.looks ≡ self.old.looks
            ++ record { window = w; unrefined = column_of query compared.unrefined; refined = column_of query compared.refined } ∷ []) }
        ensures looked { let query = query_at self.old.t.queries self.old.refined.query in OnOk result
            (self.new.looks ≡ self.old.looks ++ look_of query self.old.refined.path (kept_at self.old.refined.last self.old.refined.kept w) w tuples.now ∷ []) }
        ensures last { OnOk result (self.new.refined.last ≡ Some w) }
        ensures kept { let query = query_at self.old.t.queries self.old.refined.query in OnOk result
            (self.new.refined.kept ≡ kept_of query self.old.refined.path
            (parts_in self.old.refined.query query self.old.refined.path (kept_at self.old.refined.last self.old.refined.kept w) tuples.now)) }
        ensures err { OnErr result ((self.new.refined.last ≡ self.old.refined.last)
            × (self.new.refined.kept ≡ self.old.refined.kept) × (self.new.looks ≡ self.old.looks)) }
        ensures queries { self.new.t.queries ≡ self.old.t.queries }
        ensures query { self.new.refined.query ≡ self.old.refined.query }
        ensures path { self.new.refined.path ≡ self.old.refined.path }
    {
        let q = self.refined.query;
        let unrefined = self.unrefined(tuples)?;
        let (parts, kept) = self.refined.answers(&self.t, w, tuples)?;
        let mut parts = parts;
        let refined = match parts.pop() {
            Some(part) => part.rows,
            None => return Err(Memory),
        };
        let look = Look {
            window: w,
            unrefined: addresses(self.alloc, &self.t, q, &unrefined)?,
            refined: addresses(self.alloc, &self.t, q, &refined)?,
        };
        self.looks.push(look)?;
        self.refined.keep(w, kept);
        Ok(Compared { refined, unrefined })
    }

    /// The stays of all addresses over the windows given, by address and then by window, and when each was printed.
    pub fn stays(&self) -> Result<Seq<Stay>, Memory>
        ensures stays { IfOk result (λ stays. stays ≡ stays_of self.now.looks) }
        ensures exact { IfOk result (AreStays (HeldIn self.now.looks) (ReportedIn self.now.looks)) }
        ensures in_time { is_monotone (query_at self.now.t.queries self.now.refined.query) ≡ true →
            IfOk result (AllByRecursion (IsInTime (length self.now.refined.path))) }
    {
        stays_of(self.alloc, self.looks.as_slice())
    }

    /// `stays`, where no window follows.
    pub fn finish(self) -> Result<Seq<Stay>, Memory>
        ensures stays { IfOk result (λ stays. stays ≡ stays_of self.looks) }
        ensures exact { IfOk result (AreStays (HeldIn self.looks) (ReportedIn self.looks)) }
        ensures in_time { is_monotone (query_at self.t.queries self.refined.query) ≡ true →
            IfOk result (AllByRecursion (IsInTime (length self.refined.path))) }
    {
        self.stays()
    }
}
