//! What is kept of answers for the next window.
ghost use Rattle.std.specs.Prelude.{◌≡◌, ◌<◌, [], length, slice_get, unwrap_or, IfOk, MatchOption};
ghost use Rattle.std.specs.FinSet as set;
ghost use Rattle.sn_engine.specs.Intakes.{AreIntakes};
ghost use Rattle.sn_engine.specs.Keeping.{gathered, kept_for, level_prefixes, rows_found};
ghost use Rattle.sn_refine.specs.Steps.{prefixes_of};
ghost use Rattle.sn_types.specs.Typed.{query_at};

use crate::intake::Intake;
use sn_base::members::Members;
use sn_base::memory::Memory;
use sn_base::seq::Seq;
use sn_refine::members::members;
use sn_types::answers::{AnswerRows, Part};
use sn_types::typed::Typed;
use std::alloc::Global;

/// The rows of the answer of a query at a level. `None` where there is no such answer.
fn rows_found(parts: &[Part], query: u32, level: u32) -> Option<&AnswerRows>
    ensures { MatchOption result (rows_found parts.now query level ≡ []) (λ rows. rows.now ≡ rows_found parts.now query level) }
{
    for part in parts {
        if part.query == query && part.level == level {
            return Some(&part.rows);
        }
    }
    None
}

/// The prefixes that these answers have of a query at a level.
fn prefixes_at(
    alloc: Global,
    t: &Typed,
    parts: &[Part],
    query: u32,
    level: u32,
) -> Result<Members, Memory>
    requires { query < length t.now.queries }
    ensures { IfOk result (λ kept. kept ≡ prefixes_of (query_at t.now.queries query) (rows_found parts.now query level)) }
{
    match rows_found(parts, query, level) {
        Some(rows) => members(alloc, t, query, rows),
        None => Ok(Members::new(alloc)),
    }
}

/// The prefixes that these answers have of a query at a level, and none where no level is named.
pub fn level_prefixes(
    alloc: Global,
    t: &Typed,
    parts: &[Part],
    query: u32,
    level: Option<u32>,
) -> Result<Members, Memory>
    requires { query < length t.now.queries }
    ensures { IfOk result (λ kept. kept ≡ level_prefixes t.now.queries parts.now query level) }
{
    match level {
        Some(level) => prefixes_at(alloc, t, parts, query, level),
        None => Ok(Members::new(alloc)),
    }
}

/// Lane by lane: the prefixes that these answers have at the level before the lane's own.
pub(crate) fn gather(
    alloc: Global,
    t: &Typed,
    parts: &[Part],
    lanes: &[Intake],
) -> Result<Seq<Members>, Memory>
    requires { AreIntakes t.now.queries lanes.now }
    ensures { IfOk result (λ sets. sets ≡ gathered t.now.queries parts.now lanes.now) }
{
    let mut sets = Seq::new(alloc);
    for x in lanes {
        sets.push(level_prefixes(alloc, t, parts, x.query, x.before)?)?;
    }
    Ok(sets)
}

/// The prefixes for a window, lane by lane: those of the last close, if that closed the window before this one.
pub(crate) fn kept_for(closed: Option<u64>, sets: &[Members], window: u64) -> &[Members]
    ensures { result.now ≡ kept_for closed sets.now window }
{
    match closed {
        Some(last) => {
            if window > 0 && window - 1 == last {
                sets
            } else {
                &[]
            }
        }
        None => &[],
    }
}

/// The prefixes of a lane by its number, and none where there are none for it.
pub(crate) fn members_at<'a>(sets: &'a [Members], lane: usize, none: &'a Members) -> &'a Members
    requires { none.now ≡ set.empty }
    ensures { result.now ≡ unwrap_or (slice_get sets.now lane) set.empty }
{
    match sets.get(lane) {
        Some(members) => members,
        None => none,
    }
}
