//! Where the prefixes come from that the lanes of a plan admit.
ghost use Rattle.std.specs.Prelude.{◌≡◌, ◌≤◌, ◌<◌, ◌++◌, [], length, map, IfOk, OnOk, MatchOption, Some, None};
ghost use Rattle.std.specs.List.{list_any};
ghost use Rattle.std.specs.Option.{option_map};
ghost use Rattle.sn_engine_lockstep.specs.Sources.{kept_in, prefixes_in, source_for, sources_of};

use sn_base::members::Members;
use sn_base::memory::Memory;
use sn_base::seq::Seq;
use sn_engine::keep::level_prefixes;
use sn_plan_fit::level_before;
use sn_plan_grammar::plan::{Entry, Piece};
use sn_types::answers::{Answers, Part};
use sn_types::typed::Typed;
use std::alloc::Global;

/// Whose prefixes the lane of a piece admits.
#[derive(Clone, Copy, Debug, PartialEq, Eq)]
pub struct Source {
    /// The number of the piece's query.
    pub query: u32,
    /// The level before the piece's own on the path of its query, if there is one.
    pub before: Option<u32>,
}

/// Adds the sources of these pieces.
fn push_sources(
    sources: &mut Seq<Source>,
    q: u32,
    path: &[u32],
    pieces: &[Piece],
) -> Result<(), Memory>
    requires { length path.now ≤ 8 }
    ensures { OnOk result (sources.new ≡ sources.old ++ map (source_for q path.now) pieces.now) }
{
    for piece in pieces {
        let before = level_before(path, piece.level);
        sources.push(Source { query: q, before })?;
    }
    Ok(())
}

/// The sources of a plan: one for each piece.
pub fn sources(alloc: Global, entries: &[Entry]) -> Result<Seq<Source>, Memory>
    requires { length entries.now ≤ 8 }
    ensures { IfOk result (λ sources. sources ≡ sources_of 0 entries.now) }
{
    let mut sources = Seq::new(alloc);
    let mut q = 0;
    for entry in entries {
        let path = entry.levels.as_slice();
        push_sources(&mut sources, q, path, entry.pieces.as_slice())?;
        q += 1;
    }
    Ok(sources)
}

/// The prefixes that these answers have at the level of a source.
pub fn prefixes_in(
    alloc: Global,
    t: &Typed,
    parts: &[Part],
    source: Source,
) -> Result<Members, Memory>
    requires { source.query < length t.now.queries }
    ensures { IfOk result (λ kept. kept ≡ prefixes_in t.now.queries parts.now source) }
{
    level_prefixes(alloc, t, parts, source.query, source.before)
}

/// The prefixes that a lane admits: those of the answers of the window before this one, if that was the last one.
pub(crate) fn kept_in(
    alloc: Global,
    t: &Typed,
    last: &Option<Answers>,
    window: u64,
    source: Source,
) -> Result<Members, Memory>
    requires { source.query < length t.now.queries }
    ensures { IfOk result (λ kept. kept ≡ kept_in t.now.queries last.now window source) }
{
    match last {
        Some(answers) => {
            if answers.window.checked_add(1) == Some(window) {
                prefixes_in(alloc, t, answers.parts.as_slice(), source)
            } else {
                Ok(Members::new(alloc))
            }
        }
        None => Ok(Members::new(alloc)),
    }
}
