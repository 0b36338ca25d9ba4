//! The prefixes that answers keep for the lanes.
ghost use Rattle.std.specs.Prelude.{◌≡◌, map, IfOk};
ghost use Rattle.sn_engine_lockstep.specs.Sources.{prefixes_in};
ghost use Rattle.sn_engine_lockstep.specs.Known.{AreKnown};

use sn_base::members::Members;
use sn_base::memory::Memory;
use sn_base::seq::Seq;
use sn_engine::engine::Engine;
use sn_engine_lockstep::source::{Source, prefixes_in};
use sn_types::answers::{Answers, Part};
use sn_types::typed::Typed;
use std::alloc::Global;

/// By lane: the prefixes that these answers have at the level of its source.
fn sets_of(
    alloc: Global,
    t: &Typed,
    parts: &[Part],
    sources: &[Source],
) -> Result<Seq<Members>, Memory>
    requires { AreKnown t.now.queries sources.now }
    ensures { IfOk result (λ sets. sets ≡ map (prefixes_in t.now.queries parts.now) sources.now) }
{
    let mut sets = Seq::new(alloc);
    for source in sources {
        sets.push(prefixes_in(alloc, t, parts, *source)?)?;
    }
    Ok(sets)
}

/// By lane: the prefixes that these answers keep for it.
pub(crate) fn prefix_sets(
    engine: &Engine,
    answers: &Answers,
    sources: &Seq<Source>,
) -> Result<Seq<Members>, Memory>
    requires { AreKnown engine.now.t.queries sources.now }
    ensures { IfOk result (λ sets. sets ≡ map (prefixes_in engine.now.t.queries answers.now.parts) sources.now) }
{
    let parts = answers.parts.as_slice();
    sets_of(engine.alloc, &engine.t, parts, sources.as_slice())
}
