//! All queries of a file, to which tuples come one after another.
ghost use Rattle.std.specs.Prelude.{◌≡◌, ℕ, List, [], ◌∷◌, ◌++◌, IfOk, OnOk};
ghost use Rattle.sn_types.specs.declared.typed_query.TypedQuery.{TypedQuery};
ghost use Rattle.sn_lanes_narrow.specs.Asked.{AreOf};
ghost use Rattle.sn_ops_stream.specs.Streams.{AllHaveTaken};

use crate::query::QueryStream;
use sn_base::memory::Memory;
use sn_fields::tuple::Tuple;
use sn_lanes_narrow::asked::Asked;
use sn_types::typed::Typed;
use std::alloc::Global;

/// All queries, each at its finest level, to which no tuple has come.
pub(crate) fn begin_all<'a>(alloc: Global, t: &'a Typed) -> Result<Vec<QueryStream<'a>>, Memory>
    ensures { IfOk result (λ streams. AllHaveTaken t.now.queries [] streams.items) }
{
    let mut streams = Vec::new(alloc);
    for q in 0..t.queries() {
        let stream = QueryStream::begin(alloc, t, q, t.finest_level(q))?;
        streams.push(stream)?;
    }
    Ok(streams)
}

/// Tells each query to expect as much as the one at its place has seen in `before`, the window before. No answer depends on it.
pub(crate) fn expect_all(streams: &mut [QueryStream<'_>], before: &[QueryStream<'_>])
    ensures { streams.new ≡ streams.old }
{
    for (place, next) in streams.iter_mut().enumerate() {
        if let Some(last) = before.get(place) {
            next.expect(last);
        }
    }
}

/// All queries take the next tuples, of which `asked` may be asked, one query after another.
pub(crate) fn take_all(
    streams: &mut [QueryStream<'_>],
    tuples: &[Tuple],
    asked: &mut Asked,
) -> Result<(), Memory>
    requires taking { (queries : List TypedQuery) × (before : List (List ℕ)) × AllHaveTaken queries before streams.old }
    requires asked { AreOf tuples.now asked.old }
    ensures { OnOk result ((queries : List TypedQuery) (before : List (List ℕ)) → AllHaveTaken queries before streams.old →
        AllHaveTaken queries (before ++ tuples.now) streams.new) }
{
    for stream in streams.iter_mut() {
        stream.take(tuples, asked)?;
    }
    Ok(())
}
