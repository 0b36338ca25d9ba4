//! All queries of a file on their way through a window.
ghost use Rattle.std.specs.Prelude.{◌≡◌, ℕ, List, [], ◌∷◌, ◌++◌, IfOk, OnOk};
ghost use Rattle.sn_types.specs.declared.typed_query.TypedQuery.{TypedQuery};
ghost use Rattle.sn_ops_stream.specs.Streams.{AllHaveTaken, HaveCome};

use crate::queries::{begin_all, expect_all, take_all};
use crate::query::QueryStream;
use sn_base::memory::Memory;
use sn_base::seq::Seq;
use sn_fields::tuple::Tuple;
use sn_lanes_narrow::asked::Asked;
use sn_types::typed::Typed;
use std::alloc::Global;
use std::mem;

/// How many tuples a block has.
const BLOCK: usize = 16384;

/// All queries, each at its finest level, to which tuples come one after another. They take them a block at a time, query by query and
/// branch by branch: tuple by tuple the tables of all branches would be in use at once, and each would find less of itself in the
/// processor's caches. Each different condition of the filters at their fronts is asked once for all tuples of a block.
#[derive(Drop)]
pub struct Streams<'a> {
    pub streams: Vec<QueryStream<'a>>,
    /// The tuples that came last, which the queries are still to take.
    pub block: Seq<Tuple>,
    /// What the filters at the fronts of the branches ask of the tuples of a block.
    asked: Asked,
}

impl<'a> Streams<'a> {
    /// Queries to which no tuple has come.
    pub fn begin(alloc: Global, t: &'a Typed) -> Result<Streams<'a>, Memory>
        ensures { IfOk result (HaveCome t.now.queries []) }
    {
        let streams = begin_all(alloc, t)?;
        Ok(Streams {
            streams,
            block: Seq::new(alloc),
            asked: Asked::new(alloc),
        })
    }

    /// The queries take the tuples of the block.
    fn take_block(&mut self) -> Result<(), Memory>
        requires { (queries : List TypedQuery) × (tuples : List (List ℕ)) × HaveCome queries tuples self.old }
        ensures taken { OnOk result ((queries : List TypedQuery) (tuples : List (List ℕ)) → HaveCome queries tuples self.old →
            AllHaveTaken queries tuples self.new.streams.items) }
        ensures empty { OnOk result (self.new.block ≡ []) }
    {
        self.asked.fill(self.block.as_slice())?;
        take_all(&mut self.streams, self.block.as_slice(), &mut self.asked)?;
        self.block.clear();
        Ok(())
    }

    /// Takes the next tuple.
    pub fn give(&mut self, tuple: &Tuple) -> Result<(), Memory>
        requires { (queries : List TypedQuery) × (tuples : List (List ℕ)) × HaveCome queries tuples self.old }
        ensures { OnOk result ((queries : List TypedQuery) (tuples : List (List ℕ)) → HaveCome queries tuples self.old →
            HaveCome queries (tuples ++ tuple.now ∷ []) self.new) }
    {
        self.block.push(*tuple)?;
        if self.block.as_slice().len() < BLOCK {
            return Ok(());
        }
        self.take_block()?;
        Ok(())
    }

    /// The queries, which have taken all tuples. Others, to which none has come, are in their place, and expect as many keys as
    /// the former have: each of their tables makes room once, with its first key, in place of growing by doubling. It takes at
    /// most the room that the window before took. No answer depends on it.
    pub fn end(&mut self, alloc: Global, t: &'a Typed) -> Result<Vec<QueryStream<'a>>, Memory>
        requires { (queries : List TypedQuery) × (tuples : List (List ℕ)) × HaveCome queries tuples self.old }
        ensures taken { IfOk result (λ streams. (queries : List TypedQuery) (tuples : List (List ℕ)) → HaveCome queries tuples self.old →
            AllHaveTaken queries tuples streams.items) }
        ensures begun { OnOk result (HaveCome t.now.queries [] self.new) }
    {
        self.take_block()?;
        let mut next = begin_all(alloc, t)?;
        expect_all(&mut next, &self.streams);
        Ok(mem::replace(&mut self.streams, next))
    }
}
