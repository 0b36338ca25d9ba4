//! Unsplit queries and a window.
ghost use Rattle.std.specs.Prelude.{◌≡◌, ℕ, List, [], IfOk, OnOk};
ghost use Rattle.sn_ops_stream.specs.Streams.{HaveCome};
ghost use Rattle.sn_top.specs.Answers.{block_text};

use crate::answers::window_text;
use sn_base::memory::Memory;
use sn_base::seq::Seq;
use sn_ops_stream::streams::Streams;
use sn_types::typed::Typed;
use std::alloc::Global;

/// Queries that are asked unsplit, each with what the tuples of the current window have made of it.
#[derive(Drop)]
pub struct Unsplit<'a> {
    pub alloc: Global,
    pub typed: &'a Typed,
    pub streams: Streams<'a>,
}

impl<'a> Unsplit<'a> {
    /// Queries to which no tuple has come.
    pub(crate) fn begin(alloc: Global, typed: &'a Typed) -> Result<Unsplit<'a>, Memory>
        ensures queries { IfOk result (λ unsplit. unsplit.typed.now.queries ≡ typed.now.queries) }
        ensures begun { IfOk result (λ unsplit. HaveCome unsplit.typed.now.queries [] unsplit.streams) }
    {
        let streams = Streams::begin(alloc, typed)?;
        Ok(Unsplit {
            alloc,
            typed,
            streams,
        })
    }

    /// The block of the current window. The queries begin the next one.
    pub(crate) fn end_window(&mut self, number: u64) -> Result<Seq<u8>, Memory>
        requires { (tuples : List (List ℕ)) × HaveCome self.old.typed.now.queries tuples self.old.streams }
        ensures text { IfOk result (λ text. (tuples : List (List ℕ)) → HaveCome self.old.typed.now.queries tuples self.old.streams →
            text ≡ block_text self.old.typed.now.queries number tuples) }
        ensures begun { OnOk result (HaveCome self.new.typed.now.queries [] self.new.streams) }
        ensures queries { OnOk result (self.new.typed.now.queries ≡ self.old.typed.now.queries) }
    {
        let streams = self.streams.end(self.alloc, self.typed)?;
        window_text(self.alloc, self.typed, number, streams)
    }
}
