//! A query to which tuples come one after another.
ghost use Rattle.std.specs.Prelude.{◌≡◌, ◌<◌, ℕ, List, [], length, nat_eq, true, IfOk, OnOk};
ghost use Rattle.std.specs.List.{list_any};
ghost use Rattle.sn_base.specs.RowLists.{rows_in};
ghost use Rattle.sn_types.specs.Typed.{query_at};
ghost use Rattle.sn_lanes_narrow.specs.Asked.{AreOf};
ghost use Rattle.sn_ops_stream.specs.Streams.{QueryGivesRows, QueryHasTaken, QueryHasTakenMore, QueryIsTaking};

use crate::any_branch::AnyBranch;
use sn_base::memory::Memory;
use sn_base::row_list::RowList;
use sn_fields::tuple::Tuple;
use sn_lanes_narrow::asked::Asked;
use sn_ops::lists::join_lists;
use sn_types::typed::Typed;
use std::alloc::Global;

/// A query at a level, to which tuples come one after another.
#[derive(Drop)]
pub struct QueryStream<'a> {
    /// The number of the query.
    pub q: u32,
    /// One of its levels.
    pub level: u32,
    first: AnyBranch<'a>,
    /// `None` exactly where the query has one branch.
    second: Option<AnyBranch<'a>>,
}

impl<'a> QueryStream<'a> {
    /// A query at a level, to which no tuple has come.
    pub fn begin(alloc: Global, t: &'a Typed, q: u32, level: u32) -> Result<QueryStream<'a>, Memory>
        requires query { q < length t.now.queries }
        requires level { list_any (nat_eq level) (query_at t.now.queries q).levels ≡ true }
        ensures query { IfOk result (λ stream. stream.q ≡ q) }
        ensures level { IfOk result (λ stream. stream.level ≡ level) }
        ensures taken { IfOk result (QueryHasTaken t.now.queries []) }
    {
        let first = AnyBranch::begin(alloc, t, q, 0, level)?;
        let second = if t.branches(q) == 2 {
            Some(AnyBranch::begin(alloc, t, q, 1, level)?)
        } else {
            None
        };
        Ok(QueryStream {
            q,
            level,
            first,
            second,
        })
    }

    /// Tells its branches to expect as much as those of `before` have seen, which is the same query in the window before. No
    /// answer depends on it.
    pub(crate) fn expect(&mut self, before: &QueryStream<'_>)
        ensures { self.new ≡ self.old }
    {
        self.first.expect(&before.first);
        if let (Some(second), Some(before)) = (&mut self.second, &before.second) {
            second.expect(before);
        }
    }

    /// Takes the next tuples, of which `asked` may be asked, one branch after the other.
    pub fn take(&mut self, tuples: &[Tuple], asked: &mut Asked) -> Result<(), Memory>
        requires taking { QueryIsTaking self.old }
        requires asked { AreOf tuples.now asked.old }
        ensures taken { OnOk result (QueryHasTakenMore tuples.now self.old self.new) }
        ensures asked { OnOk result (AreOf tuples.now asked.new) }
    {
        self.first.take(tuples, asked)?;
        match &mut self.second {
            Some(second) => second.take(tuples, asked),
            None => Ok(()),
        }
    }

    /// The rows of the query on the tuples that came: those of its branch, or those of its two branches joined and taken through
    /// the operators after the join.
    pub fn finish(self, alloc: Global, t: &Typed) -> Result<RowList, Memory>
        requires { (tuples : List (List ℕ)) × QueryHasTaken t.now.queries tuples self }
        ensures { IfOk result (λ list. QueryGivesRows t.now.queries self.entry (rows_in list)) }
    {
        let QueryStream {
            q,
            level,
            first,
            second,
        } = self;
        let first = first.finish(alloc)?;
        match second {
            Some(second) => {
                let second = second.finish(alloc)?;
                join_lists(alloc, t, q, level, first, second)
            }
            None => Ok(first),
        }
    }
}
