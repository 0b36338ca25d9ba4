//! A branch to which tuples come, over rows of either kind.
ghost use Rattle.std.specs.Prelude.{◌≡◌, ◌<◌, [], length, nat_eq, true, IfOk, OnOk};
ghost use Rattle.std.specs.List.{list_any};
ghost use Rattle.sn_base.specs.RowLists.{rows_in};
ghost use Rattle.sn_types.specs.Typed.{branch_of, query_at};
ghost use Rattle.sn_lanes_narrow.specs.Asked.{AreOf};
ghost use Rattle.sn_ops_stream.specs.Streams.{GivesRows, HasTaken, HasTakenMore, IsTaking, branch_in};

use crate::branch::BranchStream;
use sn_base::memory::Memory;
use sn_base::row::Row;
use sn_base::row_list::RowList;
use sn_base::short_row::ShortRow;
use sn_fields::tuple::Tuple;
use sn_lanes_narrow::asked::Asked;
use sn_types::typed::Typed;
use std::alloc::Global;

/// A branch over rows of one kind, which is chosen when it begins. Its rows are short where it isn't wide.
#[derive(Drop)]
pub enum AnyBranch<'a> {
    Short(BranchStream<'a, ShortRow>),
    Wide(BranchStream<'a, Row>),
}

impl<'a> AnyBranch<'a> {
    /// A branch at a level, to which no tuple has come.
    pub fn begin(
        alloc: Global,
        t: &'a Typed,
        q: u32,
        b: u32,
        level: u32,
    ) -> Result<AnyBranch<'a>, Memory>
        requires query { q < length t.now.queries }
        requires branch { b < length (query_at t.now.queries q).branches }
        requires level { list_any (nat_eq level) (query_at t.now.queries q).levels ≡ true }
        ensures { IfOk result (λ branch. HasTaken t.now.queries q b level [] (branch_in branch)) }
    {
        if t.is_wide(q, b) {
            let branch = BranchStream::begin(alloc, t, q, b, level)?;
            Ok(AnyBranch::Wide(branch))
        } else {
            let branch = BranchStream::begin(alloc, t, q, b, level)?;
            Ok(AnyBranch::Short(branch))
        }
    }

    /// Tells its operators to expect as much as those of `before` have seen, which is the same branch in the window before. Both
    /// are short then, or both wide; of a branch of the other kind nothing is expected. No answer depends on it.
    pub(crate) fn expect(&mut self, before: &AnyBranch<'_>)
        ensures { self.new ≡ self.old }
    {
        match (self, before) {
            (AnyBranch::Short(branch), AnyBranch::Short(before)) => branch.expect(before),
            (AnyBranch::Wide(branch), AnyBranch::Wide(before)) => branch.expect(before),
            _ => {}
        }
    }

    /// Takes the next tuples, of which `asked` may be asked. The kind of rows is asked once for all of them.
    pub fn take(&mut self, tuples: &[Tuple], asked: &mut Asked) -> Result<(), Memory>
        requires taking { IsTaking (branch_in self.old) }
        requires asked { AreOf tuples.now asked.old }
        ensures taken { OnOk result (HasTakenMore tuples.now (branch_in self.old) (branch_in self.new)) }
        ensures asked { OnOk result (AreOf tuples.now asked.new) }
    {
        match self {
            AnyBranch::Short(branch) => branch.take(tuples, asked),
            AnyBranch::Wide(branch) => branch.take(tuples, asked),
        }
    }

    /// The rows of the branch on the tuples that came.
    pub fn finish(self, alloc: Global) -> Result<RowList, Memory>
        requires { IsTaking (branch_in self) }
        ensures { IfOk result (λ list. GivesRows (branch_in self.entry) (rows_in list)) }
    {
        match self {
            AnyBranch::Short(branch) => {
                let rows = branch.finish(alloc)?;
                Ok(RowList::Short(rows))
            }
            AnyBranch::Wide(branch) => {
                let rows = branch.finish(alloc)?;
                Ok(RowList::Wide(rows))
            }
        }
    }
}
