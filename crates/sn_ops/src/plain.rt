//! Whole queries on tuples, with no switch.
ghost use Rattle.std.specs.Prelude.{◌≡◌, ◌<◌, length, map, nat_eq, true, IfOk};
ghost use Rattle.std.specs.List.{list_any, AllByRecursion};
ghost use Rattle.sn_base.specs.Columns.{IsOf};
ghost use Rattle.sn_base.specs.Operators.{through};
ghost use Rattle.sn_ops.specs.Packets.{OfALevel};
ghost use Rattle.sn_ops.specs.Joins.{joined};
ghost use Rattle.sn_ops.specs.Plain.{branch_rows};
ghost use Rattle.sn_types.specs.Kinds.{AreBelow};
ghost use Rattle.sn_types.specs.Typed.{branch_of, branch_at, query_at, end_columns, final_columns};
ghost use Rattle.sn_types.specs.Values.{op_at};

use crate::finish::finish;
use crate::join::join_through;
use crate::packets::{Kept, is_kept};
use crate::seen::unseen;
use crate::start::start;
use sn_base::any_row::AnyRow;
use sn_base::memory::Memory;
use sn_base::row_seq::RowSeq;
use sn_fields::tuple::Tuple;
use sn_types::typed::Typed;
use std::alloc::Global;

/// A branch on these tuples: the packet rows of the tuples that are kept, through the operators in the order of the
/// text.
pub fn branch_rows<R: AnyRow>(
    alloc: Global,
    t: &Typed,
    q: u32,
    b: u32,
    level: u32,
    kept: Option<Kept>,
    tuples: &[Tuple],
) -> Result<RowSeq<R>, Memory>
    requires query { q < length t.now.queries }
    requires branch { b < length (query_at t.now.queries q).branches }
    requires level { list_any (nat_eq level) (query_at t.now.queries q).levels ≡ true }
    requires kept { OfALevel (query_at t.now.queries q) kept }
    requires below { AreBelow R.Number.limit (branch_at t.now.queries q b).fields }
    ensures rows { IfOk result (λ rows. rows ≡ branch_rows (query_at t.now.queries q) b level kept.entry tuples.now) }
    ensures columns { IfOk result (λ rows. AllByRecursion (IsOf (end_columns (branch_at t.now.queries q b))) rows) }
{
    let ops = t.operators(q, b);
    let packets = t.packets(q, b, level);
    let mut seen = unseen(alloc, t.seed, ops)?;
    let mut row = R::empty();
    let mut out = RowSeq::new(alloc);
    for tuple in tuples {
        if is_kept(t, q, kept, tuple) {
            let packet = packets.row(tuple);
            start(ops, &mut seen, level, &packet, &mut row, &mut out)?;
        }
    }
    finish(alloc, t.seed, ops, &seen, level, out)
}

/// Rows of the two branches of a query, joined and taken through the operators after the join.
pub fn join_branches<R: AnyRow>(
    alloc: Global,
    t: &Typed,
    q: u32,
    level: u32,
    left: &RowSeq<R>,
    right: &RowSeq<R>,
) -> Result<RowSeq<R>, Memory>
    requires query { q < length t.now.queries }
    requires branches { length (query_at t.now.queries q).branches ≡ 2 }
    requires left { AllByRecursion (IsOf (end_columns (branch_at t.now.queries q 0))) left.now }
    requires right { AllByRecursion (IsOf (end_columns (branch_at t.now.queries q 1))) right.now }
    ensures rows { let query = query_at t.now.queries q in IfOk result
        (λ rows. rows ≡ through (map (op_at level) query.posts) (joined query.keys left.now right.now)) }
    ensures columns { IfOk result (λ rows. AllByRecursion (IsOf (final_columns (query_at t.now.queries q))) rows) }
{
    join_through(
        alloc,
        t.seed,
        left,
        right,
        t.join_keys(q),
        t.query(q).posts.as_slice(),
        level,
    )
}
