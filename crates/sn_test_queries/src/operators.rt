//! Operators on small lists of rows.
ghost use Rattle.std.specs.Prelude.{◌≡◌, ◌≤◌, length, IfOk};

use sn_base::any_fold::AnyFold;
use sn_base::fold::Min;
use sn_base::memory::Memory;
use sn_base::row_seq::RowSeq;
use sn_base::seed::Seed;
use sn_base::seq::Seq;
use sn_base::short_row::ShortRow;
use sn_ops::flow::run;
use sn_ops::group::{distinct, reduce, reduce_with};
use sn_ops::join::join;
use sn_ops::select::{filter, map};
use sn_query_grammar::ast::Cmp;
use sn_types::evaluate::expr;
use sn_types::typed_op::{JoinKey, TCond, TExpr, TOp, TReduce};
use std::alloc::Global;

/// A row of these columns.
pub(crate) fn row(columns: &[u64]) -> ShortRow
    requires { length columns.now ≤ 8 }
    ensures { result ≡ columns.now }
{
    match ShortRow::new(columns) {
        Some(row) => row,
        None => unreachable!(),
    }
}

/// A list of these rows.
fn list(alloc: Global, rows: &[ShortRow]) -> Result<RowSeq<ShortRow>, Memory>
    ensures { IfOk result (λ list. list ≡ rows.now) }
{
    RowSeq::from_slice(alloc, rows)
}

#[test]
fn groups_of_no_rows_are_none(rt: HostRuntime) {
    let none = RowSeq::<ShortRow>::new(rt.alloc());
    let once = distinct(rt.alloc(), &none).expect(&rt, "ample memory");
    assert_eq!(rt; once.as_slice().len(), 0);
    let r = TReduce {
        keys: Seq::new(rt.alloc()),
        value: 0,
        fold: AnyFold::Min(Min { v: 3 }),
    };
    let reduced = reduce(rt.alloc(), &none, &r).expect(&rt, "ample memory");
    assert_eq!(rt; reduced.as_slice().len(), 0);
    let folded = reduce_with(rt.alloc(), Seed::new(7), &none, &none, &r).expect(
        &rt,
        "ample memory",
    );
    assert_eq!(rt; folded.as_slice().len(), 0);
}

#[test]
fn joins_on_the_first_column(rt: HostRuntime) {
    let alloc = rt.alloc();
    let left = list(alloc, &[row(&[1, 10]), row(&[1, 11]), row(&[2, 12])]).expect(
        &rt,
        "ample memory",
    );
    let right = list(alloc, &[row(&[1, 20]), row(&[3, 21])]).expect(&rt, "ample memory");
    let keys = [JoinKey { left: 0, right: 0 }];
    let pairs = join(alloc, &left, &right, &keys).expect(&rt, "ample memory");
    assert_eq!(rt;
        pairs.as_slice(),
        [row(&[1, 10, 20]), row(&[1, 11, 20])].as_slice()
    );
}

fn above_one(alloc: Global) -> TCond
    ensures { result.col ≡ 0 }
{
    TCond {
        col: 0,
        and: u128::MAX,
        cmp: Cmp::Gt,
        own: 1,
        relaxed: Seq::new(alloc),
    }
}

#[test]
fn filters_and_maps(rt: HostRuntime) {
    let rows = list(rt.alloc(), &[row(&[1]), row(&[2])]).expect(&rt, "ample memory");
    let conds = [above_one(rt.alloc())];
    let kept = filter(rt.alloc(), &rows, &conds, 0).expect(&rt, "ample memory");
    assert_eq!(rt; kept.as_slice(), [row(&[2])].as_slice());
    let cols = [TExpr::Copy(0), TExpr::Const(7)];
    let one = list(rt.alloc(), &[row(&[1])]).expect(&rt, "ample memory");
    let made = map(rt.alloc(), &one, &cols).expect(&rt, "ample memory");
    assert_eq!(rt; made.as_slice(), [row(&[1, 7])].as_slice());
}

#[test]
fn runs_operators_one_after_another(rt: HostRuntime) {
    let rows = list(rt.alloc(), &[row(&[5]), row(&[5]), row(&[4])]).expect(&rt, "ample memory");
    let out = run(rt.alloc(), Seed::new(7), &[TOp::Distinct], 0, rows).expect(&rt, "ample memory");
    assert_eq!(rt; out.as_slice(), [row(&[5]), row(&[4])].as_slice());
}

#[test]
fn divides_in_128_bits(rt: HostRuntime) {
    let row = ShortRow::empty().with(500).and_then(|row| row.with(20000));
    if let Some(row) = row {
        assert_eq!(rt; row.len(), 2);
        assert_eq!(rt; expr(&TExpr::Ratio(0, 1000000, 1), &row), 25000);
    }
    let row = ShortRow::empty().with(7).and_then(|row| row.with(0));
    if let Some(row) = row {
        assert_eq!(rt; row.len(), 2);
        assert_eq!(rt; expr(&TExpr::Ratio(0, 1, 1), &row), 0);
    }
    let row = ShortRow::empty().with(u64::MAX).and_then(|row| row.with(1));
    if let Some(row) = row {
        assert_eq!(rt; row.len(), 2);
        assert_eq!(rt; expr(&TExpr::Ratio(0, 2, 1), &row), u64::MAX);
    }
}
