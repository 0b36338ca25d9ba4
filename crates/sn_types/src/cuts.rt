//! Operators in a switch: which of them have registers, and how many of a branch can stand there.
ghost use Rattle.std.specs.Prelude.{◌≡◌, ◌<◌, ◌≤◌, ◌^◌, length};
ghost use Rattle.sn_types.specs.Cuts.{filters_ahead, cut_after_distinct, greatest_cut, is_stateful, stateful};

use crate::typed_op::TOp;

/// Whether an operator keeps rows in registers.
pub fn is_stateful(op: &TOp) -> bool
    ensures { result ≡ is_stateful op.now }
{
    match op {
        TOp::Filter(_) | TOp::Map(_) => false,
        TOp::Distinct | TOp::Reduce(_) => true,
    }
}

/// How many operators keep rows in registers.
pub fn stateful(ops: &[TOp]) -> usize
    ensures { result ≡ stateful ops.now }
{
    let mut count = 0;
    for op in ops {
        if is_stateful(op) {
            count += 1;
        }
    }
    count
}

fn filters_ahead(ops: &[TOp]) -> u32
    requires { length ops.now ≤ 12 }
    ensures value { result ≡ filters_ahead ops.now }
    ensures most { result ≤ length ops.now }
{
    let mut count = 0;
    for op in ops {
        match op {
            TOp::Filter(_) => count += 1,
            TOp::Map(_) | TOp::Distinct | TOp::Reduce(_) => return count,
        }
    }
    count
}

fn cut_after_distinct(ops: &[TOp]) -> u32
    requires { length ops.now ≤ 12 }
    ensures value { result ≡ cut_after_distinct ops.now }
    ensures most { result ≤ length ops.now }
{
    let mut count = 0;
    let mut rest = ops;
    while let Some((op, after)) = rest.split_first() {
        match op {
            TOp::Filter(_) | TOp::Map(_) => count += 1,
            TOp::Distinct => return count,
            TOp::Reduce(_) => return count + 1 + filters_ahead(after),
        }
        rest = after;
    }
    count
}

/// The greatest number of operators at the front whose stateful ones are none, distinct, reduce, or distinct and
/// then reduce, with only filters after the reduce.
pub fn greatest_cut(ops: &[TOp]) -> u32
    requires { length ops.now ≤ 12 }
    ensures value { result ≡ greatest_cut ops.now }
    ensures most { result ≤ length ops.now }
{
    let mut count = 0;
    let mut rest = ops;
    while let Some((op, after)) = rest.split_first() {
        match op {
            TOp::Filter(_) | TOp::Map(_) => count += 1,
            TOp::Distinct => return count + 1 + cut_after_distinct(after),
            TOp::Reduce(_) => return count + 1 + filters_ahead(after),
        }
        rest = after;
    }
    count
}
