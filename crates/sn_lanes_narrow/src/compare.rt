//! Comparing a column with a constant.
ghost use Rattle.std.specs.Prelude.{◌≡◌, ◌≤◌, length, map, take};
ghost use Rattle.sn_lanes_narrow.specs.Marks.{number_mark};

use crate::lane::{LANES, Lane};
use sn_query_grammar::ast::Cmp;
use sn_types::evaluate::compares;

fn mark_of<L: Lane>(number: L, and: u128, cmp: Cmp, constant: u64) -> u8
    ensures { result ≡ number_mark cmp and constant (L.value number) }
{
    let masked = u128::from(number.number()) & and;
    u8::from(compares(cmp, masked, u128::from(constant)))
}

/// Compares the numbers from a place on, one after another.
fn compare_rest<L: Lane>(
    column: &[L],
    from: usize,
    and: u128,
    cmp: Cmp,
    constant: u64,
    out: &mut [u8],
)
    requires lengths { length column.now ≡ length out.old }
    requires from { from ≤ length column.now }
    requires done { take from out.old ≡ map (λ x. number_mark cmp and constant (L.value x)) (take from column.now) }
    ensures { out.new ≡ map (λ x. number_mark cmp and constant (L.value x)) column.now }
{
    for place in from..column.len() {
        out[place] = mark_of(column[place], and, cmp, constant);
    }
}

/// Compares 16 numbers at a time, and those after them one after another.
fn compare_blocks<L: Lane>(column: &[L], and: u128, cmp: Cmp, constant: u64, out: &mut [u8])
    requires lengths { length column.now ≡ length out.old }
    requires constant { constant ≤ L.GREATEST }
    ensures { out.new ≡ map (λ x. number_mark cmp and constant (L.value x)) column.now }
{
    let mut at = 0;
    while column.len() - at >= LANES {
        L::compare_block(
            &column[at..at + LANES],
            and,
            cmp,
            constant,
            &mut out[at..at + LANES],
        );
        at += LANES;
    }
    compare_rest(column, at, and, cmp, constant, out);
}

/// Writes 1 for each number of a column that, and-ed, compares so with the constant, and 0 for the others. A constant above all numbers
/// of the column's type is compared one number after another. Takes no memory.
pub fn compare<L: Lane>(column: &[L], and: u128, cmp: Cmp, constant: u64, out: &mut [u8])
    requires { length column.now ≡ length out.old }
    ensures { out.new ≡ map (λ x. number_mark cmp and constant (L.value x)) column.now }
{
    if constant <= L::GREATEST {
        compare_blocks(column, and, cmp, constant, out);
    } else {
        compare_rest(column, 0, and, cmp, constant, out);
    }
}
