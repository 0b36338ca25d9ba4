//! Comparing a column with a constant.
ghost use Rattle.std.specs.Prelude.{◌≡◌, ◌≤◌, length, map, take};
ghost use Rattle.sn_lanes.specs.Lanes.{flag};
ghost use Rattle.sn_lanes.specs.declared.compare.Cmp3.TheVariants as cmp3;

use std::simd::prelude::*;

const LANES: usize = 8;

/// How to compare.
#[derive(Clone, Copy, Debug, PartialEq, Eq)]
pub enum Cmp3 {
    Eq,
    Lt,
    Gt,
}

fn equal_block(block: &[u64], and: u64, constant: u64, out: &mut [u8])
    requires block { length block.now ≡ 8 }
    requires out { length out.old ≡ 8 }
    ensures { out.new ≡ map (flag cmp3.Eq and constant) block.now }
{
    let masked = u64x8::from_slice(block) & u64x8::splat(and);
    masked
        .simd_eq(u64x8::splat(constant))
        .select(u64x8::splat(1), u64x8::splat(0))
        .cast::<u8>()
        .copy_to_slice(out);
}

fn below_block(block: &[u64], and: u64, constant: u64, out: &mut [u8])
    requires block { length block.now ≡ 8 }
    requires out { length out.old ≡ 8 }
    ensures { out.new ≡ map (flag cmp3.Lt and constant) block.now }
{
    let masked = u64x8::from_slice(block) & u64x8::splat(and);
    masked
        .simd_lt(u64x8::splat(constant))
        .select(u64x8::splat(1), u64x8::splat(0))
        .cast::<u8>()
        .copy_to_slice(out);
}

fn above_block(block: &[u64], and: u64, constant: u64, out: &mut [u8])
    requires block { length block.now ≡ 8 }
    requires out { length out.old ≡ 8 }
    ensures { out.new ≡ map (flag cmp3.Gt and constant) block.now }
{
    let masked = u64x8::from_slice(block) & u64x8::splat(and);
    masked
        .simd_gt(u64x8::splat(constant))
        .select(u64x8::splat(1), u64x8::splat(0))
        .cast::<u8>()
        .copy_to_slice(out);
}

fn compare_block(block: &[u64], and: u64, cmp: Cmp3, constant: u64, out: &mut [u8])
    requires block { length block.now ≡ 8 }
    requires out { length out.old ≡ 8 }
    ensures { out.new ≡ map (flag cmp and constant) block.now }
{
    match cmp {
        Cmp3::Eq => equal_block(block, and, constant, out),
        Cmp3::Lt => below_block(block, and, constant, out),
        Cmp3::Gt => above_block(block, and, constant, out),
    }
}

fn compare_one(value: u64, and: u64, cmp: Cmp3, constant: u64) -> u8
    ensures { result ≡ flag cmp and constant value }
{
    let masked = value & and;
    let holds = match cmp {
        Cmp3::Eq => masked == constant,
        Cmp3::Lt => masked < constant,
        Cmp3::Gt => masked > constant,
    };
    u8::from(holds)
}

/// Compares the numbers from a place on, one after another.
fn compare_rest(column: &[u64], from: usize, and: u64, cmp: Cmp3, constant: u64, out: &mut [u8])
    requires lengths { length column.now ≡ length out.old }
    requires from { from ≤ length column.now }
    requires done { take from out.old ≡ map (flag cmp and constant) (take from column.now) }
    ensures { out.new ≡ map (flag cmp and constant) column.now }
{
    for place in from..column.len() {
        out[place] = compare_one(column[place], and, cmp, constant);
    }
}

/// Writes 1 where the and-ed number compares so with the constant, and 0 elsewhere. Takes no memory.
pub fn compare(column: &[u64], and: u64, cmp: Cmp3, constant: u64, out: &mut [u8])
    requires { length column.now ≡ length out.old }
    ensures { out.new ≡ map (flag cmp and constant) column.now }
{
    let mut at = 0;
    while column.len() - at >= LANES {
        compare_block(
            &column[at..at + LANES],
            and,
            cmp,
            constant,
            &mut out[at..at + LANES],
        );
        at += LANES;
    }
    compare_rest(column, at, and, cmp, constant, out);
}
