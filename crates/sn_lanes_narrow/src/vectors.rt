//! Comparisons of vectors.
ghost use Rattle.std.specs.Prelude.{◌≡◌, length};
ghost use Rattle.std.specs.Simd.Lanes.{zip2};
ghost use Rattle.sn_lanes_narrow.specs.Marks.{mark};
ghost use Rattle.sn_types.specs.Values.{compared};

use sn_query_grammar::ast::Cmp;
use std::simd::prelude::*;

/// 1 in each lane where the numbers compare so, and 0 in the others.
#[inline(always)]
pub(crate) fn compare_bytes(cmp: Cmp, left: u8x16, right: u8x16) -> u8x16
    requires left { length left ≡ 16 }
    requires right { length right ≡ 16 }
    ensures { result ≡ zip2 (λ a b. mark (compared cmp a b)) left right }
{
    let one = u8x16::splat(1);
    let zero = u8x16::splat(0);
    match cmp {
        Cmp::Eq => left.simd_eq(right).select(one, zero),
        Cmp::Ne => left.simd_ne(right).select(one, zero),
        Cmp::Lt => left.simd_lt(right).select(one, zero),
        Cmp::Le => left.simd_le(right).select(one, zero),
        Cmp::Gt => left.simd_gt(right).select(one, zero),
        Cmp::Ge => left.simd_ge(right).select(one, zero),
    }
}

/// 1 in each lane where the numbers compare so, and 0 in the others.
#[inline(always)]
pub(crate) fn compare_halves(cmp: Cmp, left: u16x16, right: u16x16) -> u16x16
    requires left { length left ≡ 16 }
    requires right { length right ≡ 16 }
    ensures { result ≡ zip2 (λ a b. mark (compared cmp a b)) left right }
{
    let one = u16x16::splat(1);
    let zero = u16x16::splat(0);
    match cmp {
        Cmp::Eq => left.simd_eq(right).select(one, zero),
        Cmp::Ne => left.simd_ne(right).select(one, zero),
        Cmp::Lt => left.simd_lt(right).select(one, zero),
        Cmp::Le => left.simd_le(right).select(one, zero),
        Cmp::Gt => left.simd_gt(right).select(one, zero),
        Cmp::Ge => left.simd_ge(right).select(one, zero),
    }
}

/// 1 in each lane where the numbers compare so, and 0 in the others.
#[inline(always)]
pub(crate) fn compare_words(cmp: Cmp, left: u32x16, right: u32x16) -> u32x16
    requires left { length left ≡ 16 }
    requires right { length right ≡ 16 }
    ensures { result ≡ zip2 (λ a b. mark (compared cmp a b)) left right }
{
    let one = u32x16::splat(1);
    let zero = u32x16::splat(0);
    match cmp {
        Cmp::Eq => left.simd_eq(right).select(one, zero),
        Cmp::Ne => left.simd_ne(right).select(one, zero),
        Cmp::Lt => left.simd_lt(right).select(one, zero),
        Cmp::Le => left.simd_le(right).select(one, zero),
        Cmp::Gt => left.simd_gt(right).select(one, zero),
        Cmp::Ge => left.simd_ge(right).select(one, zero),
    }
}

/// 1 in each lane where the numbers compare so, and 0 in the others.
#[inline(always)]
pub(crate) fn compare_longs(cmp: Cmp, left: u64x16, right: u64x16) -> u64x16
    requires left { length left ≡ 16 }
    requires right { length right ≡ 16 }
    ensures { result ≡ zip2 (λ a b. mark (compared cmp a b)) left right }
{
    let one = u64x16::splat(1);
    let zero = u64x16::splat(0);
    match cmp {
        Cmp::Eq => left.simd_eq(right).select(one, zero),
        Cmp::Ne => left.simd_ne(right).select(one, zero),
        Cmp::Lt => left.simd_lt(right).select(one, zero),
        Cmp::Le => left.simd_le(right).select(one, zero),
        Cmp::Gt => left.simd_gt(right).select(one, zero),
        Cmp::Ge => left.simd_ge(right).select(one, zero),
    }
}
