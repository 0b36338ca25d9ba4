//! Numbers of columns, which are compared in lanes.
ghost use Rattle.std.specs.Prelude.{◌≡◌, ℕ, ◌≤◌, ◌<◌, ◌-◌, ◌^◌, length, map};
ghost use Rattle.sn_lanes_narrow.specs.Marks.{number_mark};
ghost use Rattle.sn_query_grammar.specs.declared.ast.Cmp.{Cmp};

use crate::vectors::{compare_bytes, compare_halves, compare_longs, compare_words};
use sn_query_grammar::ast::Cmp;
use std::simd::prelude::*;

/// How many numbers are compared at once.
pub const LANES: usize = 16;

/// An unsigned number of a column.
pub trait Lane: Copy {
    /// The number.
    ghost value: { Self → ℕ };

    /// The greatest number of the type.
    ghost GREATEST: { ℕ };

    const GREATEST: u64;

    /// A number of at most the greatest.
    fn of(number: u64) -> Self
        requires { number ≤ GREATEST }
        ensures { value result ≡ number };

    /// The number in 64 bits.
    fn number(self) -> u64
        ensures { result ≡ value self };

    /// Writes 1 for each of 16 numbers that, and-ed, compares so with the constant, and 0 for the others.
    fn compare_block(block: &[Self], and: u128, cmp: Cmp, constant: u64, out: &mut [u8])
        requires block { length block.now ≡ 16 }
        requires out { length out.old ≡ 16 }
        requires constant { constant ≤ GREATEST }
        ensures { out.new ≡ map (λ x. number_mark cmp and constant (value x)) block.now };
}

impl Lane for u8 {
    ghost value = { λ n. n };

    ghost GREATEST = { 2 ^ 8 - 1 };

    const GREATEST: u64 = 0xff;

    fn of(number: u64) -> u8 {
        number as u8
    }

    fn number(self) -> u64 {
        u64::from(self)
    }

    #[inline(always)]
    fn compare_block(block: &[u8], and: u128, cmp: Cmp, constant: u64, out: &mut [u8]) {
        let masked = u8x16::from_slice(block) & u8x16::splat((and & 0xff) as u8);
        compare_bytes(cmp, masked, u8x16::splat(constant as u8)).copy_to_slice(out);
    }
}

impl Lane for u16 {
    ghost value = { λ n. n };

    ghost GREATEST = { 2 ^ 16 - 1 };

    const GREATEST: u64 = 0xffff;

    fn of(number: u64) -> u16 {
        number as u16
    }

    fn number(self) -> u64 {
        u64::from(self)
    }

    #[inline(always)]
    fn compare_block(block: &[u16], and: u128, cmp: Cmp, constant: u64, out: &mut [u8]) {
        let masked = u16x16::from_slice(block) & u16x16::splat((and & 0xffff) as u16);
        compare_halves(cmp, masked, u16x16::splat(constant as u16))
            .cast::<u8>()
            .copy_to_slice(out);
    }
}

impl Lane for u32 {
    ghost value = { λ n. n };

    ghost GREATEST = { 2 ^ 32 - 1 };

    const GREATEST: u64 = 0xffff_ffff;

    fn of(number: u64) -> u32 {
        number as u32
    }

    fn number(self) -> u64 {
        u64::from(self)
    }

    #[inline(always)]
    fn compare_block(block: &[u32], and: u128, cmp: Cmp, constant: u64, out: &mut [u8]) {
        let masked = u32x16::from_slice(block) & u32x16::splat((and & 0xffff_ffff) as u32);
        compare_words(cmp, masked, u32x16::splat(constant as u32))
            .cast::<u8>()
            .copy_to_slice(out);
    }
}

impl Lane for u64 {
    ghost value = { λ n. n };

    ghost GREATEST = { 2 ^ 64 - 1 };

    const GREATEST: u64 = u64::MAX;

    fn of(number: u64) -> u64 {
        number
    }

    fn number(self) -> u64 {
        self
    }

    #[inline(always)]
    fn compare_block(block: &[u64], and: u128, cmp: Cmp, constant: u64, out: &mut [u8]) {
        let masked = u64x16::from_slice(block)
            & u64x16::splat((and & 0xffff_ffff_ffff_ffff) as u64);
        compare_longs(cmp, masked, u64x16::splat(constant))
            .cast::<u8>()
            .copy_to_slice(out);
    }
}
