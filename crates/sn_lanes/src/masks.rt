//! Keeping the highest bits of the numbers of a column.
ghost use Rattle.std.specs.Prelude.{◌≡◌, ◌-◌, ◌^◌, ◌≤◌, length, map, take, bit_and};
ghost use Rattle.sn_base.specs.Mask.{masked};

use std::simd::prelude::*;

const LANES: usize = 8;

/// The number of 64 bits whose lowest `places` bits are 0, and whose others are 1.
fn ones_above(places: u32) -> u64
    requires { places ≤ 64 }
    ensures { result ≡ 2 ^ 64 - 2 ^ places }
{
    if places == 64 {
        0
    } else {
        u64::MAX - ((1 << places) - 1)
    }
}

fn mask_block(block: &[u64], bits: u64, out: &mut [u64])
    requires block { length block.now ≡ 8 }
    requires out { length out.old ≡ 8 }
    ensures { out.new ≡ map (λ x. bit_and x bits) block.now }
{
    let masked = u64x8::from_slice(block) & u64x8::splat(bits);
    masked.copy_to_slice(out);
}

/// Ands the numbers from a place on with these bits, one after another.
fn mask_rest(column: &[u64], from: usize, bits: u64, out: &mut [u64])
    requires lengths { length column.now ≡ length out.old }
    requires from { from ≤ length column.now }
    requires done { take from out.old ≡ map (λ x. bit_and x bits) (take from column.now) }
    ensures { out.new ≡ map (λ x. bit_and x bits) column.now }
{
    for place in from..column.len() {
        out[place] = column[place] & bits;
    }
}

/// Ands each number of a column with these bits.
fn mask_all(column: &[u64], bits: u64, out: &mut [u64])
    requires { length column.now ≡ length out.old }
    ensures { out.new ≡ map (λ x. bit_and x bits) column.now }
{
    let mut at = 0;
    while column.len() - at >= LANES {
        mask_block(&column[at..at + LANES], bits, &mut out[at..at + LANES]);
        at += LANES;
    }
    mask_rest(column, at, bits, out);
}

/// Keeps the highest `keep` of the `width` bits of each number of a column, and clears the rest. Takes no memory.
pub fn masks(column: &[u64], width: u32, keep: u32, out: &mut [u64])
    requires lengths { length column.now ≡ length out.old }
    requires keep { keep ≤ width }
    ensures { out.new ≡ map (masked width keep) column.now }
{
    mask_all(column, ones_above((width - keep).min(64)), out);
}
