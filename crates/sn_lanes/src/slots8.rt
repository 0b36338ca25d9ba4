//! The slots of eight rows at once.
ghost use Rattle.std.specs.Prelude.{◌≡◌, ◌*◌, ◌%◌, ◌-◌, ◌^◌, ◌≤◌, ◌<◌, fold, length, map, max, min, nat_lt, slice_index, true};
ghost use Rattle.std.specs.List.{list_all};
ghost use Rattle.std.specs.Simd.Lanes.{zip2, sel_l};
ghost use Rattle.std.specs.Int.{w64, to_le_bytes, byte_at, bytes_low_first};
ghost use Rattle.sn_base.specs.Slot.{fnv_step, row_hash, slot};
ghost use Rattle.sn_lanes.specs.Words.{are_words};

use sn_base::any_row::AnyRow;
use sn_base::number::Number;
use sn_base::slot::{remainder, slot_of};
use std::simd::prelude::*;

const BASIS: u64 = 14695981039346656037;

/// The lower half of a column is below it.
const HALF: u64 = 1 << 32;

/// The prime's fourth power, modulo 2^64.
const FOURTH_POWER: u64 = 11527715348014283921;

/// Whether all columns of a row are below 2^64.
fn is_narrow<R: AnyRow>(key: &R) -> bool
    ensures { result ≡ are_words (R.columns key.now) }
{
    const WORD: u128 = 1 << 64;
    for place in 0..key.len() {
        if key.column(place as u32).whole() >= WORD {
            return false;
        }
    }
    true
}

/// Whether all columns of these rows are below 2^64.
fn are_narrow<R: AnyRow>(keys: &[R]) -> bool
    ensures { result ≡ list_all (λ key. are_words (R.columns key)) keys.now }
{
    keys.iter().all(|key| is_narrow(key))
}

/// Multiplies each hash by the prime of FNV-1a. That is 2^40 + 435, so that two products of 32 bits do in place of three.
fn times_prime(hash: u64x8) -> u64x8
    requires { length hash ≡ 8 }
    ensures { result ≡ map (λ h. h * 1099511628211 % 2 ^ 64) hash }
{
    let half = u64x8::splat(32);
    let small = u64x8::splat(435);
    let low = (hash & u64x8::splat(0xffff_ffff)) * small;
    let high = (hash >> half) * small;
    (hash << u64x8::splat(40)) + low + (high << half)
}

/// Mixes one byte of each column into its hash.
fn mix_byte(hash: u64x8, column: u64x8, byte: u64) -> u64x8
    requires byte { byte < 8 }
    requires hash { length hash ≡ 8 }
    requires column { length column ≡ 8 }
    ensures { result ≡ zip2 (λ h x. fnv_step h (byte_at byte x)) hash column }
{
    let part = (column >> u64x8::splat(8 * byte)) & u64x8::splat(255);
    times_prime(hash ^ part)
}

/// Mixes the given number of lowest bytes of each column into its hash.
fn mix_bytes(hash: u64x8, column: u64x8, count: u64) -> u64x8
    requires count { count ≤ 8 }
    requires hash { length hash ≡ 8 }
    requires column { length column ≡ 8 }
    ensures { result ≡ zip2 (λ h x. fold fnv_step h (bytes_low_first 0 count x)) hash column }
{
    let mut mixed = hash;
    for byte in 0..count {
        mixed = mix_byte(mixed, column, byte);
    }
    mixed
}

/// Mixes all eight bytes of each column into its hash. A byte of 0 is a product alone, so that where all columns are below 2^32
/// the upper four bytes are one product.
fn mix_column(hash: u64x8, column: u64x8) -> u64x8
    requires hash { length hash ≡ 8 }
    requires column { length column ≡ 8 }
    ensures { result ≡ zip2 (λ h x. fold fnv_step h (to_le_bytes w64 x)) hash column }
{
    if column.reduce_or() < HALF {
        mix_bytes(hash, column, 4) * u64x8::splat(FOURTH_POWER)
    } else {
        mix_bytes(hash, column, 8)
    }
}

/// The column at a place in 64 bits, 0 past the end.
fn cell<R: AnyRow>(key: &R, place: u64) -> u64
    ensures { result ≡ min (slice_index (R.columns key.now) place) (2 ^ 64 - 1) }
{
    if place < key.len() as u64 {
        key.column(place as u32).word()
    } else {
        0
    }
}

/// The column at a place of each row in 64 bits, 0 past its end.
fn fill_column<R: AnyRow>(keys: &[R], place: u64, column: &mut [u64])
    requires { length keys.now ≡ length column.old }
    ensures { column.new ≡ map (λ key. min (slice_index (R.columns key) place) (2 ^ 64 - 1)) keys.now }
{
    for lane in 0..keys.len() {
        column[lane] = cell(&keys[lane], place);
    }
}

/// How many columns each row has.
fn fill_lengths<R: AnyRow>(keys: &[R], lengths: &mut [u64])
    requires { length keys.now ≡ length lengths.old }
    ensures { lengths.new ≡ map (λ key. length (R.columns key)) keys.now }
{
    for lane in 0..keys.len() {
        lengths[lane] = keys[lane].len() as u64;
    }
}

fn greatest(numbers: &[u64]) -> u64
    ensures { result ≡ fold max 0 numbers.now }
{
    let mut most = 0;
    for number in numbers {
        most = most.max(*number);
    }
    most
}

/// Mixes one column of each row that has it into the row's hash.
fn mix_place(hash: u64x8, column: [u64; 8], lengths: [u64; 8], place: u64) -> u64x8
    requires hash { length hash ≡ 8 }
    requires column { length column ≡ 8 }
    requires lengths { length lengths ≡ 8 }
    ensures { result ≡ sel_l (map (λ n. nat_lt place n) lengths) (zip2 (λ h x. fold fnv_step h (to_le_bytes w64 x)) hash column) hash }
{
    let mixed = mix_column(hash, u64x8::from_array(column));
    u64x8::splat(place)
        .simd_lt(u64x8::from_array(lengths))
        .select(mixed, hash)
}

/// The hashes of eight rows whose columns are below 2^64.
fn hashes8<R: AnyRow>(index: u32, keys: &[R]) -> [u64; 8]
    requires eight { length keys.now ≡ 8 }
    requires narrow { list_all (λ key. are_words (R.columns key)) keys.now ≡ true }
    ensures { result ≡ map (λ key. row_hash index (R.columns key)) keys.now }
{
    let mut lengths = [0; 8];
    fill_lengths(keys, &mut lengths);
    let mut hash = u64x8::splat(BASIS ^ u64::from(index));
    for place in 0..greatest(&lengths) {
        let mut column = [0; 8];
        fill_column(keys, place, &mut column);
        hash = mix_place(hash, column, lengths, place);
    }
    hash.to_array()
}

fn fill_slots(hashes: &[u64], slots: u32, out: &mut [u32])
    requires slots { 1 ≤ slots }
    requires lengths { length hashes.now ≡ length out.old }
    ensures { out.new ≡ map (λ h. h % slots) hashes.now }
{
    for lane in 0..hashes.len() {
        out[lane] = remainder(hashes[lane], slots);
    }
}

/// The slots of rows, one after another.
fn fill_one_by_one<R: AnyRow>(index: u32, keys: &[R], slots: u32, out: &mut [u32])
    requires slots { 1 ≤ slots }
    requires lengths { length keys.now ≡ length out.old }
    ensures { out.new ≡ map (λ key. slot index (R.columns key) slots) keys.now }
{
    for lane in 0..keys.len() {
        out[lane] = slot_of(index, &keys[lane], slots);
    }
}

/// The slots of eight rows in register number `index`, which has at least one slot. Where each column is below 2^64, they are
/// hashed in lanes, and else one after another. Takes no memory.
pub fn slots_of_eight<R: AnyRow>(index: u32, keys: &[R], slots: u32) -> [u32; 8]
    requires eight { length keys.now ≡ 8 }
    requires some { 1 ≤ slots }
    ensures { result ≡ map (λ key. slot index (R.columns key) slots) keys.now }
{
    let mut out = [0; 8];
    if are_narrow(keys) {
        fill_slots(&hashes8(index, keys), slots, &mut out);
    } else {
        fill_one_by_one(index, keys, slots, &mut out);
    }
    out
}

/// What `slots_of_eight` gives, where the rows are an array.
pub fn slots8<R: AnyRow>(index: u32, keys: &[R; 8], slots: u32) -> [u32; 8]
    requires { 1 ≤ slots }
    ensures { result ≡ map (λ key. slot index (R.columns key) slots) keys.now }
{
    slots_of_eight(index, keys.as_slice(), slots)
}
