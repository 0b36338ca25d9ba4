//! The slot of a row in a register.
ghost use Rattle.std.specs.Prelude.{◌≡◌, ◌≤◌, ◌%◌, fold, bit_xor};
ghost use Rattle.std.specs.Int.{to_le_bytes, w64};
ghost use Rattle.sn_base.specs.Slot.{column_bytes, fnv_step, slot};

use crate::any_row::AnyRow;
use crate::number::Number;

const BASIS: u64 = 14695981039346656037;

const PRIME: u64 = 1099511628211;

/// A column's upper and lower half are below it.
const HALF: u64 = 1 << 32;

/// The prime's fourth power, modulo 2^64.
const FOURTH_POWER: u64 = 11527715348014283921;

fn mix_byte(hash: u64, byte: u8) -> u64
    ensures { result ≡ fnv_step hash byte }
{
    (hash ^ u64::from(byte)).wrapping_mul(PRIME)
}

/// Mixes the four bytes of a number in.
fn mix_bytes(hash: u64, bytes: &[u8; 4]) -> u64
    ensures { result ≡ fold fnv_step hash bytes.now }
{
    let mut mixed = hash;
    for byte in bytes {
        mixed = mix_byte(mixed, *byte);
    }
    mixed
}

/// Mixes a number of 64 bits in. Most are below 2^32, and a byte of 0 is a multiplication alone, so that four of them are one.
fn mix_half(hash: u64, column: u64) -> u64
    ensures { result ≡ fold fnv_step hash (to_le_bytes w64 column) }
{
    let low = mix_bytes(hash, &((column % HALF) as u32).to_le_bytes());
    let high = (column / HALF) as u32;
    if high == 0 {
        low.wrapping_mul(FOURTH_POWER)
    } else {
        mix_bytes(low, &high.to_le_bytes())
    }
}

/// Mixes a column in: 8 bytes of it where it is below 2^64, and else 16.
fn mix_column(hash: u64, column: u128) -> u64
    ensures { result ≡ fold fnv_step hash (column_bytes column) }
{
    const WORD: u128 = 1 << 64;
    let low = mix_half(hash, (column % WORD) as u64);
    let high = (column / WORD) as u64;
    if high == 0 { low } else { mix_half(low, high) }
}

/// The remainder of a hash by a number of slots, of which there is at least one. That is mostly a power of two, and a division takes
/// as long as all else. Takes no memory.
pub fn remainder(hash: u64, slots: u32) -> u32
    requires { 1 ≤ slots }
    ensures { result ≡ hash % slots }
{
    let size = u64::from(slots);
    let zeros = size.trailing_zeros();
    let left = if zeros < 32 && 1 << zeros == size {
        hash & (size - 1)
    } else {
        hash % size
    };
    left as u32
}

/// The slot of a row in register number `index`, by the hash FNV-1a over its columns.
pub fn slot_of<R: AnyRow>(index: u32, key: &R, slots: u32) -> u32
    requires { 1 ≤ slots }
    ensures { result ≡ slot index (R.columns key.now) slots }
{
    let mut hash = BASIS ^ u64::from(index);
    for place in 0..key.len() {
        hash = mix_column(hash, key.column(place as u32).whole());
    }
    remainder(hash, slots)
}
