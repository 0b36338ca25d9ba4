//! The seed of the tables that group rows.

ghost use Rattle.std.specs.Prelude.{◌≡◌};
ghost use Rattle.std.specs.List.{fold};
ghost use Rattle.std.specs.Hash.FoldHasher.{folded_multiply};
ghost use Rattle.sn_base.specs.Seeds.{after_bytes, mixed};

use std::hash::{BuildHasher, Hasher};

/// The golden ratio's fraction in 64 bits: a multiplier whose bits are as good as random ones.
const MULTIPLIER: u64 = 0x9e37_79b9_7f4a_7c15;

/// A number from which the tables of rows hash.
///
/// Whoever knows it can make rows that collide, and a table of such rows takes quadratic time. So a run draws it when
/// it starts. No answer depends on it.
#[derive(Clone, Copy)]
pub struct Seed {
    number: u64,
}

/// Begins and ends with the number. Without the end, rows that differ in a few chosen bits collide whatever the
/// beginning is. A number of 64 bits costs one product of 128 bits.
#[derive(Clone, Copy)]
pub struct SeededHasher {
    state: u64,
    number: u64,
}

/// The product of two numbers in 128 bits, its halves joined by an exclusive or.
#[inline(always)]
fn folded(a: u64, b: u64) -> u64
    ensures { result ≡ folded_multiply a b }
{
    let product = u128::from(a) * u128::from(b);
    (product & 0xFFFF_FFFF_FFFF_FFFF) as u64 ^ (product >> 64) as u64
}

/// The state after one more number.
#[inline(always)]
fn mixed(state: u64, word: u64) -> u64
    ensures { result ≡ mixed state word }
{
    folded(state ^ word, MULTIPLIER)
}

/// The state after bytes one by one.
fn mixed_bytes(state: u64, bytes: &[u8]) -> u64
    ensures { result ≡ fold mixed state bytes.now }
{
    let mut after = state;
    for byte in bytes {
        after = mixed(after, u64::from(*byte));
    }
    after
}

impl Seed {
    /// The seed of a number.
    pub fn new(number: u64) -> Seed {
        Seed {
            number: mixed(0x243f_6a88_85a3_08d3, number),
        }
    }
}

impl BuildHasher for Seed {
    type Hasher = SeededHasher;

    ghost build_hasher = { λ seed. record { state = seed.number; number = seed.number } };

    #[inline(always)]
    fn build_hasher(&self) -> SeededHasher {
        SeededHasher {
            state: self.number,
            number: self.number,
        }
    }
}

impl Hasher for SeededHasher {
    ghost write = { λ s bytes. record s { state = after_bytes s.state bytes } };

    ghost finish = { λ s. mixed s.state s.number };

    fn write(&mut self, bytes: &[u8]) {
        self.state = match bytes.first_chunk::<8>() {
            Some(word) if bytes.len() == 8 => mixed(self.state, u64::from_le_bytes(*word)),
            _ => mixed_bytes(self.state, bytes),
        };
    }

    /// Does at once what writing the eight bytes does.
    #[inline(always)]
    fn write_u64(&mut self, i: u64) {
        self.state = mixed(self.state, i);
    }

    /// Likewise.
    #[inline(always)]
    fn write_usize(&mut self, i: usize) {
        self.state = mixed(self.state, i as u64);
    }

    #[inline(always)]
    fn finish(&self) -> u64 {
        mixed(self.state, self.number)
    }
}
