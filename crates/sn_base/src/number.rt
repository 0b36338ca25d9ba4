//! Numbers of columns: of 64 or of 128 bits.
ghost use Rattle.std.proofs.Common.{rules};
ghost use Rattle.std.specs.Prelude.{◌≡◌, ℕ, ◌≤◌, ◌<◌, ◌-◌, ◌*◌, ◌/◌, ◌^◌, min, bit_and};

/// A number of a column: of 64 or of 128 bits.
pub trait Number: Copy {
    /// The number.
    ghost value: { Self → ℕ };

    /// All numbers of the type are below it.
    ghost limit: { ℕ };

    /// A number of 64 bits.
    fn of_word(word: u64) -> Self
        ensures { value result ≡ word };

    /// A number below the limit.
    fn of_whole(number: u128) -> Self
        requires { number < limit }
        ensures { value result ≡ number };

    /// The number in 64 bits, or the greatest of these where it is above it.
    fn word(self) -> u64
        ensures { result ≡ min (value self) (2 ^ 64 - 1) };

    /// The number in 128 bits.
    fn whole(self) -> u128
        ensures value { result ≡ value self }
        ensures below { result < limit };

    /// The number and-ed with another one.
    fn masked(self, bits: u128) -> Self
        ensures { value result ≡ bit_and (value self) bits };

    /// The number shifted to the right. By all its bits and more nothing is left.
    fn shifted(self, places: u32) -> Self
        ensures { value result ≡ value self / 2 ^ places };

    /// The number with its lowest bits cleared.
    fn cleared(self, places: u32) -> Self
        ensures { value result ≡ value self / 2 ^ places * 2 ^ places };

    /// Numbers of 64 bits are below the limit.
    ghost words_fit: { 2 ^ 64 ≤ limit };
}

impl Number for u64 {
    ghost value = { λ n. n };

    ghost limit = { 2 ^ 64 };

    ghost words_fit = { Prim.search rules };

    fn of_word(word: u64) -> u64 {
        word
    }

    fn of_whole(number: u128) -> u64 {
        number as u64
    }

    fn word(self) -> u64 {
        self
    }

    fn whole(self) -> u128 {
        u128::from(self)
    }

    fn masked(self, bits: u128) -> u64 {
        (u128::from(self) & bits) as u64
    }

    fn shifted(self, places: u32) -> u64 {
        if places < 64 { self >> places } else { 0 }
    }

    fn cleared(self, places: u32) -> u64 {
        if places < 64 {
            (self >> places) << places
        } else {
            0
        }
    }
}

impl Number for u128 {
    ghost value = { λ n. n };

    ghost limit = { 2 ^ 128 };

    ghost words_fit = { Prim.search rules };

    fn of_word(word: u64) -> u128 {
        u128::from(word)
    }

    fn of_whole(number: u128) -> u128 {
        number
    }

    fn word(self) -> u64 {
        u64::try_from(self).unwrap_or(u64::MAX)
    }

    fn whole(self) -> u128 {
        self
    }

    fn masked(self, bits: u128) -> u128 {
        self & bits
    }

    fn shifted(self, places: u32) -> u128 {
        if places < 128 { self >> places } else { 0 }
    }

    fn cleared(self, places: u32) -> u128 {
        if places < 128 {
            (self >> places) << places
        } else {
            0
        }
    }
}
