//! Numbers that lie in steps of 16 or of 32 bits, so that the tuple of a packet, which holds many, has no gaps.
ghost use Rattle.std.specs.Prelude.{◌≡◌, ◌<◌, ◌^◌};

use std::marker::Model;

/// A number of 32 bits, as two of 16. Contracts see the number.
#[derive(Clone, Copy)]
pub struct Held32 {
    lower: u16,
    upper: u16,
}

impl Model for Held32 {
    ghost use Rattle.std.specs.Prelude.{ℕ, ◌+◌, ◌*◌, ◌/◌, ◌%◌, ◌<◌, ◌^◌};
    ghost use Rattle.std.specs.Coded.{coded_ℕ};
    ghost use Rattle.std.proofs.lemmas.Nat.{div-mul-add, mod-mul-add};

    ghost Value = { ℕ };

    ghost coded = { coded_ℕ };

    ghost view = { λ a. a.upper * 2 ^ 16 + a.lower };

    ghost invariant = { λ a. a.lower < 2 ^ 16 };

    ghost inverse = { λ n. record { lower = n % 2 ^ 16; upper = n / 2 ^ 16 } };

    ghost inverse_ok = { λ a h i. record { lower = mod-mul-add a.upper (2 ^ 16) a.lower h i; upper = div-mul-add a.upper (2 ^ 16) a.lower h i } };
}

impl Held32 {
    /// A number as it is held.
    #[inline]
    pub fn of(number: u32) -> Held32
        ensures { result ≡ number }
    {
        Held32 {
            lower: (number % (1 << 16)) as u16,
            upper: (number / (1 << 16)) as u16,
        }
    }

    /// The number.
    #[inline]
    pub fn number(self) -> u32
        ensures value { result ≡ self }
        ensures below { result < 2 ^ 32 }
    {
        u32::from(self.upper) * (1 << 16) + u32::from(self.lower)
    }
}

/// A number of 48 bits, as one of 32 and one of 16. Contracts see the number.
#[derive(Clone, Copy)]
pub struct Held48 {
    lower: Held32,
    upper: u16,
}

impl Model for Held48 {
    ghost use Rattle.std.specs.Prelude.{ℕ, ◌+◌, ◌*◌, ◌/◌, ◌%◌, ◌<◌, ◌^◌};
    ghost use Rattle.std.specs.Coded.{coded_ℕ};
    ghost use Rattle.std.proofs.lemmas.Nat.{div-mul-add, mod-mul-add};

    ghost Value = { ℕ };

    ghost coded = { coded_ℕ };

    ghost view = { λ a. a.upper * 2 ^ 32 + a.lower };

    ghost invariant = { λ a. a.lower < 2 ^ 32 };

    ghost inverse = { λ n. record { lower = n % 2 ^ 32; upper = n / 2 ^ 32 } };

    ghost inverse_ok = { λ a h i. record { lower = mod-mul-add a.upper (2 ^ 32) a.lower h i; upper = div-mul-add a.upper (2 ^ 32) a.lower h i } };
}

impl Held48 {
    /// A number as it is held.
    #[inline]
    pub fn of(number: u64) -> Held48
        requires { number < 2 ^ 48 }
        ensures { result ≡ number }
    {
        Held48 {
            lower: Held32::of((number % (1 << 32)) as u32),
            upper: (number / (1 << 32)) as u16,
        }
    }

    /// The number.
    #[inline]
    pub fn number(self) -> u64
        ensures value { result ≡ self }
        ensures below { result < 2 ^ 48 }
    {
        u64::from(self.upper) * (1 << 32) + u64::from(self.lower.number())
    }
}

/// A number of 64 bits, as two of 32. Contracts see the number.
#[derive(Clone, Copy)]
pub struct Held64 {
    lower: u32,
    upper: u32,
}

impl Model for Held64 {
    ghost use Rattle.std.specs.Prelude.{ℕ, ◌+◌, ◌*◌, ◌/◌, ◌%◌, ◌<◌, ◌^◌};
    ghost use Rattle.std.specs.Coded.{coded_ℕ};
    ghost use Rattle.std.proofs.lemmas.Nat.{div-mul-add, mod-mul-add};

    ghost Value = { ℕ };

    ghost coded = { coded_ℕ };

    ghost view = { λ a. a.upper * 2 ^ 32 + a.lower };

    ghost invariant = { λ a. a.lower < 2 ^ 32 };

    ghost inverse = { λ n. record { lower = n % 2 ^ 32; upper = n / 2 ^ 32 } };

    ghost inverse_ok = { λ a h i. record { lower = mod-mul-add a.upper (2 ^ 32) a.lower h i; upper = div-mul-add a.upper (2 ^ 32) a.lower h i } };
}

impl Held64 {
    /// A number as it is held.
    #[inline]
    pub fn of(number: u64) -> Held64
        ensures { result ≡ number }
    {
        Held64 {
            lower: (number % (1 << 32)) as u32,
            upper: (number / (1 << 32)) as u32,
        }
    }

    /// The number.
    #[inline]
    pub fn number(self) -> u64
        ensures value { result ≡ self }
        ensures below { result < 2 ^ 64 }
    {
        u64::from(self.upper) * (1 << 32) + u64::from(self.lower)
    }
}

/// A number of 128 bits, as two of 64. Contracts see the number.
#[derive(Clone, Copy)]
pub struct Held128 {
    lower: Held64,
    upper: Held64,
}

impl Model for Held128 {
    ghost use Rattle.std.specs.Prelude.{ℕ, ◌+◌, ◌*◌, ◌/◌, ◌%◌, ◌<◌, ◌^◌};
    ghost use Rattle.std.specs.Coded.{coded_ℕ};
    ghost use Rattle.std.proofs.lemmas.Nat.{div-mul-add, mod-mul-add};

    ghost Value = { ℕ };

    ghost coded = { coded_ℕ };

    ghost view = { λ a. a.upper * 2 ^ 64 + a.lower };

    ghost invariant = { λ a. a.lower < 2 ^ 64 };

    ghost inverse = { λ n. record { lower = n % 2 ^ 64; upper = n / 2 ^ 64 } };

    ghost inverse_ok = { λ a h i. record { lower = mod-mul-add a.upper (2 ^ 64) a.lower h i; upper = div-mul-add a.upper (2 ^ 64) a.lower h i } };
}

impl Held128 {
    /// A number as it is held.
    #[inline]
    pub fn of(number: u128) -> Held128
        ensures { result ≡ number }
    {
        Held128 {
            lower: Held64::of((number % (1 << 64)) as u64),
            upper: Held64::of((number / (1 << 64)) as u64),
        }
    }

    /// The number.
    #[inline]
    pub fn number(self) -> u128
        ensures value { result ≡ self }
        ensures below { result < 2 ^ 128 }
    {
        u128::from(self.upper.number()) * (1 << 64) + u128::from(self.lower.number())
    }
}
