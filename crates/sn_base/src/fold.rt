//! Folds: ways to combine the values of a key, in any order.
ghost use Rattle.std.specs.Prelude.{◌≡◌, ℕ, ◌-◌, ◌^◌, ◌≤◌, ◌↔◌, IsTrue, min, max, bit_or};
ghost use Rattle.sn_base.specs.Folds.{FoldLaws, HasBits, top_of, capped_sum, capped_sum_laws, max_laws, min_laws, bit_or_laws};

/// A way to combine values. Over the values that it has, the order and the grouping are free, and the
/// unit changes nothing.
pub trait Fold: Copy {
    /// The values that it has.
    ghost takes: { Self → ℕ → Type 0 };

    /// The fold of no value.
    ghost start: { Self → ℕ };

    /// Two values combined.
    ghost join: { Self → ℕ → ℕ → ℕ };

    /// Whether it has a value.
    fn has(self, a: u64) -> bool
        ensures { IsTrue result ↔ takes self a };

    /// The fold of no value.
    fn unit(self) -> u64
        ensures { result ≡ start self };

    /// Two values combined.
    fn step(self, a: u64, b: u64) -> u64
        requires first { takes self a }
        requires second { takes self b }
        ensures value { result ≡ join self a b }
        ensures had { takes self result };

    /// The order of the values is free.
    ghost laws: { (f : Self) → FoldLaws (takes f) (start f) (join f) };
}

/// The greatest number of `v` bits.
fn top(v: u32) -> u64
    requires { v ≤ 64 }
    ensures { result ≡ top_of v }
{
    if v == 64 { u64::MAX } else { (1 << v) - 1 }
}

/// The sum, or the greatest number of `v` bits where the sum is above it.
#[derive(Clone, Copy, Debug, PartialEq, Eq)]
pub struct SatSum {
    /// Bits of a value, 1 to 64.
    pub v: u32,
    ghost in_range: { (1 ≤ v) × (v ≤ 64) },
}

impl Fold for SatSum {
    ghost takes = { λ f. HasBits f.v };

    ghost start = { λ f. 0 };

    ghost join = { λ f. capped_sum f.v };

    ghost laws = { λ f. capped_sum_laws f.v };

    fn has(self, a: u64) -> bool {
        a <= top(self.v)
    }

    fn unit(self) -> u64 {
        0
    }

    fn step(self, a: u64, b: u64) -> u64 {
        a.saturating_add(b).min(top(self.v))
    }
}

/// The greater number.
#[derive(Clone, Copy, Debug, PartialEq, Eq)]
pub struct Max {
    /// Bits of a value, 1 to 64.
    pub v: u32,
    ghost in_range: { (1 ≤ v) × (v ≤ 64) },
}

impl Fold for Max {
    ghost takes = { λ f. HasBits f.v };

    ghost start = { λ f. 0 };

    ghost join = { λ f a b. max a b };

    ghost laws = { λ f. max_laws f.v };

    fn has(self, a: u64) -> bool {
        a <= top(self.v)
    }

    fn unit(self) -> u64 {
        0
    }

    fn step(self, a: u64, b: u64) -> u64 {
        a.max(b)
    }
}

/// The lesser number. The fold of no value is the greatest number of `v` bits.
#[derive(Clone, Copy, Debug, PartialEq, Eq)]
pub struct Min {
    /// Bits of a value, 1 to 64.
    pub v: u32,
    ghost in_range: { (1 ≤ v) × (v ≤ 64) },
}

impl Fold for Min {
    ghost takes = { λ f. HasBits f.v };

    ghost start = { λ f. top_of f.v };

    ghost join = { λ f a b. min a b };

    ghost laws = { λ f. min_laws f.v };

    fn has(self, a: u64) -> bool {
        a <= top(self.v)
    }

    fn unit(self) -> u64 {
        top(self.v)
    }

    fn step(self, a: u64, b: u64) -> u64 {
        a.min(b)
    }
}

/// The bitwise or.
#[derive(Clone, Copy, Debug, PartialEq, Eq)]
pub struct Or {
    /// Bits of a value, 1 to 64.
    pub v: u32,
    ghost in_range: { (1 ≤ v) × (v ≤ 64) },
}

impl Fold for Or {
    ghost takes = { λ f. HasBits f.v };

    ghost start = { λ f. 0 };

    ghost join = { λ f a b. bit_or a b };

    ghost laws = { λ f. bit_or_laws f.v };

    fn has(self, a: u64) -> bool {
        a <= top(self.v)
    }

    fn unit(self) -> u64 {
        0
    }

    fn step(self, a: u64, b: u64) -> u64 {
        a | b
    }
}
