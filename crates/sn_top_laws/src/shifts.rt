//! What a wide shift gives.
ghost use Rattle.std.specs.Prelude.{◌≡◌, ◌<◌, ◌≤◌, ◌^◌, ℕ, All, List};
ghost use Rattle.sn_types.specs.Values.{value_of};
ghost use Rattle.sn_types.specs.declared.typed_op.TExpr.TheVariants.{Shift};

/// A shift by 64 or more gives 0 at every row of numbers of 64 bits, whatever its place: the floor of a number over
/// 2 to any power, with no condition on it.
pub fn wide_shifts_give_0()
    ensures { (row : List ℕ) (a k : ℕ) → All (λ n. n < 2 ^ 64) row → 64 ≤ k → value_of (Shift a k) row ≡ 0 }
{}
