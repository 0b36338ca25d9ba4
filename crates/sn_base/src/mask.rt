//! The highest bits of a number.
ghost use Rattle.std.specs.Prelude.{◌≡◌, ◌≤◌};
ghost use Rattle.sn_base.specs.Mask.{masked};

use crate::number::Number;

/// Keeps the highest `keep` of the `width` bits of `x`, and clears the rest.
pub fn mask<N: Number>(x: N, width: u32, keep: u32) -> N
    requires { keep ≤ width }
    ensures { N.value result ≡ masked width keep (N.value x) }
{
    x.cleared(width - keep)
}
