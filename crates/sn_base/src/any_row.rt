//! Rows of any kind.
ghost use Rattle.std.specs.Prelude.{◌≡◌, ◌<◌, ◌≤◌, ◌++◌, ◌∷◌, [], length, take, slice_set};
ghost use Rattle.sn_base.specs.Groups.{same_row};
ghost use Rattle.sn_base.specs.Rows.{filled};

use crate::columns::Columns;
use std::hash::Hash;

/// A row: at most eight columns, held in place. A `ShortRow` has numbers of 64 bits, and a `Row` of 128.
pub trait AnyRow: Columns + Copy + Drop + Eq + Hash {
    /// The row of no column.
    fn empty() -> Self
        ensures { Self.columns result ≡ [] };

    /// How many columns there are.
    fn len(&self) -> usize
        ensures value { result ≡ length (Self.columns self.now) }
        ensures most { result ≤ 8 };

    /// Puts one more column after the others, in place.
    fn push(&mut self, number: Self::Number)
        requires { length (Self.columns self.old) < 8 }
        ensures { Self.columns self.new ≡ Self.columns self.old ++ Self.Number.value number ∷ [] };

    /// Makes it a row of this many columns: those past them go, and each that is new is 0.
    fn resize(&mut self, count: usize)
        requires { count ≤ 8 }
        ensures value { Self.columns self.new ≡ take count (filled (Self.columns self.old)) }
        ensures long { length (Self.columns self.new) ≡ count };

    /// Sets the column at a place.
    fn set(&mut self, place: usize, number: Self::Number)
        requires { place < length (Self.columns self.old) }
        ensures { Self.columns self.new ≡ slice_set (Self.columns self.old) place (Self.Number.value number) };

    /// Rows are equal where their columns are.
    ghost same: { (a b : Self) → Self.eq a b ≡ same_row (Self.columns a) (Self.columns b) };
}
