//! Columns by their places: of a row, or of what a row would be made of.
ghost use Rattle.std.specs.Prelude.{◌≡◌, ℕ, ◌<◌, List, length, slice_index};

use crate::number::Number;

/// Columns by their places.
pub trait Columns {
    /// What holds a number of a column.
    type Number: Number;

    /// All columns, in order.
    ghost columns: { Self → List ℕ };

    /// The column at a place.
    fn column(&self, place: u32) -> Self::Number
        requires { place < length (columns self.now) }
        ensures { Self.Number.value result ≡ slice_index (columns self.now) place };
}
