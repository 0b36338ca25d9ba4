//! Lists of numbers that may be asked at any place.
ghost use Rattle.std.specs.Prelude.{◌≡◌, length, slice_index};

/// The number at a place, or 0 past the last one.
pub fn number_at(numbers: &[u64], place: usize) -> u64
    ensures { result ≡ slice_index numbers.now place }
{
    match numbers.get(place) {
        Some(number) => *number,
        None => 0,
    }
}

/// Writes a number at a place. Past the last one nothing is written.
pub fn put_at(numbers: &mut Vec<u64>, place: usize, number: u64)
    ensures { length numbers.new.items ≡ length numbers.old.items }
{
    if let Some(held) = numbers.get_mut(place) {
        *held = number;
    }
}

/// The place of a cell of a table whose rows have this width, or the greatest place where it has none.
pub fn cell(row: usize, width: usize, column: usize) -> usize {
    row.saturating_mul(width).saturating_add(column)
}
