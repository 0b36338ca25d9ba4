//! A short row as one number of 128 bits.
ghost use Rattle.std.specs.Prelude.{◌≡◌, ◌≢◌, ℕ, ◌≤◌, ◌<◌, ◌^◌, List, [], ◌∷◌, length, All, Some, None, IfSome, true, if◌then◌else◌};
ghost use Rattle.sn_base.specs.Groups.{columns_at};
ghost use Rattle.sn_table.specs.Narrow.{base_of, columns_of, is_narrow, number_of, width_of};

use sn_base::any_row::AnyRow;
use sn_base::columns::Columns;
use sn_base::number::Number;

/// The bits that each of n columns has in 128.
fn width_of(columns: usize) -> u32
    requires { columns ≤ 8 }
    ensures value { result ≡ width_of columns }
    ensures most { columns ≢ 1 → result ≤ 64 }
{
    const WIDTHS: [u32; 9] = [0, 128, 64, 42, 32, 25, 21, 18, 16];
    WIDTHS[columns]
}

/// The number of a row of one column, which always fits.
fn number_of_one(column: u128) -> u128
    ensures fits { is_narrow 1 (column ∷ []) ≡ true }
    ensures number { result ≡ number_of 1 (column ∷ []) }
{
    column
}

/// The number of a row of two columns, where it fits.
fn number_of_two(first: u128, second: u128) -> Option<u128>
    ensures { let row = first ∷ second ∷ [] in result ≡ (if is_narrow 2 row then Some (number_of 2 row) else None) }
{
    const LIMIT: u128 = 1 << 64;
    if first >= LIMIT || second >= LIMIT {
        return None;
    }
    Some(second << 64 | first)
}

/// The number of a row of three columns, where it fits.
fn number_of_three(first: u128, second: u128, third: u128) -> Option<u128>
    ensures { let row = first ∷ second ∷ third ∷ [] in result ≡ (if is_narrow 3 row then Some (number_of 3 row) else None) }
{
    const LIMIT: u128 = 1 << 42;
    if first >= LIMIT || second >= LIMIT || third >= LIMIT {
        return None;
    }
    Some((third << 42 | second) << 42 | first)
}

/// The number of a row of any number of columns but one, where it fits.
fn number_of_all<R: AnyRow>(key: &R) -> Option<u128>
    requires { length (R.columns key.now) ≢ 1 }
    ensures { let columns = length (R.columns key.now) in result ≡
        (if is_narrow columns (R.columns key.now) then Some (number_of columns (R.columns key.now)) else None) }
{
    let columns = key.len();
    let width = width_of(columns);
    let mut number = 0;
    for place in 0..columns {
        let column = key.column((columns - 1 - place) as u32).whole();
        if column >> width != 0 {
            return None;
        }
        number = number << width | column;
    }
    Some(number)
}

/// A row of n columns as one number, the first column lowest. `None` exactly where the row has another number of
/// columns, or one of them takes more than its share of the 128 bits. One column always fits.
pub fn number_of<R: AnyRow>(key: &R, columns: usize) -> Option<u128>
    ensures number { result ≡ (if is_narrow columns (R.columns key.now) then Some (number_of columns (R.columns key.now)) else None) }
    ensures single { IfSome result (λ number. columns ≡ 1 → number < R.Number.limit) }
{
    if key.len() != columns {
        return None;
    }
    match columns {
        1 => Some(number_of_one(key.column(0).whole())),
        2 => number_of_two(key.column(0).whole(), key.column(1).whole()),
        3 => number_of_three(
            key.column(0).whole(),
            key.column(1).whole(),
            key.column(2).whole(),
        ),
        _ => number_of_all(key),
    }
}

/// The number of the key that stands at these places of a row, built straight from the row. `None` says nothing of the key: it
/// is given where the key has another number of columns, and for all keys but those of one or two columns.
pub(crate) fn number_at<C: Columns>(row: &C, places: &[u32], columns: usize) -> Option<u128>
    requires { All (λ place. place < length (C.columns row.now)) places.now }
    ensures single { IfSome result (λ number. columns ≡ 1 → number < C.Number.limit) }
    ensures number { let key = columns_at places.now (C.columns row.now) in IfSome result
        (λ number. (if is_narrow columns key then Some (number_of columns key) else None) ≡ Some number) }
{
    if places.len() != columns {
        return None;
    }
    match *places {
        [place] => Some(number_of_one(row.column(place).whole())),
        [first, second] => number_of_two(row.column(first).whole(), row.column(second).whole()),
        _ => None,
    }
}

/// Writes the row of n columns that a number stands for, in place.
pub fn columns_into<R: AnyRow>(number: u128, columns: usize, row: &mut R)
    requires few { columns ≤ 8 }
    requires single { columns ≡ 1 → number < R.Number.limit }
    ensures { R.columns row.new ≡ columns_of columns number }
{
    *row = R::empty();
    if columns == 1 {
        row.push(R::Number::of_whole(number));
        return;
    }
    let width = width_of(columns);
    let mask = (1 << width) - 1;
    let mut rest = number;
    for _place in 0..columns {
        row.push(R::Number::of_whole(rest & mask));
        rest >>= width;
    }
}

/// What holds of all numbers and rows: a row that fits is the row that its number stands for, and a number of this many
/// columns is that of its row. So no two rows have one number. This says so, and does nothing.
pub fn numbers_stand_for_rows()
    ensures rows { (columns : ℕ) (row : List ℕ) → is_narrow columns row ≡ true → columns_of columns (number_of columns row) ≡ row }
    ensures numbers { (columns number : ℕ) → number < base_of columns ^ columns → number_of columns (columns_of columns number) ≡ number }
{}
