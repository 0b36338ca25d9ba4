//! Tables and sets of rows that fit as numbers, and of rows that don't.
ghost use Rattle.std.specs.Prelude.{◌≡◌, ◌≤◌, ◌<◌, ◌^◌, All, length};
ghost use Rattle.std.specs.List.{AllByRecursion};

use sn_base::any_fold::AnyFold;
use sn_base::any_row::AnyRow;
use sn_base::fold::SatSum;
use sn_base::memory::Memory;
use sn_base::row::Row;
use sn_base::seed::Seed;
use sn_base::short_row::ShortRow;
use sn_table::narrow::{columns_into, number_of};
use sn_table::rows::Rows;
use sn_table::table::Table;

fn row(columns: &[u64]) -> ShortRow
    requires { length columns.now ≤ 8 }
    ensures { result ≡ columns.now }
{
    match ShortRow::new(columns) {
        Some(row) => row,
        None => unreachable!(),
    }
}

fn wide_row(columns: &[u128]) -> Row
    requires { length columns.now ≤ 8 }
    ensures { result ≡ columns.now }
{
    match Row::new(columns) {
        Some(row) => row,
        None => unreachable!(),
    }
}

/// Adds to a key's sum. Sums stay below 2^64.
fn sum<R: AnyRow>(table: &mut Table<R>, key: &R, value: u64) -> Result<(), Memory>
    requires { AllByRecursion (λ e. e.1 < 2 ^ 64) table.old.entries }
    ensures { AllByRecursion (λ e. e.1 < 2 ^ 64) table.new.entries }
{
    table.add(AnyFold::SatSum(SatSum { v: 64 }), key, value)
}

/// Adds to the sums of keys, one after another. Sums stay below 2^64.
fn sums<R: AnyRow>(table: &mut Table<R>, added: &[(R, u64)]) -> Result<(), Memory>
    requires { AllByRecursion (λ e. e.1 < 2 ^ 64) table.old.entries }
    ensures { AllByRecursion (λ e. e.1 < 2 ^ 64) table.new.entries }
{
    for pair in added {
        sum(table, &pair.0, pair.1)?;
    }
    Ok(())
}

/// Adds to the sum of the key that stands at these places of a row. Sums stay below 2^64.
fn sum_at(
    table: &mut Table<ShortRow>,
    row: &ShortRow,
    places: &[u32],
    value: u64,
) -> Result<(), Memory>
    requires places { All (λ place. place < length row.now) places.now }
    requires few { length places.now ≤ 8 }
    requires small { AllByRecursion (λ e. e.1 < 2 ^ 64) table.old.entries }
    ensures { AllByRecursion (λ e. e.1 < 2 ^ 64) table.new.entries }
{
    table.add_at(AnyFold::SatSum(SatSum { v: 64 }), row, places, value)
}

/// Whether the table has these entries and no others, in this order.
fn has<R: AnyRow>(table: &Table<R>, entries: &[(R, u64)]) -> bool {
    let mut key = R::empty();
    for (place, (want, value)) in entries.iter().enumerate() {
        if table.get_into(place, &mut key) != Some(*value) || key != *want {
            return false;
        }
    }
    table.len() == entries.len() && table.get_into(entries.len(), &mut key).is_none()
}

#[test]
fn holds_three_columns_of_42_bits(rt: HostRuntime) {
    let mut table = Table::new(rt.alloc(), Seed::new(7));
    let last = (1 << 42) - 1;
    let (first, second) = (row(&[last, 0, last]), row(&[0, last, 1]));
    assert!(rt; sums(&mut table, &[(first, 5), (second, 6), (first, 7)]).is_ok());
    assert!(rt; table.is_narrow());
    assert!(rt; has(&table, &[(first, 12), (second, 6)]));
    let more = row(&[0, last + 1, 1]);
    assert!(rt; sums(&mut table, &[(more, 8), (second, 1)]).is_ok());
    assert!(rt; !table.is_narrow());
    assert!(rt; has(&table, &[(first, 12), (second, 7), (more, 8)]));
}

#[test]
fn holds_addresses_of_48_bits(rt: HostRuntime) {
    let mut table = Table::new(rt.alloc(), Seed::new(8));
    let (low, high) = (
        row(&[1, 2, 3]),
        row(&[0x0200_0000_0001, 0xffff_ffff_ffff, 3]),
    );
    assert!(rt; sums(&mut table, &[(low, 1), (high, 2), (low, 3)]).is_ok());
    assert!(rt; !table.is_narrow());
    assert!(rt; has(&table, &[(low, 4), (high, 2)]));
}

#[test]
fn widens_for_another_number_of_columns(rt: HostRuntime) {
    let mut table = Table::new(rt.alloc(), Seed::new(9));
    let (one, two, none) = (row(&[u64::MAX]), row(&[0]), ShortRow::empty());
    assert!(rt; sums(&mut table, &[(one, 1), (two, 2)]).is_ok());
    assert!(rt; table.is_narrow());
    assert!(rt; sums(&mut table, &[(none, 3), (two, 4)]).is_ok());
    assert!(rt; !table.is_narrow());
    assert!(rt; has(&table, &[(one, 1), (two, 6), (none, 3)]));
}

#[test]
fn holds_the_row_of_no_column(rt: HostRuntime) {
    let mut table = Table::new(rt.alloc(), Seed::new(10));
    assert!(rt; has(&table, &[]));
    assert!(rt;
        sums(
            &mut table,
            &[(ShortRow::empty(), 1), (ShortRow::empty(), 2)]
        )
        .is_ok()
    );
    assert!(rt; table.is_narrow());
    assert!(rt; has(&table, &[(ShortRow::empty(), 3)]));
}

#[test]
fn adds_at_one_place(rt: HostRuntime) {
    let mut table = Table::new(rt.alloc(), Seed::new(11));
    let (four, last) = (row(&[4]), row(&[u64::MAX]));
    let both = row(&[4, u64::MAX]);
    assert!(rt; sum_at(&mut table, &both, &[1], 1).is_ok());
    assert!(rt; sums(&mut table, &[(last, 2), (four, 3)]).is_ok());
    assert!(rt; sum_at(&mut table, &both, &[0], 4).is_ok());
    assert!(rt; table.is_narrow());
    assert!(rt; has(&table, &[(last, 3), (four, 7)]));
}

#[test]
fn adds_at_two_places(rt: HostRuntime) {
    let mut table = Table::new(rt.alloc(), Seed::new(12));
    let (pair, turned) = (row(&[u64::MAX, 7]), row(&[7, u64::MAX]));
    let three = row(&[5, u64::MAX, 7]);
    assert!(rt; sum_at(&mut table, &three, &[1, 2], 1).is_ok());
    assert!(rt; sum(&mut table, &pair, 2).is_ok());
    assert!(rt; sum_at(&mut table, &three, &[2, 1], 4).is_ok());
    assert!(rt; table.is_narrow());
    assert!(rt; has(&table, &[(pair, 3), (turned, 4)]));
    assert!(rt; sum_at(&mut table, &three, &[0], 8).is_ok());
    assert!(rt; sum(&mut table, &turned, 16).is_ok());
    assert!(rt; sum_at(&mut table, &three, &[1, 2], 32).is_ok());
    assert!(rt; !table.is_narrow());
    assert!(rt; has(&table, &[(pair, 35), (turned, 20), (row(&[5]), 8)]));
}

#[test]
fn adds_at_three_places(rt: HostRuntime) {
    let mut table = Table::new(rt.alloc(), Seed::new(13));
    let four = row(&[1, 2, 3, 1 << 42]);
    let (low, high) = (row(&[3, 1, 2]), row(&[1, 2, 1 << 42]));
    assert!(rt; sum_at(&mut table, &four, &[2, 0, 1], 1).is_ok());
    assert!(rt; sum(&mut table, &low, 2).is_ok());
    assert!(rt; table.is_narrow());
    assert!(rt; has(&table, &[(low, 3)]));
    assert!(rt; sum_at(&mut table, &four, &[0, 1, 3], 4).is_ok());
    assert!(rt; sum_at(&mut table, &four, &[2, 0, 1], 8).is_ok());
    assert!(rt; !table.is_narrow());
    assert!(rt; has(&table, &[(low, 11), (high, 4)]));
}

#[test]
fn holds_wide_columns(rt: HostRuntime) {
    let mut table = Table::new(rt.alloc(), Seed::new(14));
    let (one, other) = (wide_row(&[u128::MAX]), wide_row(&[1 << 64]));
    assert!(rt; sums(&mut table, &[(one, 1), (other, 2), (one, 4)]).is_ok());
    assert!(rt; table.is_narrow());
    let pair = wide_row(&[1, 1 << 64]);
    assert!(rt; sums(&mut table, &[(pair, 8), (other, 16)]).is_ok());
    assert!(rt; !table.is_narrow());
    assert!(rt; has(&table, &[(one, 5), (other, 18), (pair, 8)]));
}

#[test]
fn packs_one_wide_column(rt: HostRuntime) {
    assert_eq!(rt; number_of(&wide_row(&[1 << 64]), 1), Some(1 << 64));
    assert_eq!(rt; number_of(&wide_row(&[1, 1 << 64]), 2), None);
}

#[test]
fn packs_what_fits(rt: HostRuntime) {
    let last = (1 << 42) - 1;
    let top = u64::MAX;
    let packed = [
        (row(&[]), 0),
        (row(&[top]), 0xffff_ffff_ffff_ffff),
        (row(&[7, 9]), 0x9_0000_0000_0000_0007),
        (row(&[top, top]), u128::MAX),
        (
            row(&[last, 5, last]),
            0x3fff_ffff_fff0_0000_0000_17ff_ffff_ffff,
        ),
        (
            row(&[65535, 1, 2, 3, 4, 5, 6, 65535]),
            0xffff_0006_0005_0004_0003_0002_0001_ffff,
        ),
    ];
    for (row, number) in packed {
        let mut back = ShortRow::empty().with(77).unwrap_or(ShortRow::empty());
        assert_eq!(rt; number_of(&row, row.len()), Some(number));
        columns_into(number, row.len(), &mut back);
        assert_eq!(rt; back, row);
    }
}

#[test]
fn refuses_what_does_not_fit(rt: HostRuntime) {
    assert_eq!(rt; number_of(&row(&[0, 1 << 42, 0]), 3), None);
    assert_eq!(rt; number_of(&row(&[0, 0, 0, 0, 0, 0, 0, 65536]), 8), None);
    assert_eq!(rt; number_of(&row(&[1, 2]), 3), None);
    assert_eq!(rt; number_of(&row(&[1, 2]), 1), None);
}

#[test]
fn knows_rows_before_and_after_it_widens(rt: HostRuntime) {
    let mut rows = Rows::new(rt.alloc(), Seed::new(11));
    let high = row(&[0xffff_ffff_ffff, 0, 0]);
    for (row, new) in [
        (row(&[1, 2, 3]), true),
        (row(&[1, 2, 4]), true),
        (row(&[1, 2, 3]), false),
        (high, true),
        (row(&[1, 2, 4]), false),
        (row(&[1, 2]), true),
        (high, false),
        (row(&[1, 2]), false),
    ] {
        assert_eq!(rt; rows.insert(&row), Ok(new));
    }
    assert!(rt; !rows.is_narrow());
}
