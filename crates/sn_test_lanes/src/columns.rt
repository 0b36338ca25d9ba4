//! Columns of the fields of packets, and the kernels over columns beside the plain calls.
ghost use Rattle.std.specs.Prelude.{◌≡◌, ◌≤◌, length};

use sn_base::any_row::AnyRow;
use sn_base::link::Link;
use sn_base::mask::mask;
use sn_base::memory::Memory;
use sn_base::row::Row;
use sn_base::short_row::ShortRow;
use sn_base::slot::slot_of;
use sn_fields::field::Field;
use sn_fields::tuple::tuple_of;
use sn_lanes::columns::Columns;
use sn_lanes::compare::{Cmp3, compare};
use sn_lanes::masks::masks;
use sn_lanes::slots8::slots8;
use std::alloc::Global;
use std::test::Fail;

/// A SYN of TCP from 10.0.0.1 to 10.0.0.9.
const SYN: [u8; 54] = [
    0x02, 0x00, 0x00, 0x00, 0x00, 0x02, 0x02, 0x00, 0x00, 0x00, 0x00, 0x01, 0x08, 0x00, 0x45, 0x00,
    0x00, 0x28, 0x00, 0x00, 0x00, 0x00, 0x40, 0x06, 0x00, 0x00, 0x0a, 0x00, 0x00, 0x01, 0x0a, 0x00,
    0x00, 0x09, 0x04, 0x00, 0x00, 0x50, 0x00, 0x00, 0x00, 0x00, 0x00, 0x00, 0x00, 0x00, 0x50, 0x02,
    0x00, 0x00, 0x00, 0x00, 0x00, 0x00,
];

/// Lengths around the blocks of eight, and a long one.
const LENGTHS: [usize; 7] = [0, 1, 7, 8, 9, 17, 65537];

#[test]
fn holds_the_fields_of_tuples(rt: HostRuntime) -> Result<(), Fail> {
    let tuples = [tuple_of(Link::Ethernet, 54, &SYN)];
    let fields = [Field::IpDestination, Field::TcpFlags];
    let columns = Columns::of(rt.alloc(), &tuples, &fields)?;
    assert_eq!(rt; columns.column(0), [167772169].as_slice());
    assert_eq!(rt; columns.column(1), [2].as_slice());
    Ok(())
}

#[test]
fn gives_the_worked_answers(rt: HostRuntime) {
    let mut flags = [7; 3];
    compare(&[1, 2, 3], 3, Cmp3::Lt, 2, &mut flags);
    assert_eq!(rt; flags, [1, 0, 0]);
    let mut masked = [7];
    masks(&[167772169], 32, 8, &mut masked);
    assert_eq!(rt; masked, [167772160]);
    assert_eq!(rt; slots8(0, &[row(&[0]); 8], 256), [197; 8]);
    assert_eq!(rt; slots8(0, &[row(&[1 << 64]); 8], 256), [68; 8]);
}

fn row(columns: &[u128]) -> Row {
    Row::new(columns).unwrap_or(Row::empty())
}

/// Numbers of up to 64 bits, of which two in three are below 5.
fn numbers(alloc: Global, length: usize) -> Result<Vec<u64>, Memory> {
    let mut numbers = vec![in alloc; 0; length]?;
    for place in 0..numbers.len() {
        let spread = (place as u64).wrapping_mul(0x9e37_79b9_7f4a_7c15);
        numbers[place] = if place % 3 == 0 { spread } else { spread % 5 };
    }
    Ok(numbers)
}

fn flag(number: u64, and: u64, cmp: Cmp3, constant: u64) -> u8 {
    let masked = number & and;
    u8::from(match cmp {
        Cmp3::Eq => masked == constant,
        Cmp3::Lt => masked < constant,
        Cmp3::Gt => masked > constant,
    })
}

/// Whether a column is compared as its numbers are, one after another.
fn compares(
    alloc: Global,
    column: &[u64],
    and: u64,
    cmp: Cmp3,
    constant: u64,
) -> Result<bool, Memory> {
    let mut flags = vec![in alloc; 9; column.len()]?;
    compare(column, and, cmp, constant, &mut flags);
    for place in 0..column.len() {
        if flags[place] != flag(column[place], and, cmp, constant) {
            return Ok(false);
        }
    }
    Ok(true)
}

#[test]
fn compares_columns_of_any_length(rt: HostRuntime) -> Result<(), Fail> {
    for length in LENGTHS {
        let column = numbers(rt.alloc(), length)?;
        for cmp in [Cmp3::Eq, Cmp3::Lt, Cmp3::Gt] {
            assert!(rt; compares(rt.alloc(), &column, u64::MAX, cmp, 2)?);
            assert!(rt; compares(rt.alloc(), &column, u64::MAX, cmp, 1 << 63)?);
            assert!(rt; compares(rt.alloc(), &column, 6, cmp, 2)?);
        }
    }
    Ok(())
}

/// Whether a column is masked as its numbers are, one after another.
fn keeps(alloc: Global, column: &[u64], width: u32, keep: u32) -> Result<bool, Memory>
    requires { keep ≤ width }
{
    let mut masked = vec![in alloc; 9; column.len()]?;
    masks(column, width, keep, &mut masked);
    for place in 0..column.len() {
        if masked[place] != mask(column[place], width, keep) {
            return Ok(false);
        }
    }
    Ok(true)
}

#[test]
fn masks_columns_of_any_length(rt: HostRuntime) -> Result<(), Fail> {
    for length in LENGTHS {
        let column = numbers(rt.alloc(), length)?;
        for keep in [0, 1, 63, 64] {
            assert!(rt; keeps(rt.alloc(), &column, 64, keep)?);
            assert!(rt; keeps(rt.alloc(), &column, 128, keep)?);
        }
    }
    Ok(())
}

/// Whether eight rows have the slots that they have one by one.
fn hashes<R: AnyRow>(index: u32, keys: &[R; 8], slots: u32) -> bool
    requires { 1 ≤ slots }
{
    let each = keys.as_slice();
    let found = slots8(index, keys, slots);
    for lane in 0..8 {
        if found[lane] != slot_of(index, &each[lane], slots) {
            return false;
        }
    }
    true
}

fn short(columns: &[u64]) -> ShortRow {
    ShortRow::new(columns).unwrap_or(ShortRow::empty())
}

/// The same rows, with room for wide columns.
fn as_rows(short: &[ShortRow; 8]) -> [Row; 8] {
    let each = short.as_slice();
    let mut rows = [Row::empty(); 8];
    for lane in 0..8 {
        rows[lane] = Row::of_short(&each[lane]);
    }
    rows
}

#[test]
fn hashes_eight_rows_of_either_kind(rt: HostRuntime) {
    let low = [
        short(&[]),
        short(&[0]),
        short(&[(1 << 32) - 1]),
        short(&[1, 2]),
        short(&[1, 2, 3, 4, 5, 6, 7, 8]),
        short(&[0; 8]),
        short(&[1 << 31, 1 << 24, 256]),
        short(&[9]),
    ];
    let mut high = low;
    high[3] = short(&[1, 1 << 32]);
    high[7] = short(&[u64::MAX, 1 << 63, 3]);
    let mut wide = as_rows(&high);
    let whole = wide;
    wide[1] = row(&[5, 1 << 64, u128::MAX]);
    for index in [0, 3] {
        for slots in [1, 256, 1000, 65536] {
            assert!(rt; hashes(index, &low, slots));
            assert!(rt; hashes(index, &high, slots));
            assert!(rt; hashes(index, &whole, slots));
            assert!(rt; hashes(index, &wide, slots));
        }
    }
}
