//! Rows, their schemas, and what is made of their columns.
use sn_base::any_fold::AnyFold;
use sn_base::any_row::AnyRow;
use sn_base::column::Column;
use sn_base::fold::{Fold, Max, Min, Or, SatSum};
use sn_base::mask::mask;
use sn_base::members::Members;
use sn_base::name::Name;
use sn_base::row::Row;
use sn_base::row_list::RowList;
use sn_base::row_seq::RowSeq;
use sn_base::schema::Schema;
use sn_base::seed::Seed;
use sn_base::seq::Seq;
use sn_base::short_row::ShortRow;
use sn_base::slot::slot_of;
use sn_table::numbers::Numbers;
use std::hash::BuildHasher;
use std::process::Abort;

#[test]
fn takes_one_to_thirty_two_bytes(rt: HostRuntime) {
    assert!(rt; Name::new(b"").is_none());
    assert!(rt; Name::new(&[b'a'; 33]).is_none());
    assert!(rt;
        Name::new(&[b'a'; 32]).is_some_and(|name| name.as_bytes() == [b'a'; 32].as_slice())
    );
}

#[test]
fn rows_hold_eight_columns(rt: HostRuntime) {
    assert!(rt; ShortRow::new(&[0; 9]).is_none());
    let row = ShortRow::new(&[1, 2, 3, 4, 5, 6, 7]).and_then(|row| row.with(8));
    assert_eq!(rt; row, ShortRow::new(&[1, 2, 3, 4, 5, 6, 7, 8]));
    assert!(rt; row.is_some_and(|row| row.with(9).is_none()));
    assert!(rt; ShortRow::empty() < ShortRow::empty().with(0).unwrap_or(ShortRow::empty()));
}

#[test]
fn wide_rows_hold_eight_columns(rt: HostRuntime) {
    assert!(rt; Row::new(&[0; 9]).is_none());
    let row = Row::new(&[1, 2, 3, 4, 5, 6, 7]).and_then(|row| row.with(u128::MAX));
    assert_eq!(rt; row, Row::new(&[1, 2, 3, 4, 5, 6, 7, u128::MAX]));
    assert_eq!(rt; row.and_then(|row| row.get(7)), Some(u128::MAX));
    assert!(rt; row.is_some_and(|row| row.with(9).is_none()));
    assert!(rt; Row::empty() < Row::empty().with(0).unwrap_or(Row::empty()));
}

#[test]
fn columns_that_are_cut_come_back_as_zeros(rt: HostRuntime) {
    let mut short = ShortRow::new(&[1, 2, 3]).expect(&rt, "a row");
    short.resize(2);
    short.resize(4);
    short.set(3, 9);
    assert_eq!(rt; Some(short), ShortRow::new(&[1, 2, 0, 9]));
    let mut wide = Row::new(&[1, 2, 3]).expect(&rt, "a row");
    wide.resize(2);
    wide.resize(4);
    wide.set(3, u128::MAX);
    assert_eq!(rt; Some(wide), Row::new(&[1, 2, 0, u128::MAX]));
}

#[test]
fn short_rows_become_wide(rt: HostRuntime) {
    let short = ShortRow::new(&[7, u64::MAX]).expect(&rt, "a row");
    let rows = RowSeq::from_slice(rt.alloc(), [short, short].as_slice()).expect(
        &rt,
        "ample memory",
    );
    let list = RowList::Short(rows);
    assert_eq!(rt; list.len(), 2);
    let wide = Row::new(&[7, u128::from(u64::MAX)]).expect(&rt, "a row");
    let rows = list.into_wide(rt.alloc()).expect(&rt, "ample memory");
    assert_eq!(rt; rows.as_slice(), [wide, wide].as_slice());
}

#[test]
fn schemas_hold_eight_columns(rt: HostRuntime) {
    let name = Name::new(b"_").expect(&rt, "a name");
    let blank = Column {
        name,
        width: 0,
        address: false,
    };
    let mut schema = Schema::new();
    for width in 1..9 {
        let column = Column { width, ..blank };
        assert!(rt; schema.add(column));
    }
    assert!(rt; !schema.add(blank));
    assert_eq!(rt; schema.len(), 8);
    assert_eq!(rt; schema.get(7).map(|column| column.width), Some(8));
    assert_eq!(rt; schema.get(8), None);
}

#[test]
fn takes_items_and_gives_them_back(rt: HostRuntime) {
    let mut items = Seq::new(rt.alloc());
    assert_eq!(rt; items.push(3u64), Ok(()));
    assert_eq!(rt; items.push(4), Ok(()));
    assert_eq!(rt; items.pop(), Some(4));
    assert_eq!(rt; items.as_slice(), [3].as_slice());
    assert_eq!(rt; Seq::from_vec(items.into_vec()).pop(), Some(3));
}

#[test]
fn has_what_was_added(rt: HostRuntime) {
    let mut members = Members::new(rt.alloc());
    assert_eq!(rt; members.add(7), Ok(()));
    assert!(rt; members.has(7));
    assert!(rt; !members.has(8));
    assert_eq!(rt; members.add(7), Ok(()));
}

#[test]
fn keeps_the_highest_bits(rt: HostRuntime) {
    assert_eq!(rt; mask(167772169u64, 32, 8), 167772160);
    assert_eq!(rt; mask(5u64, 8, 0), 0);
    assert_eq!(rt; mask(u64::MAX, 64, 0), 0);
    assert_eq!(rt; mask(u64::MAX, 64, 64), u64::MAX);
    assert_eq!(rt; mask(u128::MAX, 128, 0), 0);
    assert_eq!(rt; mask(u128::MAX, 128, 1), 1 << 127);
    assert_eq!(rt; mask(u128::MAX, 128, 128), u128::MAX);
}

#[test]
fn folds_the_known_values(rt: HostRuntime) {
    assert_eq!(rt; SatSum { v: 4 }.step(9, 9), 15);
    assert_eq!(rt; Min { v: 3 }.unit(), 7);
    assert_eq!(rt; Or { v: 8 }.step(5, 2), 7);
    assert_eq!(rt; Max { v: 64 }.step(5, u64::MAX), u64::MAX);
    assert_eq!(rt; Max { v: 3 }.has(8), false);
    assert_eq!(rt; AnyFold::SatSum(SatSum { v: 4 }).step(9, 9), 15);
    assert_eq!(rt; AnyFold::Min(Min { v: 3 }).unit(), 7);
    assert_eq!(rt; AnyFold::Or(Or { v: 8 }).step(5, 2), 7);
}

/// The slots of large columns are by the formula in whole numbers, worked out elsewhere.
#[test]
fn gives_the_known_slots(rt: HostRuntime) {
    let table: [(u32, &[u64], u32, u32); 11] = [
        (0, &[], 256, 37),
        (1, &[], 256, 36),
        (0, &[0], 256, 197),
        (1, &[0], 256, 164),
        (0, &[1], 256, 164),
        (0, &[4294967295], 1000, 441),
        (0, &[4294967296], 1000, 484),
        (3, &[18446744073709551615, 7], 65535, 4042),
        (2, &[167772169, 80, 1099511627781], 65536, 28986),
        (1, &[5], 1, 0),
        (0, &[9223372036854775808], 3, 2),
    ];
    for (index, columns, slots, slot) in table {
        let key = ShortRow::new(columns).expect(&rt, "a row");
        assert_eq!(rt; slot_of(index, &key, slots), slot);
    }
}

/// These too. A column of 2^64 and more counts with sixteen bytes.
#[test]
fn gives_the_known_slots_of_wide_columns(rt: HostRuntime) {
    let table: [(u32, &[u128], u32, u32); 6] = [
        (0, &[18446744073709551615], 65536, 34877),
        (0, &[18446744073709551616], 256, 68),
        (1, &[18446744073709551616], 65536, 38469),
        (0, &[u128::MAX], 1000, 133),
        (
            2,
            &[42540766411282592856903984951653826561, 443],
            65536,
            12532,
        ),
        (0, &[5, 18446744073709551621], 65535, 9212),
    ];
    for (index, columns, slots, slot) in table {
        let key = Row::new(columns).expect(&rt, "a row");
        assert_eq!(rt; slot_of(index, &key, slots), slot);
    }
}

#[test]
fn other_numbers_give_other_hashes(rt: HostRuntime) {
    let (one, two) = (Seed::new(1), Seed::new(2));
    assert_eq!(rt; one.hash_one(7u64), Seed::new(1).hash_one(7u64));
    assert!(rt; one.hash_one(7u64) != two.hash_one(7u64));
}

/// Numbers the row of these columns, and looks at what the numbers hold then.
fn expect_number(
    rt: &impl Abort,
    numbers: &mut Numbers<ShortRow>,
    columns: &[u64],
    number: usize,
    count: usize,
) {
    let row = ShortRow::new(columns).expect(rt, "a row");
    let mut held = ShortRow::empty();
    assert_eq!(rt; numbers.number(&row), Ok(number));
    assert_eq!(rt; numbers.len(), count);
    assert!(rt; numbers.get_into(number, &mut held));
    assert!(rt; !numbers.get_into(count, &mut held));
    assert_eq!(rt; held, row);
}

/// Three columns fit in 128 bits while each is below 2^42, and rows of two columns don't fit beside them.
#[test]
fn numbers_rows_by_first_places(rt: HostRuntime) {
    let table: [(&[u64], usize, usize); 8] = [
        (&[1, 2, 3], 0, 1),
        (&[1, 2, 4], 1, 2),
        (&[1, 2, 3], 0, 2),
        (&[0, 4398046511104, 0], 2, 3),
        (&[1, 2, 4], 1, 3),
        (&[1, 2], 3, 4),
        (&[0, 4398046511104, 0], 2, 4),
        (&[1, 2, 3], 0, 4),
    ];
    let mut numbers = Numbers::new(rt.alloc(), Seed::new(15));
    let mut held = ShortRow::empty();
    assert_eq!(rt; numbers.number(&held), Ok(0));
    assert!(rt; numbers.is_narrow());
    for _window in 0..2 {
        numbers.clear();
        assert!(rt; !numbers.get_into(0, &mut held));
        for (columns, number, count) in table {
            expect_number(&rt, &mut numbers, columns, number, count);
        }
        assert!(rt; !numbers.is_narrow());
    }
}
