//! The bytes of report frames.
use crate::texts::row;
use sn_base::lane::Lane;
use sn_base::row::Row;
use sn_report::decode::{Decoded, decode};
use sn_report::encode::{MOST_BYTES, encode};
use sn_report::frame::{Frame, Item, Tag};

/// The first lane.
const LANE: Lane = Lane {
    query: 0,
    level: 0,
    branch: 0,
};

/// A report of an item, of a partial row, and the end of window 0, in version 1: what two packets to 10.0.0.9 give in one slot of
/// a distinct and one of a reduce.
pub(crate) const REPORT: [u8; 64] = [
    1, 0, 0, 0, 0, 1, 2, 0, 0, 0, 0, 0, 10, 0, 0, 9, 0, 0, 0, 0, 10, 0, 0, 2, 1, 1, 0, 0, 0, 3, 2,
    0, 0, 0, 0, 0, 10, 0, 0, 9, 0, 0, 0, 0, 0, 0, 0, 1, 1, 2, 0, 0, 0, 0, 1, 0, 0, 0, 0, 0, 0, 0,
    0, 0,
];

/// The same in version 2.
pub(crate) const WIDE: [u8; 96] = [
    2, 0, 0, 0, 0, 1, 2, 0, 0, 0, 0, 0, 0, 0, 0, 0, 0, 0, 0, 0, 10, 0, 0, 9, 0, 0, 0, 0, 0, 0, 0,
    0, 0, 0, 0, 0, 10, 0, 0, 2, 2, 1, 0, 0, 0, 3, 2, 0, 0, 0, 0, 0, 0, 0, 0, 0, 0, 0, 0, 0, 10, 0,
    0, 9, 0, 0, 0, 0, 0, 0, 0, 0, 0, 0, 0, 0, 0, 0, 0, 1, 2, 2, 0, 0, 0, 0, 1, 0, 0, 0, 0, 0, 0, 0,
    0, 0,
];

/// A row of these columns.
fn columns(numbers: &[u128]) -> Row {
    Row::new(numbers).unwrap_or(Row::empty())
}

/// A frame of the first lane.
fn wide(tag: Tag, numbers: &[u128]) -> Frame<Row> {
    let row = columns(numbers);
    Frame::Row(LANE, Item { tag, row })
}

#[test]
fn reads_version_one(rt: HostRuntime) {
    let first = wide(Tag::At(1), &[0x0a000009, 0x0a000002]);
    let second = wide(Tag::Partial(3), &[0x0a000009, 1]);
    let end = Frame::End(LANE, 0);
    for (bytes, want) in [
        (&REPORT[..], Decoded::Whole(first, 24)),
        (&REPORT[24..], Decoded::Whole(second, 24)),
        (&REPORT[48..], Decoded::Whole(end, 16)),
        (&REPORT[..23], Decoded::More),
        (&[], Decoded::More),
        (&[1, 0, 0, 0, 0, 1, 2, 1], Decoded::Bad(7)),
        (&[3, 0], Decoded::Bad(0)),
    ] {
        assert_eq!(rt; decode(bytes), want);
    }
}

#[test]
fn reads_version_two(rt: HostRuntime) {
    let first = wide(Tag::At(1), &[0x0a000009, 0x0a000002]);
    let second = wide(Tag::Partial(3), &[0x0a000009, 1]);
    let end = Frame::End(LANE, 0);
    for (bytes, want) in [
        (&WIDE[..], Decoded::Whole(first, 40)),
        (&WIDE[40..], Decoded::Whole(second, 40)),
        (&WIDE[80..], Decoded::Whole(end, 16)),
        (&WIDE[..39], Decoded::More),
        (&[2, 9], Decoded::Bad(1)),
    ] {
        assert_eq!(rt; decode(bytes), want);
    }
}

#[test]
fn writes_version_two(rt: HostRuntime) {
    let mut bytes = [7; MOST_BYTES];
    let tag = Tag::Partial(3);
    let row = row(&[0x0a000009, 1]);
    let len = encode(&Frame::Row(LANE, Item { tag, row }), &mut bytes);
    assert_eq!(rt; &bytes[..len], &WIDE[40..80]);
    assert_eq!(rt; bytes[len], 7);
    let end: Frame<Row> = Frame::End(LANE, 0);
    let len = encode(&end, &mut bytes);
    assert_eq!(rt; &bytes[..len], &WIDE[80..]);
}

#[test]
fn writes_columns_of_128_bits(rt: HostRuntime) {
    let mut bytes = [7; MOST_BYTES];
    let top = u128::MAX;
    let tag = Tag::At(1);
    let row = columns(&[top, 1 << 64, 5, top, top, top, top, top - 1]);
    let len = encode(&Frame::Row(LANE, Item { tag, row }), &mut bytes);
    assert_eq!(rt; len, 136);
    let want = wide(tag, &[top, 1 << 64, 5, top, top, top, top, top - 1]);
    assert_eq!(rt; decode(&bytes[..len]), Decoded::Whole(want, 136));
}
