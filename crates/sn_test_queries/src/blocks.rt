//! Blocks and records of whole windows, and the lines after them.
ghost use Rattle.std.specs.Prelude.{◌<◌, ◌^◌};
ghost use Rattle.std.specs.List.{AllByRecursion};
ghost use Rattle.std.specs.Bool.{OnTrue};
ghost use Rattle.sn_base.specs.Columns.{IsOf};
ghost use Rattle.sn_out.specs.Text.{IsPartOf};

use crate::checked::typed;
use sn_base::column::Column;
use sn_base::seq::Seq;
use sn_base::short_row::ShortRow;
use sn_out::block::block;
use sn_out::csv_rows::{csv_rows, heading};
use sn_out::lines::{damage, total};
use sn_pcap::packet::Ending;
use sn_types::answers::{AnswerRows, Answers, EitherRows, Part};
use sn_types::typed::Typed;
use std::alloc::Global;

#[tactic(auto, using(sn_out::proofs::RowLemmas::below_power))]
fn is_below(number: u64, width: u32) -> bool
    ensures { OnTrue result (number < 2 ^ width) }
{
    width < 64 && number >> width == 0
}

fn is_of(columns: &[Column], numbers: &[u64]) -> bool
    ensures { OnTrue result (IsOf columns.now numbers.now) }
{
    match (columns, numbers) {
        ([], []) => true,
        ([column, columns @ ..], [number, numbers @ ..]) => {
            is_below(*number, column.width) && is_of(columns, numbers)
        }
        _ => false,
    }
}

fn are_of(columns: &[Column], rows: &[ShortRow]) -> bool
    ensures { OnTrue result (AllByRecursion (IsOf columns.now) rows.now) }
{
    match rows {
        [] => true,
        [row, rows @ ..] => is_of(columns, row.as_slice()) && are_of(columns, rows),
    }
}

fn are_short_of(columns: &[Column], rows: &AnswerRows) -> bool
    ensures { OnTrue result (AllByRecursion (IsOf columns.now) rows.now) }
{
    match rows.either() {
        EitherRows::Short(rows) => are_of(columns, rows.as_slice()),
        EitherRows::Wide(_) => false,
    }
}

fn is_part_of(t: &Typed, part: &Part) -> bool
    ensures { OnTrue result (IsPartOf t.now.queries part.now) }
{
    part.query < t.queries() && are_short_of(t.final_schema(part.query).as_slice(), &part.rows)
}

fn are_parts_of(t: &Typed, parts: &[Part]) -> bool
    ensures { OnTrue result (AllByRecursion (IsPartOf t.now.queries) parts.now) }
{
    match parts {
        [] => true,
        [part, parts @ ..] => is_part_of(t, part) && are_parts_of(t, parts),
    }
}

/// A window of a query, with the levels and rows of its parts.
#[derive(Clone, Copy)]
struct Window {
    queries: &'static [u8],
    number: u64,
    emitted: u64,
    parts: &'static [(u32, &'static [&'static [u64]])],
}

/// The rows of a level.
fn part(alloc: Global, level: u32, numbers: &[&[u64]]) -> Option<Part> {
    let mut rows = Seq::new(alloc);
    for row in numbers {
        rows.push(ShortRow::new(row)?).ok()?;
    }
    Some(Part {
        query: 0,
        level,
        rows: AnswerRows::of(EitherRows::Short(rows)),
    })
}

fn answers(alloc: Global, window: &Window) -> Option<Answers> {
    let mut parts = Seq::new(alloc);
    for (level, rows) in window.parts {
        parts.push(part(alloc, *level, rows)?).ok()?;
    }
    Some(Answers {
        window: window.number,
        emitted: window.emitted,
        parts,
    })
}

/// The block of a window.
fn shown(alloc: Global, window: &Window, counts: bool) -> Option<Seq<u8>> {
    let t = typed(alloc, window.queries)?;
    let answers = answers(alloc, window)?;
    if !are_parts_of(&t, answers.parts.as_slice()) {
        return None;
    }
    block(alloc, &t, &answers, counts).ok()
}

/// The records of a window.
fn records(alloc: Global, window: &Window) -> Option<Seq<u8>> {
    let t = typed(alloc, window.queries)?;
    let answers = answers(alloc, window)?;
    if !are_parts_of(&t, answers.parts.as_slice()) {
        return None;
    }
    csv_rows(alloc, &t, &answers).ok()
}

const PLAIN: &[u8] =
    b"window 1000000 query q { packets | map ip.dst as d, 1 as n | reduce d: sum(n) width 16; }";

const REFINED: &[u8] =
    b"window 1000000 query q { refine ip.dst: 8, 32; packets | map ip.dst as d, 1 as n | reduce d: sum(n) width 16 | filter n > 1; }";

const WIDE: &[u8] =
    b"window 1000000 query wide { packets | map ip.dst as a, ip.src as b, 1 as c, 2 as d, 3 as e, 4 as f, 5 as g, ip.ttl as h; }";

/// A window of a plain query that has no rows.
const NONE: Window = Window {
    queries: PLAIN,
    number: 7,
    emitted: 4,
    parts: &[(0, &[])],
};

/// Windows, whether the emitted tuples are counted, and the blocks that are wanted.
const BLOCKS: [(Window, bool, &[u8]); 3] = [
    (
        Window {
            queries: PLAIN,
            number: 0,
            emitted: 4,
            parts: &[(0, &[&[167772161, 2], &[167772162, 2], &[167772163, 1]])],
        },
        true,
        b"window 0 emitted 4\nquery q level 0 rows 3\n10.0.0.1 2\n10.0.0.2 2\n10.0.0.3 1\n",
    ),
    (
        Window {
            queries: REFINED,
            number: 1,
            emitted: 4,
            parts: &[(8, &[&[167772160, 2]]), (32, &[&[167772169, 2]])],
        },
        true,
        b"window 1 emitted 4\nquery q level 8 rows 1\n10.0.0.0 2\nquery q level 32 rows 1\n10.0.0.9 2\n",
    ),
    (NONE, false, b"window 7\nquery q level 0 rows 0\n"),
];

/// Windows, and the records that are wanted.
const RECORDS: [(Window, &[u8]); 3] = [
    (
        Window {
            queries: REFINED,
            number: 1,
            emitted: 4,
            parts: &[
                (8, &[&[167772160, 2], &[335544320, 3]]),
                (32, &[&[167772169, 2]]),
            ],
        },
        b"1,q,8,10.0.0.0,2,,,,,,\n1,q,8,20.0.0.0,3,,,,,,\n1,q,32,10.0.0.9,2,,,,,,\n",
    ),
    (
        Window {
            queries: WIDE,
            number: 18446744073709551615,
            emitted: 0,
            parts: &[(
                0,
                &[
                    &[4294967295, 0, 1, 2, 3, 4, 5, 64],
                    &[167772161, 167772169, 1, 2, 3, 4, 5, 255],
                ],
            )],
        },
        b"18446744073709551615,wide,0,255.255.255.255,0.0.0.0,1,2,3,4,5,64\n18446744073709551615,wide,0,10.0.0.1,10.0.0.9,1,2,3,4,5,255\n",
    ),
    (NONE, b""),
];

#[test]
fn prints_blocks(rt: HostRuntime) {
    for (window, counts, wanted) in BLOCKS {
        let text = shown(rt.alloc(), &window, counts).expect(&rt, "a block");
        assert_eq!(rt; text.as_slice(), wanted);
    }
}

#[test]
fn writes_records(rt: HostRuntime) {
    for (window, wanted) in RECORDS {
        let text = records(rt.alloc(), &window).expect(&rt, "records");
        assert_eq!(rt; text.as_slice(), wanted);
    }
}

#[test]
fn names_the_fields(rt: HostRuntime) {
    assert_eq!(rt;
        heading(),
        b"window,query,level,c1,c2,c3,c4,c5,c6,c7,c8\n".as_slice()
    );
}

#[test]
fn prints_the_last_lines(rt: HostRuntime) {
    let plain = total(rt.alloc(), 0, None);
    assert!(rt; plain.is_ok_and(|text| text.as_slice() == b"total windows 0\n".as_slice()));
    let counted = total(rt.alloc(), 2, Some(6));
    assert!(rt;
        counted.is_ok_and(|text| text.as_slice() == b"total windows 2 emitted 6\n".as_slice())
    );
}

#[test]
fn prints_damage(rt: HostRuntime) {
    let cut = damage(rt.alloc(), Ending::Cut(164));
    assert!(rt; cut.is_ok_and(|text| text.as_slice() == b"capture cut at byte 164\n".as_slice()));
    let bad = damage(rt.alloc(), Ending::Bad(164));
    assert!(rt; bad.is_ok_and(|text| text.as_slice() == b"capture bad at byte 164\n".as_slice()));
    let clean = damage(rt.alloc(), Ending::Clean);
    assert!(rt; clean.is_ok_and(|text| text.as_slice().is_empty()));
}
