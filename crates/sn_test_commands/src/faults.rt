//! Faults at every place: reads and writes that fail one after another, captures cut to each length, and trees and reports of which
//! each byte in turn is another one.
use crate::call::{Ran, call, call_to, file_of, put};
use sn_base::seq::Seq;
use sn_gen::capture::capture;
use sn_gen::job::{job_queries, job_switch};
use sn_io::mem_inputs::MemInputs;
use sn_io::mem_sink::MemSink;
use sn_test_inputs::forward::Forward;
use sn_test_inputs::packets::{HEADER, push_syns};
use sn_test_inputs::stalling::Stalling;
use sn_test_inputs::trouble::Trouble;
use std::alloc::Global;

const SYN: &str = "window 1000000\nquery q { packets | filter tcp.flags == 2; }\n";

/// Packets by destination, and by source.
const QUERIES: &str = "window 1000000\n\
    query a { packets | map ip.dst as d, 1 as n | reduce d: sum(n) width 8; }\n\
    query b { packets | map ip.src as s, 1 as n | reduce s: sum(n) width 8; }\n";

/// A switch with room for one of them.
const SWITCH: &str = "stages 2; actions 1; bits 41; meta 100; chain 1; slots 1;";

/// Five packets of one window.
const PACKETS: &str = "0 1 9, 1 1 9, 2 1 9, 3 2 9, 4 2 9";

/// The plan of least cost for them and its tree, by hand.
const TREE: &str =
    "plan\nquery a path 0;\npiece 0 0 cut 2 slots 1 stages 1;\nquery b path 0;\npiece 0 0 cut 0;\ncost 6;\ntree\n\
    E 4\nE 4\nB 8\nB 8\nE 4\nE 4\nE 4\nP 6\nB 6\nE 4\nX\ndone\n";

/// The answers along that plan, by hand.
const ANSWERS: &str =
    "window 0 emitted 6\nquery a level 0 rows 1\n10.0.0.9 5\nquery b level 0 rows 2\n10.0.0.1 3\n10.0.0.2 2\n\
    total windows 1 emitted 6\n";

/// A plan that leaves all work of a job to the engine, at the finest level.
const ENGINE_PLAN: &str =
    "plan query newconn path 32; piece 32 0 cut 0; query spread path 32; piece 32 0 cut 0; \
    query slow path 32; piece 32 0 cut 0; piece 32 1 cut 0;";

/// Destinations with more than one source.
const SPREAD: &str =
    "window 1000000 query q { packets | map ip.dst as d, ip.src as s | distinct | map d as d, 1 as n | reduce d: sum(n) width 16 | filter n > 1; }";

const SPREAD_PLAN: &str = "plan query q path 0; piece 0 0 cut 5 slots 1, 1 stages 1, 3;";

/// Reports of one window by that plan, in version 1: an item, a partial row, and the End.
const REPORTS: [u8; 64] = [
    1, 0, 0, 0, 0, 1, 2, 0, 0, 0, 0, 0, 10, 0, 0, 9, 0, 0, 0, 0, 10, 0, 0, 2, 1, 1, 0, 0, 0, 3, 2,
    0, 0, 0, 0, 0, 10, 0, 0, 9, 0, 0, 0, 0, 0, 0, 0, 1, 1, 2, 0, 0, 0, 0, 1, 0, 0, 0, 0, 0, 0, 0,
    0, 0,
];

/// How many reads or writes of a call are tried.
const MOST: u64 = 10_000;

/// A capture of these packets.
fn capture_of(alloc: Global, packets: &str) -> Result<Vec<u8>, Trouble> {
    let mut bytes = Vec::from_slice(alloc, &HEADER)?;
    push_syns(&mut bytes, packets)?;
    Ok(bytes)
}

/// The files `s`, `q`, `t` and `c` of `live`, and `p` of `check`.
pub(crate) fn live_files(alloc: Global) -> Result<MemInputs, Trouble> {
    let mut files = MemInputs::new(alloc);
    files.put("s", file_of(alloc, SWITCH.as_bytes())?)?;
    files.put("q", file_of(alloc, QUERIES.as_bytes())?)?;
    files.put("t", Seq::from_vec(capture_of(alloc, PACKETS)?))?;
    files.put("c", Seq::from_vec(capture_of(alloc, PACKETS)?))?;
    files.put("p", file_of(alloc, TREE.as_bytes())?)?;
    Ok(files)
}

/// What `live` writes.
fn live_text(alloc: Global) -> Result<String, Trouble> {
    let mut text = String::from_str(alloc, TREE)?;
    text.push_str(ANSWERS)?;
    Ok(text)
}

/// `live`, of which the read of this number fails.
fn live_with_a_failed_read(alloc: Global, number: u64) -> Result<Ran, Trouble> {
    let mut files = live_files(alloc)?;
    if number < MOST {
        files.fail_at(number)?;
    }
    let out = MemSink::new(alloc, 1000)?;
    call(alloc, "live s q t c", &mut files, out)
}

#[test]
fn tells_each_read_that_fails(rt: HostRuntime) {
    let alloc = rt.alloc();
    let text = live_text(alloc).expect(&rt, "ample memory");
    for number in 0..MOST {
        let ran = live_with_a_failed_read(alloc, number).expect(&rt, "ample memory");
        assert!(rt; text.as_bytes().starts_with(ran.out.bytes()));
        if ran.status == 0 {
            // Four files, each of them read at least twice: its bytes, and its end.
            assert!(rt; number >= 8);
            assert_eq!(rt; ran.out.bytes(), text.as_bytes());
            return;
        }
        assert_eq!(rt; ran.status, 9);
        assert_eq!(rt; ran.err.bytes(), b"sonata: read fault\n".as_slice());
    }
    assert!(rt; false);
}

/// What `run` writes of a generated capture, of which the read of this number fails, and the place in the capture where that read began.
fn run_with_a_failed_read(alloc: Global, number: u64) -> Result<(Ran, u64), Trouble> {
    let mut files = MemInputs::new(alloc);
    files.put("s", file_of(alloc, job_switch())?)?;
    files.put("q", file_of(alloc, job_queries())?)?;
    files.put("p", file_of(alloc, ENGINE_PLAN.as_bytes())?)?;
    files.put("c", capture(alloc, 7)?)?;
    if number < MOST {
        files.fail_at(number)?;
    }
    let mut files = Forward::new(files);
    let out = MemSink::new(alloc, 10_000)?;
    let ran = call(alloc, "run s q p c", &mut files, out)?;
    Ok((ran, files.next))
}

/// The place where the text of the third window begins.
fn third_window(text: &[u8]) -> Option<usize> {
    text.windows(10)
        .position(|front| front == b"\nwindow 2 ".as_slice())
}

#[test]
fn keeps_the_windows_before_a_failed_read(rt: HostRuntime) {
    let alloc = rt.alloc();
    let (whole, length) = run_with_a_failed_read(alloc, MOST).expect(&rt, "ample memory");
    assert_eq!(rt; whole.status, 0);
    // The header, and 20,000 records of 70 bytes.
    assert_eq!(rt; length, 1_400_024);
    let place = third_window(whole.out.bytes()).expect(&rt, "a third window");
    for number in 16..MOST {
        let (ran, start) = run_with_a_failed_read(alloc, number).expect(&rt, "ample memory");
        assert_eq!(rt; ran.status, 9);
        assert!(rt; whole.out.bytes().starts_with(ran.out.bytes()));
        if start >= 1_000_000 {
            // The windows of 5,000 packets each that stand before that byte.
            assert!(rt; ran.out.bytes().len() > place);
            return;
        }
    }
    assert!(rt; false);
}

#[test]
fn tells_each_write_that_fails(rt: HostRuntime) {
    let alloc = rt.alloc();
    let text = live_text(alloc).expect(&rt, "ample memory");
    for number in 0..MOST {
        let mut files = live_files(alloc).expect(&rt, "ample memory");
        let mut out = MemSink::new(alloc, 1000).expect(&rt, "ample memory");
        assert!(rt; out.fail_at(number).is_ok());
        let ran = call(alloc, "live s q t c", &mut files, out).expect(&rt, "ample memory");
        assert!(rt; text.as_bytes().starts_with(ran.out.bytes()));
        if ran.status == 0 {
            assert!(rt; number >= 1);
            assert_eq!(rt; ran.out.bytes(), text.as_bytes());
            return;
        }
        assert_eq!(rt; ran.status, 10);
        assert_eq!(rt; ran.err.bytes(), b"sonata: write fault\n".as_slice());
    }
    assert!(rt; false);
}

#[test]
fn tells_each_write_that_takes_nothing(rt: HostRuntime) {
    let alloc = rt.alloc();
    let text = live_text(alloc).expect(&rt, "ample memory");
    for number in 0..MOST {
        let mut files = live_files(alloc).expect(&rt, "ample memory");
        let mut out = Stalling::new(
            MemSink::new(alloc, 1000).expect(&rt, "ample memory"),
            number,
        );
        let mut err = MemSink::new(alloc, 1000).expect(&rt, "ample memory");
        let status = call_to(alloc, "live s q t c", &mut files, &mut out, &mut err).expect(
            &rt,
            "ample memory",
        );
        assert!(rt; text.as_bytes().starts_with(out.bytes()));
        if status == 0 {
            assert!(rt; number >= 1);
            assert_eq!(rt; out.bytes(), text.as_bytes());
            return;
        }
        assert_eq!(rt; status, 10);
        assert_eq!(rt; err.bytes(), b"sonata: write fault\n".as_slice());
    }
    assert!(rt; false);
}

#[test]
fn keeps_the_status_where_the_line_fails(rt: HostRuntime) {
    let alloc = rt.alloc();
    let mut files = MemInputs::new(alloc);
    put(&rt, alloc, &mut files, "q", SYN.as_bytes());
    put(&rt, alloc, &mut files, "c", b"");
    let mut out = MemSink::new(alloc, 1000).expect(&rt, "ample memory");
    let mut err = MemSink::new(alloc, 1000).expect(&rt, "ample memory");
    assert!(rt; err.fail_at(0).is_ok());
    let status = call_to(alloc, "plain q c", &mut files, &mut out, &mut err).expect(
        &rt,
        "ample memory",
    );
    assert_eq!(rt; status, 5);
    assert_eq!(rt; out.bytes(), b"".as_slice());
    assert_eq!(rt; err.bytes(), b"".as_slice());
}

/// `plain` over a capture of these bytes.
fn plain_of(alloc: Global, bytes: Vec<u8>) -> Result<Ran, Trouble> {
    let mut files = MemInputs::new(alloc);
    files.put("q", file_of(alloc, SYN.as_bytes())?)?;
    files.put("c", Seq::from_vec(bytes))?;
    let out = MemSink::new(alloc, 1000)?;
    call(alloc, "plain q c", &mut files, out)
}

/// What `plain` writes of so many packets of one window, and where the capture is damaged, if it is.
fn plain_text(alloc: Global, packets: usize, damage: Option<usize>) -> Result<String, Trouble> {
    let mut text = String::new(alloc);
    if packets > 0 {
        text.push_str(format!(in alloc; "window 0\nquery q level 0 rows {packets}\n")?.as_str())?;
    }
    for _ in 0..packets {
        text.push_str("2\n")?;
    }
    if let Some(byte) = damage {
        text.push_str(format!(in alloc; "capture cut at byte {byte}\n")?.as_str())?;
    }
    let windows = packets.min(1);
    text.push_str(format!(in alloc; "total windows {windows}\n")?.as_str())?;
    Ok(text)
}

#[test]
fn reads_a_capture_of_each_length(rt: HostRuntime) {
    let alloc = rt.alloc();
    // A header of 24 bytes, and three records of 70.
    let whole = capture_of(alloc, "0 1 9, 1 1 9, 2 1 9").expect(&rt, "ample memory");
    assert_eq!(rt; whole.len(), 234);
    for length in 0..235usize {
        let mut bytes = Vec::from_slice(alloc, whole.as_slice()).expect(&rt, "ample memory");
        bytes.truncate(length);
        let ran = plain_of(alloc, bytes).expect(&rt, "ample memory");
        if length < 24 {
            assert_eq!(rt; ran.status, 5);
            assert_eq!(rt; ran.out.bytes(), b"".as_slice());
            assert_eq!(rt;
                ran.err.bytes(),
                b"sonata: capture Short byte 0\n".as_slice()
            );
            continue;
        }
        let packets = (length - 24) / 70;
        let start = 24 + packets * 70;
        let (status, damage) = if length == start {
            (0, None)
        } else {
            (5, Some(start))
        };
        assert_eq!(rt; ran.status, status);
        assert_eq!(rt;
            ran.out.bytes(),
            plain_text(alloc, packets, damage)
                .expect(&rt, "ample memory")
                .as_bytes()
        );
    }
}

/// A capture of one record, which says that so many bytes were captured, and has so many zeros.
fn first_record(alloc: Global, length: u32, bytes: usize) -> Result<Vec<u8>, Trouble> {
    let mut capture = Vec::from_slice(alloc, &HEADER)?;
    for number in [1, 0, length, 54] {
        capture.extend_from_slice(&number.to_le_bytes())?;
    }
    for _ in 0..bytes {
        capture.push(0)?;
    }
    Ok(capture)
}

#[test]
fn looks_at_the_length_of_a_record(rt: HostRuntime) {
    let alloc = rt.alloc();
    let empty = plain_of(alloc, first_record(alloc, 0, 0).expect(&rt, "ample memory")).expect(
        &rt,
        "ample memory",
    );
    assert_eq!(rt; empty.status, 0);
    assert_eq!(rt;
        empty.out.bytes(),
        b"window 0\nquery q level 0 rows 0\ntotal windows 1\n".as_slice()
    );
    let cut = plain_of(
        alloc,
        first_record(alloc, 262_144, 54).expect(&rt, "ample memory"),
    )
    .expect(&rt, "ample memory");
    assert_eq!(rt; cut.status, 5);
    assert_eq!(rt;
        cut.err.bytes(),
        b"sonata: capture Cut byte 24\n".as_slice()
    );
    for length in [262_145, u32::MAX] {
        let bad = plain_of(
            alloc,
            first_record(alloc, length, 54).expect(&rt, "ample memory"),
        )
        .expect(&rt, "ample memory");
        assert_eq!(rt; bad.status, 5);
        assert_eq!(rt;
            bad.err.bytes(),
            b"sonata: capture Bad byte 24\n".as_slice()
        );
    }
}

#[test]
fn refuses_a_tree_of_which_any_byte_is_another(rt: HostRuntime) {
    let alloc = rt.alloc();
    let mut files = live_files(alloc).expect(&rt, "ample memory");
    let out = MemSink::new(alloc, 1000).expect(&rt, "ample memory");
    let right = call(alloc, "check s q t p", &mut files, out).expect(&rt, "ample memory");
    assert_eq!(rt; right.status, 0);
    assert_eq!(rt; right.out.bytes(), b"yes cost 6 nodes 11\n".as_slice());
    for (place, byte) in TREE.bytes().enumerate() {
        if byte == b'9' {
            continue;
        }
        let mut tree = Vec::from_slice(alloc, TREE.as_bytes()).expect(&rt, "ample memory");
        if let Some(other) = tree.get_mut(place) {
            *other = b'9';
        }
        assert!(rt; files.put("p", Seq::from_vec(tree)).is_ok());
        let out = MemSink::new(alloc, 1000).expect(&rt, "ample memory");
        let ran = call(alloc, "check s q t p", &mut files, out).expect(&rt, "ample memory");
        assert!(rt; ran.status == 6 || ran.status == 7);
    }
}

/// `finish` over the reports, of which the lowest bit of this byte is another.
fn finish_with_another_bit(alloc: Global, place: usize) -> Result<Ran, Trouble> {
    let mut reports = REPORTS;
    if let Some(byte) = reports.get_mut(place) {
        *byte ^= 1;
    }
    let mut files = MemInputs::new(alloc);
    files.put("q", file_of(alloc, SPREAD.as_bytes())?)?;
    files.put("p", file_of(alloc, SPREAD_PLAN.as_bytes())?)?;
    files.put("r", file_of(alloc, &reports)?)?;
    let out = MemSink::new(alloc, 1000)?;
    call(alloc, "finish q p r", &mut files, out)
}

#[test]
fn answers_reports_of_which_any_bit_is_another(rt: HostRuntime) {
    let alloc = rt.alloc();
    for place in 0..REPORTS.len() {
        let ran = finish_with_another_bit(alloc, place).expect(&rt, "ample memory");
        // The bytes of the columns' values, and of the End's window.
        let status = match place {
            12..=15 | 20..=23 | 25 | 36..=39 | 46 | 47 | 56..=63 => 0,
            _ => 11,
        };
        assert_eq!(rt; ran.status, status);
    }
    for (place, line) in [
        (0, "sonata: reports Bad byte 0\n"),
        (6, "sonata: reports Width byte 0\n"),
        (24, "sonata: reports Bad byte 24\n"),
        (29, "sonata: reports Stranger byte 24\n"),
        (48, "sonata: reports Bad byte 48\n"),
        (53, "sonata: reports Bad byte 53\n"),
    ] {
        let ran = finish_with_another_bit(alloc, place).expect(&rt, "ample memory");
        assert_eq!(rt; ran.err.bytes(), line.as_bytes());
    }
}

/// The block of the one window of the reports, by hand.
const BLOCK: &str = "window 0 emitted 2\nquery q level 0 rows 1\n10.0.0.9 2\n";

/// `finish` over the reports, of which the read of this number fails.
fn finish_with_a_failed_read(alloc: Global, number: u32) -> Result<Ran, Trouble> {
    let mut files = MemInputs::new(alloc);
    files.put("q", file_of(alloc, SPREAD.as_bytes())?)?;
    files.put("p", file_of(alloc, SPREAD_PLAN.as_bytes())?)?;
    files.put("r", file_of(alloc, &REPORTS)?)?;
    files.fail_at(u64::from(number))?;
    let out = MemSink::new(alloc, 1000)?;
    call(alloc, "finish q p r", &mut files, out)
}

#[test]
fn writes_the_blocks_before_a_failed_read_of_reports(rt: HostRuntime) {
    let alloc = rt.alloc();
    // Each text is read twice: its bytes, and its end. The fifth read is that of the reports' bytes, the sixth that of their end.
    for (number, text) in [(4, ""), (5, BLOCK)] {
        let ran = finish_with_a_failed_read(alloc, number).expect(&rt, "ample memory");
        assert_eq!(rt; ran.status, 9);
        assert_eq!(rt; ran.out.bytes(), text.as_bytes());
        assert_eq!(rt; ran.err.bytes(), b"sonata: read fault\n".as_slice());
    }
}
