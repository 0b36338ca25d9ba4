//! Calls that a table of texts can't tell: writes that fail, bytes that are no text, large texts, files that give
//! one byte at a call, and files that are read from front to back.
use crate::call::{call, file_of, put};
use sn_base::seq::Seq;
use sn_io::mem_inputs::MemInputs;
use sn_io::mem_sink::MemSink;
use sn_test_inputs::forward::Forward;
use sn_test_inputs::packets::{HEADER, push_syns};
use sn_test_inputs::slow::Slow;
use sn_test_inputs::trouble::Trouble;
use std::alloc::Global;

const SYN: &str = "window 1000000\nquery q { packets | filter tcp.flags == 2; }\n";

/// Destinations with more than one source, on a switch and by a plan with one slot in each register.
const SPREAD: &str =
    "window 1000000 query q { packets | map ip.dst as d, ip.src as s | distinct | map d as d, 1 as n | reduce d: sum(n) width 16 | filter n > 1; }";

const SWITCH: &str = "stages 5; actions 2; bits 1000; meta 1000; chain 1; slots 1;";

const PLAN: &str = "plan query q path 0; piece 0 0 cut 5 slots 1, 1 stages 1, 3;";

/// Reports of one window by that plan: an item, a partial row, and the End.
const REPORTS: [u8; 96] = [
    2, 0, 0, 0, 0, 1, 2, 0, 0, 0, 0, 0, 0, 0, 0, 0, 0, 0, 0, 0, 10, 0, 0, 9, 0, 0, 0, 0, 0, 0, 0,
    0, 0, 0, 0, 0, 10, 0, 0, 2, 2, 1, 0, 0, 0, 3, 2, 0, 0, 0, 0, 0, 0, 0, 0, 0, 0, 0, 0, 0, 10, 0,
    0, 9, 0, 0, 0, 0, 0, 0, 0, 0, 0, 0, 0, 0, 0, 0, 0, 1, 2, 2, 0, 0, 0, 0, 1, 0, 0, 0, 0, 0, 0, 0,
    0, 0,
];

/// The same in version 1.
const FIRST_REPORTS: [u8; 64] = [
    1, 0, 0, 0, 0, 1, 2, 0, 0, 0, 0, 0, 10, 0, 0, 9, 0, 0, 0, 0, 10, 0, 0, 2, 1, 1, 0, 0, 0, 3, 2,
    0, 0, 0, 0, 0, 10, 0, 0, 9, 0, 0, 0, 0, 0, 0, 0, 1, 1, 2, 0, 0, 0, 0, 1, 0, 0, 0, 0, 0, 0, 0,
    0, 0,
];

/// The front of a job's text, by hand: 20,000 packets in the four windows of a second that the generated captures have.
const JOB_FRONT: &[u8] = b"job 7 packets 20000 windows 4\ncost ";

/// The last lines of a job, by hand: one server has 500 new connections, of 500 sources, and another 25,000 connections
/// for each million bytes.
const JOB_LAST: &[u8] =
    b"query newconn rows 1\n10.1.2.3 500\nquery spread rows 1\n10.1.2.3 500\nquery slow rows 1\n10.9.8.7 25000\n";

/// The files `q` and `c` of a query and of three packets, at 0, 1 and 2 microseconds after one second, of which so many
/// bytes are there.
fn syn_files(alloc: Global, most: usize) -> Result<MemInputs, Trouble> {
    let mut capture = Vec::from_slice(alloc, &HEADER)?;
    push_syns(&mut capture, "0 1 9, 1 1 9, 2 1 9")?;
    capture.truncate(most);
    let mut files = MemInputs::new(alloc);
    files.put("q", file_of(alloc, SYN.as_bytes())?)?;
    files.put("c", Seq::from_vec(capture))?;
    Ok(files)
}

/// The files `s`, `q`, `p` and `c` of the plan, with two packets.
fn spread_files(alloc: Global) -> Result<MemInputs, Trouble> {
    let mut capture = Vec::from_slice(alloc, &HEADER)?;
    push_syns(&mut capture, "0 1 9, 1 2 9")?;
    let mut files = MemInputs::new(alloc);
    files.put("s", file_of(alloc, SWITCH.as_bytes())?)?;
    files.put("q", file_of(alloc, SPREAD.as_bytes())?)?;
    files.put("p", file_of(alloc, PLAN.as_bytes())?)?;
    files.put("c", Seq::from_vec(capture))?;
    Ok(files)
}

#[test]
fn tells_that_a_write_failed(rt: HostRuntime) {
    let alloc = rt.alloc();
    let mut files = syn_files(alloc, 1000).expect(&rt, "ample memory");
    let mut out = MemSink::new(alloc, 1000).expect(&rt, "ample memory");
    assert!(rt; out.fail_at(0).is_ok());
    let failed = call(alloc, "plain q c", &mut files, out).expect(&rt, "ample memory");
    assert_eq!(rt; failed.status, 10);
    assert_eq!(rt; failed.out.bytes(), b"".as_slice());
    assert_eq!(rt; failed.err.bytes(), b"sonata: write fault\n".as_slice());
}

#[test]
fn generates_a_capture(rt: HostRuntime) {
    let alloc = rt.alloc();
    let mut files = MemInputs::new(alloc);
    let out = MemSink::new(alloc, 1400024).expect(&rt, "ample memory");
    let ran = call(alloc, "gen 0000000007", &mut files, out).expect(&rt, "ample memory");
    assert_eq!(rt; ran.status, 0);
    assert_eq!(rt; ran.out.bytes().len(), 1400024);
    assert!(rt; ran.out.bytes().starts_with(&HEADER));
    assert_eq!(rt; ran.err.bytes(), b"".as_slice());
    let out = MemSink::new(alloc, 100).expect(&rt, "ample memory");
    let full = call(alloc, "gen 7", &mut files, out).expect(&rt, "ample memory");
    assert_eq!(rt; full.status, 10);
    assert_eq!(rt; full.err.bytes(), b"sonata: write fault\n".as_slice());
}

#[test]
fn sums_up_a_job(rt: HostRuntime) {
    let alloc = rt.alloc();
    let mut files = MemInputs::new(alloc);
    let out = MemSink::new(alloc, 1000).expect(&rt, "ample memory");
    let ran = call(alloc, "job 7", &mut files, out).expect(&rt, "ample memory");
    assert_eq!(rt; ran.status, 0);
    assert!(rt; ran.out.bytes().starts_with(JOB_FRONT));
    assert!(rt; ran.out.bytes().ends_with(JOB_LAST));
}

#[test]
fn finishes_what_it_emits(rt: HostRuntime) {
    let alloc = rt.alloc();
    let mut files = spread_files(alloc).expect(&rt, "ample memory");
    let out = MemSink::new(alloc, 1000).expect(&rt, "ample memory");
    let emitted = call(alloc, "emit s q p c", &mut files, out).expect(&rt, "ample memory");
    assert_eq!(rt; emitted.status, 0);
    assert_eq!(rt; emitted.out.bytes(), &REPORTS[..]);
    put(&rt, alloc, &mut files, "r", emitted.out.bytes());
    let out = MemSink::new(alloc, 1000).expect(&rt, "ample memory");
    let finished = call(alloc, "finish q p r", &mut files, out).expect(&rt, "ample memory");
    assert_eq!(rt; finished.status, 0);
    assert_eq!(rt;
        finished.out.bytes(),
        b"window 0 emitted 2\nquery q level 0 rows 1\n10.0.0.9 2\ntotal windows 1 emitted 2\n".as_slice()
    );
}

#[test]
fn finishes_reports_of_version_one(rt: HostRuntime) {
    let alloc = rt.alloc();
    let mut files = spread_files(alloc).expect(&rt, "ample memory");
    put(&rt, alloc, &mut files, "r", &FIRST_REPORTS);
    let out = MemSink::new(alloc, 1000).expect(&rt, "ample memory");
    let finished = call(alloc, "finish q p r", &mut files, out).expect(&rt, "ample memory");
    assert_eq!(rt; finished.status, 0);
    assert_eq!(rt;
        finished.out.bytes(),
        b"window 0 emitted 2\nquery q level 0 rows 1\n10.0.0.9 2\ntotal windows 1 emitted 2\n".as_slice()
    );
}

#[test]
fn answers_a_capture_that_comes_byte_by_byte(rt: HostRuntime) {
    let alloc = rt.alloc();
    let files = syn_files(alloc, 233).expect(&rt, "ample memory");
    let mut slow = Slow { files, most: 1 };
    let out = MemSink::new(alloc, 1000).expect(&rt, "ample memory");
    let ran = call(alloc, "plain q c", &mut slow, out).expect(&rt, "ample memory");
    assert_eq!(rt; ran.status, 5);
    assert_eq!(rt;
        ran.out.bytes(),
        b"window 0\nquery q level 0 rows 2\n2\n2\ncapture cut at byte 164\ntotal windows 1\n".as_slice()
    );
    assert_eq!(rt;
        ran.err.bytes(),
        b"sonata: capture Cut byte 164\n".as_slice()
    );
}

/// Whether a call of this line, over a capture of 5,000 packets, which is read in six pieces, ends with 0 and reads each
/// byte of the capture once, from front to back.
fn reads_forward(alloc: Global, line: &str) -> Result<bool, Trouble> {
    let mut capture = Vec::from_slice(alloc, &HEADER)?;
    for _ in 0..5000 {
        push_syns(&mut capture, "0 1 9")?;
    }
    let length = capture.len() as u64;
    let mut files = spread_files(alloc)?;
    files.put("c", Seq::from_vec(capture))?;
    let mut forward = Forward::new(files);
    let out = MemSink::new(alloc, 1000)?;
    let ran = call(alloc, line, &mut forward, out)?;
    Ok(ran.status == 0 && !forward.strayed && forward.next == length)
}

#[test]
fn reads_a_capture_from_front_to_back(rt: HostRuntime) {
    let alloc = rt.alloc();
    assert!(rt; reads_forward(alloc, "plain q c").expect(&rt, "ample memory"));
    assert!(rt; reads_forward(alloc, "run s q p c").expect(&rt, "ample memory"));
    assert!(rt; reads_forward(alloc, "emit s q p c").expect(&rt, "ample memory"));
}
