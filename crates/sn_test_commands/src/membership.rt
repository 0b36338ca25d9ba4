//! What a switch sends whose table of prefixes is too small for them, and what is made of it.
//!
//! The rows are worked by hand. In window 0 two packets each come to 10.0.0.9 and 10.0.0.20, in window 1 to 10.0.0.9 and
//! 10.0.0.40: three prefixes of 28 bits. Of window 0 level 28 answers 10.0.0.0 and 10.0.0.16, so of window 1 level 32
//! answers 10.0.0.9 alone, whether the packets to 10.0.0.40 pass or not.
use crate::call::{call, put};
use sn_base::seq::Seq;
use sn_io::mem_inputs::MemInputs;
use sn_io::mem_sink::MemSink;
use sn_test_inputs::packets::{HEADER, push_syns};

/// Destinations with more than one source.
const SPREAD: &str =
    "window 1000000 query q { refine ip.dst: 28, 32; packets | map ip.dst as d, ip.src as s | distinct | map d as d, 1 as n | reduce d: sum(n) width 16 | filter n > 1; }";

const SWITCH: &str = "stages 5; actions 2; bits 1000; meta 1000; chain 1; slots 1; entries 1;";

const PLAN: &str =
    "plan query q path 28, 32; piece 28 0 cut 0; piece 32 0 cut 4 slots 1, 1 stages 2, 4;";

/// In window 1 a row of each address overflows, and a part of the other one's sum goes up.
const PACKETS: &str =
    "0 1 9, 1 2 9, 2 1 20, 3 2 20, 1000000 1 40, 1000001 2 40, 1000002 1 9, 1000003 2 9";

const ANSWERS: &[u8] = b"window 0 emitted 4
query q level 28 rows 2
10.0.0.0 2
10.0.0.16 2
query q level 32 rows 0
window 1 emitted 8
query q level 28 rows 2
10.0.0.0 2
10.0.0.32 2
query q level 32 rows 1
10.0.0.9 2
total windows 2 emitted 12
";

#[test]
fn finishes_what_an_open_table_sends(rt: HostRuntime) {
    let alloc = rt.alloc();
    let mut capture = Vec::from_slice(alloc, &HEADER).expect(&rt, "ample memory");
    assert!(rt; push_syns(&mut capture, PACKETS).is_ok());
    let mut files = MemInputs::new(alloc);
    put(&rt, alloc, &mut files, "s", SWITCH.as_bytes());
    put(&rt, alloc, &mut files, "q", SPREAD.as_bytes());
    put(&rt, alloc, &mut files, "p", PLAN.as_bytes());
    assert!(rt; files.put("c", Seq::from_vec(capture)).is_ok());
    let emitted = call(
        alloc,
        "emit s q p c",
        &mut files,
        MemSink::new(alloc, 1000).expect(&rt, "ample memory"),
    )
    .expect(&rt, "ample memory");
    assert_eq!(rt; emitted.status, 0);
    put(&rt, alloc, &mut files, "r", emitted.out.bytes());
    for line in ["run s q p c", "finish q p r"] {
        let ran = call(
            alloc,
            line,
            &mut files,
            MemSink::new(alloc, 1000).expect(&rt, "ample memory"),
        )
        .expect(&rt, "ample memory");
        assert_eq!(rt; ran.status, 0);
        assert_eq!(rt; ran.out.bytes(), ANSWERS);
    }
}
