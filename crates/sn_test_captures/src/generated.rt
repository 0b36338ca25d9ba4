//! Captures that are made from a number, and the texts of a job over them.
use sn_gen::capture::capture;
use sn_gen::frame::push_record;
use sn_gen::job::{job_queries, job_switch};
use sn_gen::packet::Packet;
use sn_gen::segment::Segment;

#[test]
fn writes_the_bytes_of_a_frame(rt: HostRuntime) {
    let segment = Segment {
        source: 0x0a000001,
        destination: 0x0a000009,
        source_port: 1024,
        destination_port: 80,
        flags: 2,
        length: 40,
    };
    let packet = Packet {
        second: 1,
        microsecond: 0,
        segment,
    };
    let record: [u8; 70] = [
        1, 0, 0, 0, 0, 0, 0, 0, 54, 0, 0, 0, 54, 0, 0, 0, 2, 0, 0, 0, 0, 2, 2, 0, 0, 0, 0, 1, 8, 0,
        69, 0, 0, 40, 0, 0, 0, 0, 64, 6, 0, 0, 10, 0, 0, 1, 10, 0, 0, 9, 4, 0, 0, 80, 0, 0, 0, 0,
        0, 0, 0, 0, 80, 2, 0, 0, 0, 0, 0, 0,
    ];
    let mut file = Vec::new(rt.alloc());
    assert_eq!(rt; push_record(&mut file, &packet), Ok(()));
    assert_eq!(rt; file.as_slice(), record.as_slice());
}

/// The record of packet `i`.
fn record_of(file: &[u8], i: usize) -> &[u8] {
    if i < 20000 && file.len() == 1400024 {
        &file[24 + 70 * i..24 + 70 * i + 70]
    } else {
        &[]
    }
}

/// Records that a script in Python wrote, which knows nothing of what is tried, by their places in the capture of 7.
const RECORDS: [(usize, [u8; 70]); 8] = [
    (
        0,
        [
            1, 0, 0, 0, 0, 0, 0, 0, 54, 0, 0, 0, 74, 0, 0, 0, 2, 0, 0, 0, 0, 2, 2, 0, 0, 0, 0, 1,
            8, 0, 69, 0, 0, 60, 0, 0, 0, 0, 64, 6, 0, 0, 172, 16, 0, 0, 10, 1, 2, 3, 4, 0, 0, 80,
            0, 0, 0, 0, 0, 0, 0, 0, 80, 2, 0, 0, 0, 0, 0, 0,
        ],
    ),
    (
        1,
        [
            1, 0, 0, 0, 200, 0, 0, 0, 54, 0, 0, 0, 54, 0, 0, 0, 2, 0, 0, 0, 0, 2, 2, 0, 0, 0, 0, 1,
            8, 0, 69, 0, 0, 40, 0, 0, 0, 0, 64, 6, 0, 0, 192, 168, 0, 1, 10, 9, 8, 7, 8, 0, 0, 80,
            0, 0, 0, 0, 0, 0, 0, 0, 80, 16, 0, 0, 0, 0, 0, 0,
        ],
    ),
    (
        2,
        [
            1, 0, 0, 0, 144, 1, 0, 0, 54, 0, 0, 0, 30, 4, 0, 0, 2, 0, 0, 0, 0, 2, 2, 0, 0, 0, 0, 1,
            8, 0, 69, 0, 4, 16, 0, 0, 0, 0, 64, 6, 0, 0, 30, 0, 0, 16, 20, 0, 6, 3, 16, 211, 1,
            187, 0, 0, 0, 0, 0, 0, 0, 0, 80, 16, 0, 0, 0, 0, 0, 0,
        ],
    ),
    (
        3,
        [
            1, 0, 0, 0, 88, 2, 0, 0, 54, 0, 0, 0, 30, 4, 0, 0, 2, 0, 0, 0, 0, 2, 2, 0, 0, 0, 0, 1,
            8, 0, 69, 0, 4, 16, 0, 0, 0, 0, 64, 6, 0, 0, 30, 0, 0, 2, 20, 0, 1, 6, 17, 185, 1, 187,
            0, 0, 0, 0, 0, 0, 0, 0, 80, 16, 0, 0, 0, 0, 0, 0,
        ],
    ),
    (
        2570,
        [
            1, 0, 0, 0, 208, 215, 7, 0, 54, 0, 0, 0, 74, 0, 0, 0, 2, 0, 0, 0, 0, 2, 2, 0, 0, 0, 0,
            1, 8, 0, 69, 0, 0, 60, 0, 0, 0, 0, 64, 6, 0, 0, 172, 16, 1, 1, 10, 1, 2, 3, 5, 1, 0,
            80, 0, 0, 0, 0, 0, 0, 0, 0, 80, 2, 0, 0, 0, 0, 0, 0,
        ],
    ),
    (
        4999,
        [
            1, 0, 0, 0, 120, 65, 15, 0, 54, 0, 0, 0, 30, 4, 0, 0, 2, 0, 0, 0, 0, 2, 2, 0, 0, 0, 0,
            1, 8, 0, 69, 0, 4, 16, 0, 0, 0, 0, 64, 6, 0, 0, 30, 0, 0, 15, 20, 0, 6, 7, 16, 162, 1,
            187, 0, 0, 0, 0, 0, 0, 0, 0, 80, 16, 0, 0, 0, 0, 0, 0,
        ],
    ),
    (
        5002,
        [
            2, 0, 0, 0, 144, 1, 0, 0, 54, 0, 0, 0, 30, 4, 0, 0, 2, 0, 0, 0, 0, 2, 2, 0, 0, 0, 0, 1,
            8, 0, 69, 0, 4, 16, 0, 0, 0, 0, 64, 6, 0, 0, 30, 0, 0, 7, 20, 0, 5, 7, 19, 144, 1, 187,
            0, 0, 0, 0, 0, 0, 0, 0, 80, 16, 0, 0, 0, 0, 0, 0,
        ],
    ),
    (
        19999,
        [
            4, 0, 0, 0, 120, 65, 15, 0, 54, 0, 0, 0, 30, 4, 0, 0, 2, 0, 0, 0, 0, 2, 2, 0, 0, 0, 0,
            1, 8, 0, 69, 0, 4, 16, 0, 0, 0, 0, 64, 6, 0, 0, 30, 0, 0, 11, 20, 0, 6, 5, 16, 220, 1,
            187, 0, 0, 0, 0, 0, 0, 0, 0, 80, 16, 0, 0, 0, 0, 0, 0,
        ],
    ),
];

#[test]
fn has_the_records_of_a_script(rt: HostRuntime) {
    let file = capture(rt.alloc(), 7).expect(&rt, "ample memory");
    assert_eq!(rt; file.as_slice().len(), 1400024);
    assert_eq!(rt;
        &file.as_slice()[..24],
        b"\xd4\xc3\xb2\xa1\x02\0\x04\0\0\0\0\0\0\0\0\0\0\0\x04\0\x01\0\0\0".as_slice()
    );
    for (i, record) in &RECORDS {
        assert_eq!(rt; record_of(file.as_slice(), *i), record.as_slice());
    }
}

#[test]
fn takes_numbers_of_more_than_32_bits(rt: HostRuntime) {
    let file = capture(rt.alloc(), 4294967296).expect(&rt, "ample memory");
    let record: [u8; 70] = [
        1, 0, 0, 0, 144, 1, 0, 0, 54, 0, 0, 0, 30, 4, 0, 0, 2, 0, 0, 0, 0, 2, 2, 0, 0, 0, 0, 1, 8,
        0, 69, 0, 4, 16, 0, 0, 0, 0, 64, 6, 0, 0, 30, 0, 0, 14, 20, 0, 5, 2, 16, 223, 1, 187, 0, 0,
        0, 0, 0, 0, 0, 0, 80, 16, 0, 0, 0, 0, 0, 0,
    ];
    assert_eq!(rt; record_of(file.as_slice(), 2), record.as_slice());
}

/// The switch of all jobs, as the format's definition has it.
const JOB_SWITCH: &[u8] =
    b"stages 16; actions 8; bits 8388608; meta 4096; chain 2; slots 256, 1024, 4096;\n";

/// The queries of all jobs, as the format's definition has them.
const JOB_QUERIES: &[u8] = b"window 1000000
query newconn {
  refine ip.dst: 8, 16, 32;
  packets
    | filter tcp.flags == 2
    | map ip.dst as d, 1 as n
    | reduce d: sum(n) width 32
    | filter n > 400;
}
query spread {
  refine ip.dst: 8, 16, 32;
  packets
    | filter ip.valid == 1
    | map ip.dst as d, ip.src as s
    | distinct
    | map d as d, 1 as n
    | reduce d: sum(n) width 32
    | filter n > 300;
}
query slow {
  refine ip.dst: 8, 16, 32;
  packets
    | filter tcp.valid == 1
    | map ip.dst as d, ip.src as s, tcp.sport as p
    | distinct
    | map d as d, 1 as conns
    | reduce d: sum(conns) width 32;
  packets
    | filter tcp.valid == 1
    | map ip.dst as d, ip.len as total
    | reduce d: sum(total) width 48;
  join d
    | map d as d, conns * 1000000 / total as ratio
    | filter ratio > 20000 at (8: 1000, 16: 1000);
}
";

#[test]
fn states_the_texts_of_a_job(rt: HostRuntime) {
    assert_eq!(rt; job_switch(), JOB_SWITCH);
    assert_eq!(rt; job_queries(), JOB_QUERIES);
}
