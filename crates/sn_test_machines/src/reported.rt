//! What the top call prints by such a machine.

use crate::twist::Twist;
use sn_base::memory::Memory;
use sn_base::seq::Seq;
use sn_io::mem_inputs::MemInputs;
use sn_io::mem_sink::MemSink;
use sn_top::top::top;
use std::alloc::Global;
use std::process::Abort;

/// Little-endian microseconds, Ethernet.
const HEADER: [u8; 24] = [
    0xd4, 0xc3, 0xb2, 0xa1, 2, 0, 4, 0, 0, 0, 0, 0, 0, 0, 0, 0, 0, 0, 4, 0, 1, 0, 0, 0,
];

/// A record of 54 bytes at one second.
const RECORD: [u8; 16] = [1, 0, 0, 0, 0, 0, 0, 0, 54, 0, 0, 0, 54, 0, 0, 0];

/// A TCP SYN from 10.0.0.1 to 10.0.0.0.
const FRAME: [u8; 54] = [
    2, 0, 0, 0, 0, 2, 2, 0, 0, 0, 0, 1, 8, 0, //
    0x45, 0, 0, 0x28, 0, 0, 0, 0, 0x40, 6, 0, 0, 10, 0, 0, 1, 10, 0, 0, 0, //
    4, 0, 0, 0x50, 0, 0, 0, 0, 0, 0, 0, 0, 0x50, 2, 0, 0, 0, 0, 0, 0,
];

const SWITCH: &[u8] = b"stages 4; actions 2; bits 1000; meta 1000; chain 1; slots 1;";

/// Counts by destination.
const QUERIES: &[u8] =
    b"window 1000000 query q { packets | map ip.dst as d, 1 as n | reduce d: sum(n) width 16; }";

const PLAN: &[u8] = b"plan query q path 0; piece 0 0 cut 2 slots 1 stages 1;";

fn file_of(alloc: Global, bytes: &[u8]) -> Result<Seq<u8>, Memory> {
    Ok(Seq::from_vec(Vec::from_slice(alloc, bytes)?))
}

/// Puts bytes as a file, with ample memory.
fn put(rt: &impl Abort, alloc: Global, files: &mut MemInputs, name: &str, bytes: &[u8]) {
    let file = file_of(alloc, bytes).expect(rt, "ample memory");
    assert!(rt; files.put(name, file).is_ok());
}

/// Packets to these hosts of 10.0.0.0, in the microseconds of one second.
fn capture_of(alloc: Global, destinations: &[u8]) -> Result<Seq<u8>, Memory> {
    let mut file = Vec::from_slice(alloc, &HEADER)?;
    for destination in destinations {
        let mut frame = FRAME;
        frame[33] = *destination;
        file.extend_from_slice(&RECORD)?;
        file.extend_from_slice(&frame)?;
    }
    Ok(Seq::from_vec(file))
}

/// The answers are three rows: two packets each to the hosts 1 and 2, and one to the host 3. By hand: the register holds
/// the host 1, whose row is read out, and the other three packets overflow; so four items are sent, whoever tells the rows.
#[test]
fn what_the_machine_tells_is_printed(rt: HostRuntime) {
    let alloc = rt.alloc();
    let mut words = Vec::new(alloc);
    for word in ["run", "s", "q", "p", "c"] {
        assert!(rt;
            words
                .push(String::from_str(alloc, word).expect(&rt, "ample memory"))
                .is_ok()
        );
    }
    let mut files = MemInputs::new(alloc);
    put(&rt, alloc, &mut files, "s", SWITCH);
    put(&rt, alloc, &mut files, "q", QUERIES);
    put(&rt, alloc, &mut files, "p", PLAN);
    assert!(rt;
        files
            .put(
                "c",
                capture_of(alloc, &[1, 2, 1, 2, 3]).expect(&rt, "ample memory")
            )
            .is_ok()
    );
    let mut out = MemSink::new(alloc, 1000).expect(&rt, "ample memory");
    let mut err = MemSink::new(alloc, 1000).expect(&rt, "ample memory");
    let status = top::<Twist, MemInputs, MemSink, MemSink>(
        alloc, &words, &mut files, &mut out, &mut err,
    );
    assert_eq!(rt; status, 0);
    assert_eq!(rt;
        out.bytes(),
        b"window 0 emitted 4\nquery q level 0 rows 2\n10.0.0.1 2\n10.0.0.2 2\ntotal windows 1 emitted 4\n".as_slice()
    );
    assert_eq!(rt; err.bytes(), b"".as_slice());
}
