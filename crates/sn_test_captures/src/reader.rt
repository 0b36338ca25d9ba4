//! A reader over files that are given in pieces.
ghost use Rattle.std.specs.Prelude.{◌≤◌};

use crate::files::file_of;
use crate::records::{HEADER, LITTLE, RECORD, front, third_too_large, three};
use sn_base::memory::Memory;
use sn_io::inputs::{Inputs, ReadError};
use sn_io::mem_inputs::MemInputs;
use sn_pcap::front::read_head;
use sn_pcap::packet::Ending;
use sn_pcap::reader::Reader;
use sn_pcap::seen::{Next, Seen};
use sn_test_inputs::slow::Slow;
use std::alloc::Global;
use std::process::Abort;

/// What a reader gave: how many packets, whether each was the one wanted, and what came after them.
#[derive(Clone, Copy)]
struct Given {
    packets: u64,
    same: bool,
    last: Result<Ending, ReadError>,
}

/// Whether a packet is that of `RECORD`.
fn is_wanted(seen: &Seen) -> bool
    requires { seen.now.len ≤ 128 }
{
    seen.time == 1_000_000_000 && seen.wire == 54 && seen.cap == 54 && seen.bytes() == &RECORD[16..]
}

/// Reads a capture to its end, and once more after it.
fn read_all<I: Inputs>(alloc: Global, files: &mut I, name: &str) -> Result<Given, Memory> {
    let mut reader = Reader::make(alloc, LITTLE)?;
    let mut packets = 0;
    let mut same = true;
    let mut seen = Seen::empty();
    'packets: loop {
        match reader.next(files, name, &mut seen) {
            Ok(Next::Packet) => {
                same = same && is_wanted(&seen);
                packets += 1;
            }
            Ok(Next::End(ending)) => {
                let again = reader.next(files, name, &mut seen) == Ok(Next::End(ending));
                return Ok(Given {
                    packets,
                    same: same && again,
                    last: Ok(ending),
                });
            }
            Err(error) => {
                return Ok(Given {
                    packets,
                    same,
                    last: Err(error),
                });
            }
        }
    }
}

/// A capture of so many records, given in pieces of at most so many bytes.
fn expect(
    rt: &impl Abort,
    alloc: Global,
    bytes: &[u8],
    most: usize,
    packets: u64,
    ending: Ending,
) -> Result<(), Memory>
    requires { 1 ≤ most }
{
    let mut files = MemInputs::new(alloc);
    files.put("c", file_of(alloc, bytes)?)?;
    let mut files = Slow { files, most };
    assert_eq!(rt; read_head(&mut files, "c"), Ok(Ok(LITTLE)));
    let given = read_all(alloc, &mut files, "c")?;
    assert_eq!(rt; given.packets, packets);
    assert_eq!(rt; given.last, Ok(ending));
    assert!(rt; given.same);
    Ok(())
}

/// A capture of so many records.
fn many(alloc: Global, count: usize) -> Result<Vec<u8>, Memory> {
    let mut bytes = Vec::new(alloc);
    if bytes.extend_from_slice(&HEADER).is_err() {
        return Err(Memory);
    }
    for _ in 0..count {
        if bytes.extend_from_slice(&RECORD).is_err() {
            return Err(Memory);
        }
    }
    Ok(bytes)
}

#[test]
fn reads_pieces_of_each_size(rt: HostRuntime) {
    let whole = three();
    for most in 1..101 {
        assert!(rt; expect(&rt, rt.alloc(), &whole, most, 3, Ending::Clean).is_ok());
    }
    for most in [65535, 65536, 65537] {
        assert!(rt; expect(&rt, rt.alloc(), &whole, most, 3, Ending::Clean).is_ok());
    }
}

/// 1000 records have 70000 bytes, so one stands across the edge of the buffer.
#[test]
fn reads_across_the_edge_of_the_buffer(rt: HostRuntime) {
    let bytes = many(rt.alloc(), 1000).expect(&rt, "ample memory");
    for most in [7, 4096, 65535, 65536, 65537] {
        assert!(rt; expect(&rt, rt.alloc(), &bytes, most, 1000, Ending::Clean).is_ok());
    }
}

#[test]
fn tells_where_a_capture_is_damaged(rt: HostRuntime) {
    let whole = three();
    let bad = third_too_large();
    for most in [1, 16, 65536] {
        assert!(rt; expect(&rt, rt.alloc(), front(&whole, 24), most, 0, Ending::Clean).is_ok());
        assert!(rt; expect(&rt, rt.alloc(), front(&whole, 25), most, 0, Ending::Cut(24)).is_ok());
        assert!(rt;
            expect(
                &rt,
                rt.alloc(),
                front(&whole, 179),
                most,
                2,
                Ending::Cut(164),
            )
            .is_ok()
        );
        assert!(rt;
            expect(
                &rt,
                rt.alloc(),
                front(&whole, 180),
                most,
                2,
                Ending::Cut(164),
            )
            .is_ok()
        );
        assert!(rt;
            expect(
                &rt,
                rt.alloc(),
                front(&whole, 233),
                most,
                2,
                Ending::Cut(164),
            )
            .is_ok()
        );
        assert!(rt; expect(&rt, rt.alloc(), &bad, most, 2, Ending::Bad(164)).is_ok());
    }
}

/// A capture of one record with so many captured bytes, of which so many stand.
fn one_long(alloc: Global, length: u32, stand: usize) -> Result<Vec<u8>, Memory> {
    let mut bytes = Vec::new(alloc);
    if bytes.extend_from_slice(&HEADER).is_err()
        || bytes.extend_from_slice(&[9, 0, 0, 0, 0, 0, 0, 0]).is_err()
        || bytes.extend_from_slice(&length.to_le_bytes()).is_err()
        || bytes.extend_from_slice(&length.to_le_bytes()).is_err()
        || bytes.resize(40 + stand.min(262145), 7).is_err()
    {
        return Err(Memory);
    }
    Ok(bytes)
}

/// The length of what is kept of a packet, and of what was captured, or how the records end.
fn shape(next: Result<Next, ReadError>, seen: &Seen) -> Result<(u32, u32), Ending> {
    match next {
        Ok(Next::Packet) => Ok((seen.len, seen.cap)),
        Ok(Next::End(ending)) => Err(ending),
        Err(_) => Err(Ending::Clean),
    }
}

/// The shape of the first packet of a capture that stands in memory whole.
fn first_shape(alloc: Global, bytes: &[u8]) -> Result<Result<(u32, u32), Ending>, Memory> {
    let mut files = MemInputs::new(alloc);
    files.put("c", file_of(alloc, bytes)?)?;
    let mut reader = Reader::make(alloc, LITTLE)?;
    let mut seen = Seen::empty();
    let next = reader.next(&mut files, "c", &mut seen);
    Ok(shape(next, &seen))
}

#[test]
fn reads_packets_of_each_length(rt: HostRuntime) {
    let alloc = rt.alloc();
    for (length, stand, shaped) in [
        (0, 0, Ok((0, 0))),
        (1, 0, Err(Ending::Cut(24))),
        (1, 1, Ok((1, 1))),
        (128, 128, Ok((128, 128))),
        (129, 129, Ok((128, 129))),
        (65520, 65520, Ok((128, 65520))),
        (65521, 65521, Ok((128, 65521))),
        (65521, 65520, Err(Ending::Cut(24))),
        (262144, 54, Err(Ending::Cut(24))),
        (262144, 262143, Err(Ending::Cut(24))),
        (262144, 262144, Ok((128, 262144))),
        (262145, 262145, Err(Ending::Bad(24))),
        (4294967295, 0, Err(Ending::Bad(24))),
    ] {
        let bytes = one_long(alloc, length, stand).expect(&rt, "ample memory");
        assert_eq!(rt;
            first_shape(alloc, &bytes).expect(&rt, "ample memory"),
            shaped
        );
    }
}

/// A read that fails tells nothing and takes nothing: the next call goes on where this one stood.
#[test]
fn goes_on_after_a_failed_read(rt: HostRuntime) {
    let alloc = rt.alloc();
    for failing in 0..8 {
        let mut files = MemInputs::new(alloc);
        assert!(rt;
            files
                .put("c", file_of(alloc, &three()).expect(&rt, "ample memory"))
                .is_ok()
        );
        assert!(rt; files.fail_at(failing).is_ok());
        let mut files = Slow { files, most: 40 };
        let given = read_all(alloc, &mut files, "c").expect(&rt, "ample memory");
        assert!(rt; given.same);
        let last = if failing < 7 {
            Err(ReadError::ReadFault)
        } else {
            Ok(Ending::Clean)
        };
        assert_eq!(rt; given.last, last);
    }
    let mut files = MemInputs::new(alloc);
    assert!(rt;
        files
            .put("c", file_of(alloc, &three()).expect(&rt, "ample memory"))
            .is_ok()
    );
    assert!(rt; files.fail_at(1).is_ok());
    let mut files = Slow { files, most: 40 };
    let mut reader = Reader::make(alloc, LITTLE).expect(&rt, "ample memory");
    let mut seen = Seen::empty();
    assert_eq!(rt;
        reader.next(&mut files, "d", &mut seen),
        Err(ReadError::Missing)
    );
    assert_eq!(rt;
        reader.next(&mut files, "c", &mut seen),
        Err(ReadError::ReadFault)
    );
    assert_eq!(rt; seen, Seen::empty());
    let next = reader.next(&mut files, "c", &mut seen);
    assert_eq!(rt; shape(next, &seen), Ok((54, 54)));
}
