//! Headers and records of captures that stand in memory whole.
ghost use Rattle.std.specs.Prelude.{◌≤◌, ◌+◌};

use sn_base::link::Link;
use sn_pcap::header::{HeadFault, Header, head};
use sn_pcap::packet::{Ending, Packet, packets};
use std::alloc::Global;
use std::process::Abort;

pub(crate) const HEADER: [u8; 24] = [
    0xd4, 0xc3, 0xb2, 0xa1, 2, 0, 4, 0, 0, 0, 0, 0, 0, 0, 0, 0, 0, 0, 4, 0, 1, 0, 0, 0,
];

/// A record of 54 bytes: one TCP SYN, at one second.
pub(crate) const RECORD: [u8; 70] = [
    1, 0, 0, 0, 0, 0, 0, 0, 0x36, 0, 0, 0, 0x36, 0, 0, 0, //
    2, 0, 0, 0, 0, 2, 2, 0, 0, 0, 0, 1, 8, 0, //
    0x45, 0, 0, 0x28, 0, 0, 0, 0, 0x40, 6, 0, 0, 10, 0, 0, 1, 10, 0, 0, 9, //
    4, 0, 0, 0x50, 0, 0, 0, 0, 0, 0, 0, 0, 0x50, 2, 0, 0, 0, 0, 0, 0,
];

pub(crate) const LITTLE: Header = Header {
    big: false,
    nanos: false,
    link: Link::Ethernet,
};

/// Three records after a header.
pub(crate) fn three() -> [u8; 234] {
    let mut file = [0; 234];
    file[..24].copy_from_slice(&HEADER);
    file[24..94].copy_from_slice(&RECORD);
    file[94..164].copy_from_slice(&RECORD);
    file[164..].copy_from_slice(&RECORD);
    file
}

/// The same, the third with one captured byte too many.
pub(crate) fn third_too_large() -> [u8; 234] {
    let mut file = three();
    file[172..176].copy_from_slice(&[1, 0, 4, 0]);
    file
}

/// The first bytes of a file.
pub(crate) fn front(file: &[u8], count: usize) -> &[u8] {
    file.get(..count).unwrap_or(file)
}

#[test]
fn refuses_headers(rt: HostRuntime) {
    let mut other_version = HEADER;
    other_version[6] = 3;
    let mut other_link = HEADER;
    other_link[20] = 105;
    let mut high_bits = HEADER;
    high_bits[22] = 7;
    let mut other_magic = [0; 24];
    other_magic[..4].copy_from_slice(&[0x0a, 0x0d, 0x0d, 0x0a]);
    assert_eq!(rt; head(&HEADER), Ok(LITTLE));
    assert_eq!(rt; head(&high_bits), Ok(LITTLE));
    assert_eq!(rt; head(front(&HEADER, 23)), Err(HeadFault::Short));
    assert_eq!(rt; head(&[]), Err(HeadFault::Short));
    assert_eq!(rt; head(&other_magic), Err(HeadFault::Magic));
    assert_eq!(rt; head(&other_version), Err(HeadFault::Version));
    assert_eq!(rt; head(&other_link), Err(HeadFault::Link));
}

fn expect_packets(rt: &impl Abort, alloc: Global, file: &[u8], count: usize, ending: Ending) {
    match packets(alloc, &LITTLE, file) {
        Ok((found, end)) => {
            assert_eq!(rt; found.as_slice().len(), count);
            assert_eq!(rt; end, ending);
        }
        Err(_) => assert!(rt; false),
    }
}

#[test]
fn finds_packets(rt: HostRuntime) {
    let whole = three();
    let too_large = third_too_large();
    expect_packets(&rt, rt.alloc(), &HEADER, 0, Ending::Clean);
    expect_packets(&rt, rt.alloc(), &whole, 3, Ending::Clean);
    expect_packets(&rt, rt.alloc(), front(&whole, 233), 2, Ending::Cut(164));
    expect_packets(&rt, rt.alloc(), &too_large, 2, Ending::Bad(164));
}

#[test]
fn reads_a_record(rt: HostRuntime) {
    let whole = three();
    match packets(rt.alloc(), &LITTLE, front(&whole, 94)) {
        Ok((found, _)) => {
            let second = Packet {
                time: 1_000_000_000,
                wire: 54,
                at: 40,
                cap: 54,
            };
            assert_eq!(rt; found.as_slice(), [second].as_slice());
            assert_eq!(rt; second.bytes(&whole), &RECORD[16..]);
        }
        Err(_) => assert!(rt; false),
    }
}

/// Writes a number in either order.
fn put(file: &mut [u8; 94], big: bool, place: usize, number: u32)
    requires { place + 4 ≤ 94 }
{
    let [a, b, c, d] = if big {
        number.to_be_bytes()
    } else {
        number.to_le_bytes()
    };
    file[place] = a;
    file[place + 1] = b;
    file[place + 2] = c;
    file[place + 3] = d;
}

/// One packet at one second and a quarter, in a capture of either byte order and time unit.
fn one_packet(big: bool, nanos: bool) -> [u8; 94] {
    let mut file = [0; 94];
    file[40..].copy_from_slice(&RECORD[16..]);
    put(
        &mut file,
        big,
        0,
        if nanos { 0xa1b2_3c4d } else { 0xa1b2_c3d4 },
    );
    put(
        &mut file,
        big,
        4,
        if big { 0x0002_0004 } else { 0x0004_0002 },
    );
    put(&mut file, big, 20, 1);
    put(&mut file, big, 24, 1);
    put(
        &mut file,
        big,
        28,
        if nanos { 250_000_000 } else { 250_000 },
    );
    put(&mut file, big, 32, 54);
    put(&mut file, big, 36, 54);
    file
}

/// The file has this header and this one packet.
fn expect_packet(rt: &impl Abort, alloc: Global, file: &[u8], header: Header, packet: Packet) {
    assert_eq!(rt; head(file), Ok(header));
    match packets(alloc, &header, file) {
        Ok((found, end)) => {
            assert_eq!(rt; found.as_slice(), [packet].as_slice());
            assert_eq!(rt; end, Ending::Clean);
        }
        Err(_) => assert!(rt; false),
    }
}

#[test]
fn reads_each_order_and_unit(rt: HostRuntime) {
    for (big, nanos) in [(false, false), (false, true), (true, false), (true, true)] {
        let header = Header {
            big,
            nanos,
            link: Link::Ethernet,
        };
        let packet = Packet {
            time: 1_250_000_000,
            wire: 54,
            at: 40,
            cap: 54,
        };
        expect_packet(&rt, rt.alloc(), &one_packet(big, nanos), header, packet);
    }
}

/// A capture that Scapy wrote: high byte first, nanoseconds, raw IP, one packet of 90 bytes captured to 28.
const SCAPY: [u8; 68] = [
    0xa1, 0xb2, 0x3c, 0x4d, 0, 2, 0, 4, 0, 0, 0, 0, 0, 0, 0, 0, 0, 0, 0xff, 0xff, 0, 0, 0, 0x65, //
    0x65, 0x53, 0xf1, 0, 7, 0x5b, 0xcd, 0x15, 0, 0, 0, 0x1c, 0, 0, 0, 0x5a, //
    0x45, 0, 0, 0x1c, 0, 1, 0, 0, 0x39, 0x11, 0x7a, 0xc6, 0xc0, 0xa8, 0x0a, 0x14, 0xcb, 0, 0x71,
    0x4d, 0x14, 0xe9, 0, 0x35, 0, 8, 0xe3, 0xb5,
];

/// The time is the one that Wireshark's tshark prints for it: 1700000000.123456789.
#[test]
fn reads_a_capture_of_scapy(rt: HostRuntime) {
    let header = Header {
        big: true,
        nanos: true,
        link: Link::RawIp,
    };
    let packet = Packet {
        time: 1_700_000_000_123_456_789,
        wire: 90,
        at: 40,
        cap: 28,
    };
    expect_packet(&rt, rt.alloc(), &SCAPY, header, packet);
}

/// The header with another link type.
fn with_link(low: u8, high: u8) -> [u8; 24] {
    let mut header = HEADER;
    header[20] = low;
    header[21] = high;
    header
}

#[test]
fn reads_link_types(rt: HostRuntime) {
    for (low, high, link) in [
        (101, 0, Link::RawIp),
        (113, 0, Link::Cooked),
        (20, 1, Link::Cooked2),
    ] {
        assert_eq!(rt; head(&with_link(low, high)), Ok(Header { link, ..LITTLE }));
    }
    assert_eq!(rt; head(&with_link(1, 1)), Err(HeadFault::Link));
}
