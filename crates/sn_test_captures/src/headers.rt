//! Which headers of a packet are found, and the names of fields.
ghost use Rattle.std.specs.Prelude.{◌<◌};

use sn_base::link::Link;
use sn_fields::field::{FIELDS, Field, field_named};
use sn_fields::tuple::tuple_of;
use std::process::Abort;

/// A TCP SYN from 10.0.0.1 to 10.0.0.9, 54 bytes.
const SYN: [u8; 54] = [
    2, 0, 0, 0, 0, 2, 2, 0, 0, 0, 0, 1, 8, 0, //
    0x45, 0, 0, 0x28, 0, 0, 0, 0, 0x40, 6, 0, 0, 10, 0, 0, 1, 10, 0, 0, 9, //
    4, 0, 0, 0x50, 0, 0, 0, 0, 0, 0, 0, 0, 0x50, 2, 0, 0, 0, 0, 0, 0,
];

/// A TCP SYN from 2001:db8::1 to 2001:db8::9 port 80, 74 bytes. Its next header stands at byte 20.
const SYN_6: [u8; 74] = [
    2, 0, 0, 0, 0, 2, 2, 0, 0, 0, 0, 1, 0x86, 0xdd, //
    0x60, 0, 0, 0, 0, 0x14, 6, 0x40, 0x20, 1, 0x0d, 0xb8, 0, 0, 0, 0, 0, 0, 0, 0, 0, 0, 0, 1, //
    0x20, 1, 0x0d, 0xb8, 0, 0, 0, 0, 0, 0, 0, 0, 0, 0, 0, 9, //
    4, 0, 0, 0x50, 0, 0, 0, 0, 0, 0, 0, 0, 0x50, 2, 0, 0, 0, 0, 0, 0,
];

/// The SYN of IPv6 with another byte at a place.
fn changed(place: usize, byte: u8) -> [u8; 74]
    requires { place < 74 }
{
    let mut bytes = SYN_6;
    bytes[place] = byte;
    bytes
}

/// The SYN with a cooked header of version 2 in place of Ethernet's.
fn cooked() -> [u8; 60] {
    let mut bytes = [0; 60];
    bytes[..20].copy_from_slice(&[8, 0, 0, 0, 0, 0, 0, 2, 0, 1, 0, 6, 2, 0, 0, 0, 0, 1, 0, 0]);
    bytes[20..].copy_from_slice(&SYN[14..]);
    bytes
}

/// The SYN with one tag.
fn tagged() -> [u8; 58] {
    let mut bytes = [0; 58];
    bytes[..12].copy_from_slice(&SYN[..12]);
    bytes[12..16].copy_from_slice(&[0x81, 0, 0, 5]);
    bytes[16..].copy_from_slice(&SYN[12..]);
    bytes
}

/// The SYN with three tags.
fn thrice_tagged() -> [u8; 66] {
    let mut bytes = [0; 66];
    bytes[..12].copy_from_slice(&SYN[..12]);
    bytes[12..24].copy_from_slice(&[0x81, 0, 0xe0, 5, 0x88, 0xa8, 0, 6, 0x81, 0, 0, 7]);
    bytes[24..].copy_from_slice(&SYN[12..]);
    bytes
}

/// The number of a field, given by its name, in a packet.
fn expect_number(rt: &impl Abort, link: Link, bytes: &[u8], name: &[u8], number: u128) {
    match field_named(name) {
        Some(field) => assert_eq!(rt; tuple_of(link, 54, bytes).get(field), number),
        None => assert!(rt; false),
    }
}

/// The SYN captured to so many bytes.
fn expect_presence(rt: &impl Abort, captured: usize, ip: u128, tcp: u128) {
    let bytes = SYN.get(..captured).unwrap_or(&[]);
    expect_number(rt, Link::Ethernet, bytes, b"ip.valid", ip);
    expect_number(rt, Link::Ethernet, bytes, b"tcp.valid", tcp);
    expect_number(rt, Link::Ethernet, bytes, b"pkt.len", 54);
}

#[test]
fn tells_presence(rt: HostRuntime) {
    expect_presence(&rt, 0, 0, 0);
    expect_presence(&rt, 33, 0, 0);
    expect_presence(&rt, 34, 1, 0);
    expect_presence(&rt, 53, 1, 0);
    expect_presence(&rt, 54, 1, 1);
}

/// A packet of IPv6: which headers are found, of IPv6, TCP, UDP and ICMP.
fn expect_found(rt: &impl Abort, bytes: &[u8], found: [u128; 4]) {
    expect_number(rt, Link::Ethernet, bytes, b"ip6.valid", found[0]);
    expect_number(rt, Link::Ethernet, bytes, b"tcp.valid", found[1]);
    expect_number(rt, Link::Ethernet, bytes, b"udp.valid", found[2]);
    expect_number(rt, Link::Ethernet, bytes, b"icmp.valid", found[3]);
    expect_number(rt, Link::Ethernet, bytes, b"ip.valid", 0);
}

/// The SYN of IPv6 captured to so many bytes.
fn expect_presence_6(rt: &impl Abort, captured: usize, found: [u128; 4]) {
    expect_found(rt, SYN_6.get(..captured).unwrap_or(&[]), found);
}

#[test]
fn tells_presence_of_ipv6(rt: HostRuntime) {
    expect_presence_6(&rt, 53, [0, 0, 0, 0]);
    expect_presence_6(&rt, 54, [1, 0, 0, 0]);
    expect_presence_6(&rt, 73, [1, 0, 0, 0]);
    expect_presence_6(&rt, 74, [1, 1, 0, 0]);
    expect_number(&rt, Link::Ethernet, &SYN_6, b"tcp.dport", 80);
    expect_number(&rt, Link::RawIp, &SYN_6[14..], b"tcp.dport", 80);
}

#[test]
fn tells_what_ipv6_carries(rt: HostRuntime) {
    expect_found(&rt, &changed(14, 0x4f), [0, 0, 0, 0]);
    expect_found(&rt, &changed(14, 0x6f), [1, 1, 0, 0]);
    expect_found(&rt, &changed(14, 0x70), [0, 0, 0, 0]);
    expect_found(&rt, &changed(20, 17), [1, 0, 1, 0]);
    expect_found(&rt, &changed(20, 1), [1, 0, 0, 0]);
    expect_found(&rt, &changed(20, 58), [1, 0, 0, 0]);
    expect_found(&rt, &changed(20, 44), [1, 0, 0, 0]);
    expect_found(&rt, &changed(13, 0), [0, 0, 0, 0]);
}

#[test]
fn walks_tags(rt: HostRuntime) {
    expect_number(&rt, Link::Ethernet, &tagged(), b"vlan.id", 5);
    expect_number(&rt, Link::Ethernet, &tagged(), b"eth.type", 2048);
    expect_number(&rt, Link::Ethernet, &tagged(), b"ip.valid", 1);
    expect_number(&rt, Link::Ethernet, &thrice_tagged(), b"vlan.id", 5);
    expect_number(&rt, Link::Ethernet, &thrice_tagged(), b"eth.type", 0x8100);
    expect_number(&rt, Link::Ethernet, &thrice_tagged(), b"ip.valid", 0);
}

#[test]
fn reads_after_cooked_headers(rt: HostRuntime) {
    expect_number(&rt, Link::Cooked2, &cooked(), b"eth.type", 2048);
    expect_number(&rt, Link::Cooked2, &cooked(), b"vlan.id", 0);
    expect_number(&rt, Link::Cooked2, &cooked(), b"tcp.valid", 1);
}

#[test]
fn names_fields(rt: HostRuntime) {
    let mut bits: u32 = 0;
    for (field, name, width, _) in FIELDS {
        assert_eq!(rt; field_named(name), Some(field));
        assert_eq!(rt; field.name(), name);
        bits = width.wrapping_add(bits);
    }
    assert_eq!(rt; bits, 713);
    assert_eq!(rt; field_named(b"tcp.flag"), None);
    assert!(rt; Field::IpSource.is_address());
    assert!(rt; !Field::EthernetSource.is_address());
    assert!(rt; Field::Ip6Source.is_address());
}
