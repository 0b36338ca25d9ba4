//! A walk over the headers of a packet, once, from the link header to the transport.
ghost use Rattle.std.specs.Prelude.{◌≡◌, ◌≤◌, ◌<◌, ◌+◌, ◌*◌, ◌/◌, ◌%◌, ◌^◌, nat_le, nat_lt, length, slice_index};
ghost use Rattle.std.specs.Bool.{OnTrue};
ghost use Rattle.sn_base.specs.declared.link.Link.TheVariants.{Ethernet};
ghost use Rattle.sn_fields.specs.Headers.{number_at, has_tag, tags, type_of_version, is_ip, is_ip6, after_ip};
ghost use Rattle.sn_fields.specs.Tuples.{where_present};
ghost use Rattle.sn_fields.specs.Parts.{IsLinkPart, IsIpPart, IsIp6, carried_of, of_ip, no_ip, no_ip6, no_ip_part};

use crate::held::Held48;
use crate::numbers::{u16_at, u32_at, u48_at, u128_at};
use sn_base::link::Link;

/// The types of Ethernet that are reported apart (IEEE 802 numbers): IPv4, IPv6, and the two of tags.
const IPV4: u16 = 0x0800;

pub const IPV6: u16 = 0x86dd;

const CUSTOMER_TAG: u16 = 0x8100;

const SERVICE_TAG: u16 = 0x88a8;

/// What the link header says.
#[derive(Clone, Copy)]
pub struct LinkHeader {
    pub destination: Held48,
    pub source: Held48,
    pub kind: u16,
    pub vlan: u16,
}

/// A link header, and where the one after it stands.
#[derive(Clone, Copy)]
pub struct LinkPart {
    pub header: LinkHeader,
    pub end: usize,
}

/// A header of IPv4.
#[derive(Clone, Copy)]
pub struct IpHeader {
    pub source: u32,
    pub destination: u32,
    pub length: u16,
    pub ttl: u8,
    pub protocol: u8,
    pub valid: bool,
}

/// A header of IPv4, and what it carries.
#[derive(Clone, Copy)]
pub struct IpPart {
    pub header: IpHeader,
    /// Whether it is present and that of a first fragment.
    pub first: bool,
    /// Where the header after it stands.
    pub end: usize,
}

/// A header of IPv6.
#[derive(Clone, Copy)]
pub struct Ip6Header {
    pub source: u128,
    pub destination: u128,
    pub length: u16,
    pub next: u8,
    pub hops: u8,
    pub valid: bool,
}

/// What a header of the network layer carries.
#[derive(Clone, Copy)]
pub struct Carried {
    /// Whether there is such a header, and it is that of a first fragment.
    pub first: bool,
    pub protocol: u8,
    /// Where the header after it stands.
    pub end: usize,
}

impl IpHeader {
    /// No header.
    #[inline(always)]
    pub fn absent() -> IpHeader
        ensures { result ≡ no_ip }
    {
        IpHeader {
            source: 0,
            destination: 0,
            length: 0,
            ttl: 0,
            protocol: 0,
            valid: false,
        }
    }
}

impl Ip6Header {
    /// No header.
    #[inline(always)]
    pub fn absent() -> Ip6Header
        ensures { result ≡ no_ip6 }
    {
        Ip6Header {
            source: 0,
            destination: 0,
            length: 0,
            next: 0,
            hops: 0,
            valid: false,
        }
    }
}

/// Whether a tag stands at a place (IEEE 802.1Q): its type, and the 4 bytes after it.
#[tactic(auto, unfolding(crate::specs::Headers::has_tag))]
fn has_tag(bytes: &[u8], place: usize) -> bool
    requires { place < 64 }
    ensures tag { result ≡ has_tag bytes.now place }
    ensures captured { OnTrue result (place + 6 ≤ length bytes.now) }
{
    bytes.len() >= place + 6 && matches!(u16_at(bytes, place), CUSTOMER_TAG | SERVICE_TAG)
}

/// How many tags a frame of Ethernet has: at most two are looked for.
#[tactic(auto, unfolding(crate::specs::Headers::tags))]
fn tags(bytes: &[u8]) -> usize
    ensures tags { result ≡ tags Ethernet bytes.now }
    ensures most { result ≤ 2 }
    ensures captured { 0 < result → 14 + 4 * result ≤ length bytes.now }
{
    if !has_tag(bytes, 12) {
        return 0;
    }
    if has_tag(bytes, 16) { 2 } else { 1 }
}

/// The part of a link header without addresses.
fn bare(kind: u16, end: usize) -> LinkPart
    ensures { result ≡ record { header = record { destination = 0; source = 0; kind = kind; vlan = 0 }; end = end } }
{
    LinkPart {
        header: LinkHeader {
            destination: Held48::of(0),
            source: Held48::of(0),
            kind,
            vlan: 0,
        },
        end,
    }
}

/// The VLAN id, of the first tag.
fn vlan(bytes: &[u8], tags: usize) -> u16
    requires { 0 < tags → 18 ≤ length bytes.now }
    ensures value { result ≡ where_present (nat_lt 0 tags) (number_at 2 bytes.now 14 % 4096) }
    ensures fits { result < 2 ^ 12 }
{
    if tags > 0 {
        u16_at(bytes, 14) % 4096
    } else {
        0
    }
}

/// The link header of Ethernet (IEEE 802.3), and its tags.
#[tactic(auto, unfolding(crate::specs::Headers::has_ethernet, crate::specs::Headers::ether_type, crate::specs::Headers::ip_place))]
fn ethernet(bytes: &[u8]) -> LinkPart
    ensures { IsLinkPart Ethernet bytes.now result }
{
    let tags = tags(bytes);
    if bytes.len() < 14 {
        return bare(0, 14);
    }
    LinkPart {
        header: LinkHeader {
            destination: Held48::of(u48_at(bytes, 0)),
            source: Held48::of(u48_at(bytes, 6)),
            kind: u16_at(bytes, 12 + 4 * tags),
            vlan: vlan(bytes, tags),
        },
        end: 14 + 4 * tags,
    }
}

/// The type at a place of a link header of this many bytes, 0 where it wasn't captured.
fn type_at(bytes: &[u8], count: usize, place: usize) -> u16
    requires { place + 2 ≤ count }
    ensures { result ≡ where_present (nat_le count (length bytes.now)) (number_at 2 bytes.now place) }
{
    if bytes.len() < count {
        return 0;
    }
    u16_at(bytes, place)
}

/// The type of a packet without link header, by its version of IP.
fn type_by_version(bytes: &[u8]) -> u16
    ensures { result ≡ where_present (nat_le 1 (length bytes.now)) (type_of_version (slice_index bytes.now 0 / 16)) }
{
    match bytes.first() {
        Some(first) => match first / 16 {
            4 => IPV4,
            6 => IPV6,
            _ => 0,
        },
        None => 0,
    }
}

/// The link header of a packet, and its tags.
#[tactic(auto, unfolding(crate::specs::Headers::has_ethernet, crate::specs::Headers::ether_type, crate::specs::Headers::ip_place, crate::specs::Headers::tags))]
pub fn link_part(link: Link, bytes: &[u8]) -> LinkPart
    ensures { IsLinkPart link bytes.now result }
{
    match link {
        Link::Ethernet => ethernet(bytes),
        Link::RawIp => bare(type_by_version(bytes), 0),
        Link::Cooked => bare(type_at(bytes, 16, 14), 16),
        Link::Cooked2 => bare(type_at(bytes, 20, 0), 20),
    }
}

/// Whether a header of IPv4 stands at a place after a type (RFC 791, section 3.1).
#[tactic(auto, unfolding(crate::specs::Headers::is_ip, crate::specs::Headers::after_ip))]
fn is_ip(kind: u16, bytes: &[u8], place: usize) -> bool
    requires { place ≤ 22 }
    ensures ip { result ≡ is_ip kind bytes.now place }
    ensures captured { OnTrue result (place + 20 ≤ length bytes.now) }
    ensures whole { OnTrue result (after_ip bytes.now place ≤ length bytes.now) }
{
    if kind != IPV4 || bytes.len() < place + 20 {
        return false;
    }
    let words = usize::from(bytes[place] % 16);
    bytes[place] / 16 == 4 && words >= 5 && bytes.len() >= place + 4 * words
}

/// The header of IPv4 that stands at a place after a type, if one does.
#[tactic(auto, unfolding(crate::specs::Headers::after_ip, crate::specs::Headers::is_first))]
pub fn ip_part(kind: u16, bytes: &[u8], place: usize) -> IpPart
    requires { place ≤ 22 }
    ensures { IsIpPart kind bytes.now place result }
{
    if !is_ip(kind, bytes, place) {
        return no_ip();
    }
    IpPart {
        header: IpHeader {
            source: u32_at(bytes, place + 12),
            destination: u32_at(bytes, place + 16),
            length: u16_at(bytes, place + 2),
            ttl: bytes[place + 8],
            protocol: bytes[place + 9],
            valid: true,
        },
        first: u16_at(bytes, place + 6) % 8192 == 0,
        end: place + 4 * usize::from(bytes[place] % 16),
    }
}

/// The part of a packet without a header of IPv4.
pub fn no_ip() -> IpPart
    ensures { result ≡ no_ip_part }
{
    IpPart {
        header: IpHeader::absent(),
        first: false,
        end: 0,
    }
}

/// Whether a header of IPv6 stands at a place after a type (RFC 8200, section 3).
#[tactic(auto, unfolding(crate::specs::Headers::is_ip6))]
fn is_ip6(kind: u16, bytes: &[u8], place: usize) -> bool
    requires { place ≤ 22 }
    ensures ip6 { result ≡ is_ip6 kind bytes.now place }
    ensures captured { OnTrue result (place + 40 ≤ length bytes.now) }
{
    kind == IPV6 && bytes.len() >= place + 40 && bytes[place] / 16 == 6
}

/// The header of IPv6 that stands at a place after a type, if one does.
pub fn ip6_header(kind: u16, bytes: &[u8], place: usize) -> Ip6Header
    requires { place ≤ 22 }
    ensures header { IsIp6 kind bytes.now place result }
    ensures captured { OnTrue result.valid (place + 40 ≤ length bytes.now) }
{
    if !is_ip6(kind, bytes, place) {
        return Ip6Header::absent();
    }
    Ip6Header {
        source: u128_at(bytes, place + 8),
        destination: u128_at(bytes, place + 24),
        length: u16_at(bytes, place + 4),
        next: bytes[place + 6],
        hops: bytes[place + 7],
        valid: true,
    }
}

/// What a header of IPv4 carries.
pub fn of_ip(ip: &IpPart) -> Carried
    ensures { result ≡ of_ip ip.now }
{
    Carried {
        first: ip.first,
        protocol: ip.header.protocol,
        end: ip.end,
    }
}

/// What the header of the network layer carries: that of IPv6 at a place, where one is present, and else that of IPv4.
pub fn what_is_carried(ip: &IpPart, header: &Ip6Header, bytes: &[u8], place: usize) -> Carried
    requires near { place ≤ 22 }
    requires ip { ip.now.end ≤ length bytes.now }
    requires captured { OnTrue header.now.valid (place + 40 ≤ length bytes.now) }
    ensures carried { result ≡ carried_of ip.now header.now place }
    ensures within { result.end ≤ length bytes.now }
{
    if header.valid {
        Carried {
            first: true,
            protocol: header.next,
            end: place + 40,
        }
    } else {
        of_ip(ip)
    }
}
