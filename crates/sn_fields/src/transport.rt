//! The header of the transport, as it is read and as a tuple holds it.
ghost use Rattle.std.specs.Prelude.{◌≡◌, ◌≤◌, ◌+◌, true, length};
ghost use Rattle.sn_fields.specs.Parts.{part_carries, IsTcp, IsUdp, IsIcmp, IsTransport, no_tcp, no_udp, no_icmp};

use crate::headers::Carried;
use crate::held::Held32;
use crate::numbers::{u16_at, u32_at};
use std::marker::Model;

/// The protocols that are read (Assigned Internet Protocol Numbers).
const ICMP: u8 = 1;

const TCP: u8 = 6;

const UDP: u8 = 17;

/// A header of TCP.
#[derive(Clone, Copy)]
pub struct TcpHeader {
    pub sequence: u32,
    pub acknowledgment: u32,
    pub source: u16,
    pub destination: u16,
    pub flags: u8,
    pub valid: bool,
}

/// A header of UDP.
#[derive(Clone, Copy)]
pub struct UdpHeader {
    pub source: u16,
    pub destination: u16,
    pub length: u16,
    pub valid: bool,
}

/// A header of ICMP.
#[derive(Clone, Copy)]
pub struct IcmpHeader {
    pub kind: u8,
    pub code: u8,
    pub valid: bool,
}

/// The header of TCP, UDP or ICMP, or none. The order of the fields leaves no gaps.
#[derive(Clone, Copy)]
enum HeldTransport {
    Absent,
    Tcp {
        flags: u8,
        source: u16,
        destination: u16,
        sequence: Held32,
        acknowledgment: Held32,
    },
    Udp {
        source: u16,
        destination: u16,
        length: u16,
    },
    Icmp {
        kind: u8,
        code: u8,
    },
}

/// The header of the transport. Contracts see the three headers that it may be, of which one is present at most.
#[derive(Clone, Copy)]
pub struct Transport {
    held: HeldTransport,
}

const _: () = prove!(size_of::<Transport>() <= 14);

impl Model for Transport {
    ghost use Rattle.sn_fields.specs.Parts.{TransportParts};

    ghost Value = { TransportParts };

    ghost use Rattle.sn_fields.specs.Held.{transport_in, transport_of, transport_back};

    ghost view = { λ a. transport_in a.held };

    ghost inverse = { λ parts. record { held = transport_of parts } };

    ghost inverse_ok = { λ a h i. record { held = transport_back a.held i } };
}

impl Transport {
    /// The header of TCP.
    #[inline(always)]
    pub fn tcp(&self) -> TcpHeader
        ensures { result ≡ self.now.tcp }
    {
        match &self.held {
            HeldTransport::Tcp {
                flags,
                source,
                destination,
                sequence,
                acknowledgment,
            } => TcpHeader {
                sequence: sequence.number(),
                acknowledgment: acknowledgment.number(),
                source: *source,
                destination: *destination,
                flags: *flags,
                valid: true,
            },
            _ => TcpHeader {
                sequence: 0,
                acknowledgment: 0,
                source: 0,
                destination: 0,
                flags: 0,
                valid: false,
            },
        }
    }

    /// The header of UDP.
    #[inline(always)]
    pub fn udp(&self) -> UdpHeader
        ensures { result ≡ self.now.udp }
    {
        match &self.held {
            HeldTransport::Udp {
                source,
                destination,
                length,
            } => UdpHeader {
                source: *source,
                destination: *destination,
                length: *length,
                valid: true,
            },
            _ => UdpHeader {
                source: 0,
                destination: 0,
                length: 0,
                valid: false,
            },
        }
    }

    /// The header of ICMP.
    #[inline(always)]
    pub fn icmp(&self) -> IcmpHeader
        ensures { result ≡ self.now.icmp }
    {
        match &self.held {
            HeldTransport::Icmp { kind, code } => IcmpHeader {
                kind: *kind,
                code: *code,
                valid: true,
            },
            _ => IcmpHeader {
                kind: 0,
                code: 0,
                valid: false,
            },
        }
    }
}

/// Whether this many bytes of a protocol stand right after a header of the network layer.
#[inline(always)]
fn carries(found: &Carried, bytes: &[u8], protocol: u8, count: usize) -> bool
    requires { found.now.end ≤ length bytes.now }
    ensures { result ≡ part_carries found.now bytes.now protocol count }
{
    found.first && found.protocol == protocol && bytes.len() - found.end >= count
}

/// The header of TCP at a place (RFC 9293, section 3.1). Its options aren't needed.
fn tcp_at(bytes: &[u8], place: usize) -> Transport
    requires { place + 20 ≤ length bytes.now }
    ensures tcp { IsTcp true bytes.now place result.tcp }
    ensures udp { result.udp ≡ no_udp }
    ensures icmp { result.icmp ≡ no_icmp }
{
    Transport {
        held: HeldTransport::Tcp {
            flags: bytes[place + 13],
            source: u16_at(bytes, place),
            destination: u16_at(bytes, place + 2),
            sequence: Held32::of(u32_at(bytes, place + 4)),
            acknowledgment: Held32::of(u32_at(bytes, place + 8)),
        },
    }
}

/// The header of UDP at a place (RFC 768).
fn udp_at(bytes: &[u8], place: usize) -> Transport
    requires { place + 8 ≤ length bytes.now }
    ensures tcp { result.tcp ≡ no_tcp }
    ensures udp { IsUdp true bytes.now place result.udp }
    ensures icmp { result.icmp ≡ no_icmp }
{
    Transport {
        held: HeldTransport::Udp {
            source: u16_at(bytes, place),
            destination: u16_at(bytes, place + 2),
            length: u16_at(bytes, place + 4),
        },
    }
}

/// The header of ICMP at a place (RFC 792).
fn icmp_at(bytes: &[u8], place: usize) -> Transport
    requires { place + 4 ≤ length bytes.now }
    ensures tcp { result.tcp ≡ no_tcp }
    ensures udp { result.udp ≡ no_udp }
    ensures icmp { IsIcmp true bytes.now place result.icmp }
{
    Transport {
        held: HeldTransport::Icmp {
            kind: bytes[place],
            code: bytes[place + 1],
        },
    }
}

/// The header of the transport, which stands right after a header of the network layer. ICMP is that of IPv4 alone.
pub fn transport_part(found: &Carried, over_ip: bool, bytes: &[u8]) -> Transport
    requires { found.now.end ≤ length bytes.now }
    ensures { IsTransport found.now over_ip bytes.now result }
{
    if carries(found, bytes, TCP, 20) {
        tcp_at(bytes, found.end)
    } else if carries(found, bytes, UDP, 8) {
        udp_at(bytes, found.end)
    } else if over_ip && carries(found, bytes, ICMP, 4) {
        icmp_at(bytes, found.end)
    } else {
        Transport {
            held: HeldTransport::Absent,
        }
    }
}
