//! The headers after the link header, as a tuple holds them.
ghost use Rattle.std.specs.Prelude.{◌≡◌, false};
ghost use Rattle.sn_fields.specs.Parts.{no_ip, no_ip6};

use crate::headers::{Ip6Header, IpHeader};
use crate::held::Held128;
use crate::transport::{IcmpHeader, TcpHeader, Transport, UdpHeader};
use std::marker::Model;

/// The header of IPv4 or of IPv6, or none, but for its protocol or hop limit. The order of the fields leaves no gaps.
#[derive(Clone, Copy)]
enum HeldNetwork {
    Absent,
    Ip {
        ttl: u8,
        length: u16,
        source: u32,
        destination: u32,
    },
    Ip6 {
        next: u8,
        length: u16,
        source: Held128,
        destination: Held128,
    },
}

/// The headers of the network layer and of the transport. Contracts see all those that may be there, of which one of each
/// layer is present at most.
#[derive(Clone, Copy)]
pub struct Layers {
    network: HeldNetwork,
    transport: Transport,
    /// The protocol of IPv4 or the hop limit of IPv6, which has its place where the others leave a gap.
    last: u8,
}

const _: () = prove!(size_of::<Layers>() <= 52);

impl Model for Layers {
    ghost use Rattle.sn_fields.specs.Parts.{LayerParts};

    ghost Value = { LayerParts };

    ghost use Rattle.sn_fields.specs.Held.{network_in, network_of, network_back, last_of, last_back};

    ghost view = { λ a. record { network = network_in a.network a.last; transport = a.transport } };

    ghost inverse = { λ parts. record { network = network_of parts.network; transport = parts.transport; last = last_of parts.network } };

    ghost inverse_ok = { λ a h i. record { network = network_back a.network a.last i; transport = a.transport; last = last_back a.network a.last i } };
}

impl Layers {
    /// A header of IPv4, where it is present, and that of the transport.
    #[inline]
    pub fn of_ip(ip: &IpHeader, transport: Transport) -> Layers
        requires { ip.now.valid ≡ false → ip.now ≡ no_ip }
        ensures { result ≡ record { network = record { ip = ip.now; ip6 = no_ip6 }; transport = transport } }
    {
        if ip.valid {
            Layers {
                network: HeldNetwork::Ip {
                    ttl: ip.ttl,
                    length: ip.length,
                    source: ip.source,
                    destination: ip.destination,
                },
                transport,
                last: ip.protocol,
            }
        } else {
            Layers {
                network: HeldNetwork::Absent,
                transport,
                last: 0,
            }
        }
    }

    /// A header of IPv6, where it is present, and that of the transport.
    #[inline]
    pub fn of_ip6(ip6: &Ip6Header, transport: Transport) -> Layers
        requires { ip6.now.valid ≡ false → ip6.now ≡ no_ip6 }
        ensures { result ≡ record { network = record { ip = no_ip; ip6 = ip6.now }; transport = transport } }
    {
        if ip6.valid {
            Layers {
                network: HeldNetwork::Ip6 {
                    next: ip6.next,
                    length: ip6.length,
                    source: Held128::of(ip6.source),
                    destination: Held128::of(ip6.destination),
                },
                transport,
                last: ip6.hops,
            }
        } else {
            Layers {
                network: HeldNetwork::Absent,
                transport,
                last: 0,
            }
        }
    }

    /// The header of IPv4.
    #[inline(always)]
    pub fn ip(&self) -> IpHeader
        ensures { result ≡ self.now.network.ip }
    {
        match &self.network {
            HeldNetwork::Ip {
                ttl,
                length,
                source,
                destination,
            } => IpHeader {
                source: *source,
                destination: *destination,
                length: *length,
                ttl: *ttl,
                protocol: self.last,
                valid: true,
            },
            _ => IpHeader::absent(),
        }
    }

    /// The header of IPv6.
    #[inline(always)]
    pub fn ip6(&self) -> Ip6Header
        ensures { result ≡ self.now.network.ip6 }
    {
        match &self.network {
            HeldNetwork::Ip6 {
                next,
                length,
                source,
                destination,
            } => Ip6Header {
                source: source.number(),
                destination: destination.number(),
                length: *length,
                next: *next,
                hops: self.last,
                valid: true,
            },
            HeldNetwork::Ip { .. } => Ip6Header::absent(),
            HeldNetwork::Absent => Ip6Header {
                hops: self.last,
                ..Ip6Header::absent()
            },
        }
    }

    /// The header of TCP.
    #[inline(always)]
    pub fn tcp(&self) -> TcpHeader
        ensures { result ≡ self.now.transport.tcp }
    {
        self.transport.tcp()
    }

    /// The header of UDP.
    #[inline(always)]
    pub fn udp(&self) -> UdpHeader
        ensures { result ≡ self.now.transport.udp }
    {
        self.transport.udp()
    }

    /// The header of ICMP.
    #[inline(always)]
    pub fn icmp(&self) -> IcmpHeader
        ensures { result ≡ self.now.transport.icmp }
    {
        self.transport.icmp()
    }
}
