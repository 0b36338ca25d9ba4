//! The tuple of a packet.
ghost use Rattle.std.specs.Prelude.{◌≡◌, ◌≢◌, ◌<◌, ◌≤◌, ◌^◌, slice_index, take};
ghost use Rattle.sn_fields.specs.Fields.{number_of, width_of};
ghost use Rattle.sn_fields.specs.declared.field.Field.{Field};
ghost use Rattle.sn_base.specs.declared.link.Link.{Link};
ghost use Rattle.sn_fields.specs.Parts.{IsLinkPart};
ghost use Rattle.sn_fields.specs.Tuples.{field_of, tuple};

use crate::field::Field;
use crate::headers::{
    IPV6, LinkHeader, LinkPart, ip_part, ip6_header, link_part, no_ip, of_ip, what_is_carried,
};
use crate::layers::Layers;
use crate::transport::transport_part;
use sn_base::link::Link;
use std::marker::Model;

/// A number for each field. Contracts see the list of these numbers, by field number.
#[derive(Clone, Copy)]
pub struct Tuple {
    wire: u32,
    link: LinkHeader,
    layers: Layers,
}

// Tuples are copied, and kept for each packet of a window or of a training capture.
const _: () = prove!(size_of::<Tuple>() <= 72);

impl Model for Tuple {
    ghost use Rattle.std.specs.Prelude.{ℕ, ◌<◌, ◌^◌, ◌==◌, List, slice_index};
    ghost use Rattle.std.specs.Coded.{coded_ℕ, coded_list};
    ghost use Rattle.sn_fields.specs.declared.field.Field.TheVariants.{PacketLength, EthernetDestination, EthernetSource, EthernetType, VlanId};
    ghost use Rattle.sn_fields.specs.declared.field.Field.TheVariants.{IpValid, IpLength, IpTimeToLive, IpProtocol, IpSource, IpDestination};
    ghost use Rattle.sn_fields.specs.declared.field.Field.TheVariants.{TcpValid, TcpSourcePort, TcpDestinationPort, TcpSequence, TcpAcknowledgment, TcpFlags};
    ghost use Rattle.sn_fields.specs.declared.field.Field.TheVariants.{UdpValid, UdpSourcePort, UdpDestinationPort, UdpLength};
    ghost use Rattle.sn_fields.specs.declared.field.Field.TheVariants.{IcmpValid, IcmpType, IcmpCode};
    ghost use Rattle.sn_fields.specs.declared.field.Field.TheVariants.{Ip6Valid, Ip6PayloadLength, Ip6NextHeader, Ip6HopLimit, Ip6Source, Ip6Destination};
    ghost use Rattle.sn_fields.specs.Fields.{number_of};
    ghost use Rattle.sn_fields.specs.Tuples.{valid_back};
    ghost use Rattle.sn_fields.specs.Parts.{numbers_in};

    ghost Value = { List ℕ };

    ghost coded = { coded_list coded_ℕ };

    ghost view = { λ a. numbers_in a.wire a.link a.layers.network.ip a.layers.transport.tcp a.layers.transport.udp a.layers.transport.icmp a.layers.network.ip6 };

    ghost invariant = { λ a. a.link.vlan < 2 ^ 12 };

    ghost inverse = { λ xs. record {
      wire = slice_index xs (number_of PacketLength);
      link = record {
        destination = slice_index xs (number_of EthernetDestination);
        source = slice_index xs (number_of EthernetSource);
        kind = slice_index xs (number_of EthernetType);
        vlan = slice_index xs (number_of VlanId);
      };
      layers = record {
        network = record {
          ip = record {
            valid = slice_index xs (number_of IpValid) == 1;
            length = slice_index xs (number_of IpLength);
            ttl = slice_index xs (number_of IpTimeToLive);
            protocol = slice_index xs (number_of IpProtocol);
            source = slice_index xs (number_of IpSource);
            destination = slice_index xs (number_of IpDestination);
          };
          ip6 = record {
            valid = slice_index xs (number_of Ip6Valid) == 1;
            length = slice_index xs (number_of Ip6PayloadLength);
            next = slice_index xs (number_of Ip6NextHeader);
            hops = slice_index xs (number_of Ip6HopLimit);
            source = slice_index xs (number_of Ip6Source);
            destination = slice_index xs (number_of Ip6Destination);
          };
        };
        transport = record {
          tcp = record {
            valid = slice_index xs (number_of TcpValid) == 1;
            source = slice_index xs (number_of TcpSourcePort);
            destination = slice_index xs (number_of TcpDestinationPort);
            sequence = slice_index xs (number_of TcpSequence);
            acknowledgment = slice_index xs (number_of TcpAcknowledgment);
            flags = slice_index xs (number_of TcpFlags);
          };
          udp = record {
            valid = slice_index xs (number_of UdpValid) == 1;
            source = slice_index xs (number_of UdpSourcePort);
            destination = slice_index xs (number_of UdpDestinationPort);
            length = slice_index xs (number_of UdpLength);
          };
          icmp = record {
            valid = slice_index xs (number_of IcmpValid) == 1;
            kind = slice_index xs (number_of IcmpType);
            code = slice_index xs (number_of IcmpCode);
          };
        };
      };
    } };

    ghost inverse_ok = { λ a h i. record {
      wire = a.wire;
      link = a.link;
      layers = record {
        network = record {
          ip = record {
            valid = valid_back a.layers.network.ip.valid i;
            length = a.layers.network.ip.length;
            ttl = a.layers.network.ip.ttl;
            protocol = a.layers.network.ip.protocol;
            source = a.layers.network.ip.source;
            destination = a.layers.network.ip.destination;
          };
          ip6 = record {
            valid = valid_back a.layers.network.ip6.valid i;
            length = a.layers.network.ip6.length;
            next = a.layers.network.ip6.next;
            hops = a.layers.network.ip6.hops;
            source = a.layers.network.ip6.source;
            destination = a.layers.network.ip6.destination;
          };
        };
        transport = record {
          tcp = record {
            valid = valid_back a.layers.transport.tcp.valid i;
            source = a.layers.transport.tcp.source;
            destination = a.layers.transport.tcp.destination;
            sequence = a.layers.transport.tcp.sequence;
            acknowledgment = a.layers.transport.tcp.acknowledgment;
            flags = a.layers.transport.tcp.flags;
          };
          udp = record {
            valid = valid_back a.layers.transport.udp.valid i;
            source = a.layers.transport.udp.source;
            destination = a.layers.transport.udp.destination;
            length = a.layers.transport.udp.length;
          };
          icmp = record { valid = valid_back a.layers.transport.icmp.valid i; kind = a.layers.transport.icmp.kind; code = a.layers.transport.icmp.code };
        };
      };
    } };
}

// The bounds that the types of a header's numbers keep.

fn link_fits(link: &LinkHeader)
    ensures { (link.now.destination < 2 ^ 48) × (link.now.source < 2 ^ 48) × (link.now.kind < 2 ^ 16) }
{
    let _destination = link.destination.number();
    let _source = link.source.number();
    let _kind = link.kind;
}

fn ip_fits(layers: &Layers)
    ensures { (layers.now.network.ip.length < 2 ^ 16) × (layers.now.network.ip.ttl < 2 ^ 8) × (layers.now.network.ip.protocol < 2 ^ 8) × (layers.now.network.ip.source < 2 ^ 32) ×
        (layers.now.network.ip.destination < 2 ^ 32) }
{
    let ip = layers.ip();
    let _length = ip.length;
    let _ttl = ip.ttl;
    let _protocol = ip.protocol;
    let _source = ip.source;
    let _destination = ip.destination;
}

fn ip6_fits(layers: &Layers)
    ensures { (layers.now.network.ip6.length < 2 ^ 16) × (layers.now.network.ip6.next < 2 ^ 8) × (layers.now.network.ip6.hops < 2 ^ 8) × (layers.now.network.ip6.source < 2 ^ 128) ×
        (layers.now.network.ip6.destination < 2 ^ 128) }
{
    let ip6 = layers.ip6();
    let _length = ip6.length;
    let _next = ip6.next;
    let _hops = ip6.hops;
    let _source = ip6.source;
    let _destination = ip6.destination;
}

fn tcp_fits(layers: &Layers)
    ensures { (layers.now.transport.tcp.source < 2 ^ 16) × (layers.now.transport.tcp.destination < 2 ^ 16) × (layers.now.transport.tcp.sequence < 2 ^ 32) ×
        (layers.now.transport.tcp.acknowledgment < 2 ^ 32) × (layers.now.transport.tcp.flags < 2 ^ 8) }
{
    let tcp = layers.tcp();
    let _source = tcp.source;
    let _destination = tcp.destination;
    let _sequence = tcp.sequence;
    let _acknowledgment = tcp.acknowledgment;
    let _flags = tcp.flags;
}

fn udp_fits(layers: &Layers)
    ensures { (layers.now.transport.udp.source < 2 ^ 16) × (layers.now.transport.udp.destination < 2 ^ 16) × (layers.now.transport.udp.length < 2 ^ 16) }
{
    let udp = layers.udp();
    let _source = udp.source;
    let _destination = udp.destination;
    let _length = udp.length;
}

fn icmp_fits(layers: &Layers)
    ensures { (layers.now.transport.icmp.kind < 2 ^ 8) × (layers.now.transport.icmp.code < 2 ^ 8) }
{
    let icmp = layers.icmp();
    let _kind = icmp.kind;
    let _code = icmp.code;
}

impl Tuple {
    /// The number of a field, which is below 2 to its width.
    #[inline(always)]
    #[tactic(auto, unfolding(crate::specs::Fields::row_of))]
    pub fn get(&self, field: Field) -> u128
        ensures value { result ≡ slice_index self.now (number_of field) }
        ensures below { result < 2 ^ width_of field }
    {
        match field {
            Field::PacketLength => u128::from(self.wire),
            Field::EthernetDestination => u128::from(self.link.destination.number()),
            Field::EthernetSource => u128::from(self.link.source.number()),
            Field::EthernetType => u128::from(self.link.kind),
            Field::VlanId => u128::from(self.link.vlan),
            Field::IpValid => u128::from(self.layers.ip().valid),
            Field::IpLength => u128::from(self.layers.ip().length),
            Field::IpTimeToLive => u128::from(self.layers.ip().ttl),
            Field::IpProtocol => u128::from(self.layers.ip().protocol),
            Field::IpSource => u128::from(self.layers.ip().source),
            Field::IpDestination => u128::from(self.layers.ip().destination),
            Field::TcpValid => u128::from(self.layers.tcp().valid),
            Field::TcpSourcePort => u128::from(self.layers.tcp().source),
            Field::TcpDestinationPort => u128::from(self.layers.tcp().destination),
            Field::TcpSequence => u128::from(self.layers.tcp().sequence),
            Field::TcpAcknowledgment => u128::from(self.layers.tcp().acknowledgment),
            Field::TcpFlags => u128::from(self.layers.tcp().flags),
            Field::UdpValid => u128::from(self.layers.udp().valid),
            Field::UdpSourcePort => u128::from(self.layers.udp().source),
            Field::UdpDestinationPort => u128::from(self.layers.udp().destination),
            Field::UdpLength => u128::from(self.layers.udp().length),
            Field::IcmpValid => u128::from(self.layers.icmp().valid),
            Field::IcmpType => u128::from(self.layers.icmp().kind),
            Field::IcmpCode => u128::from(self.layers.icmp().code),
            Field::Ip6Valid => u128::from(self.layers.ip6().valid),
            Field::Ip6PayloadLength => u128::from(self.layers.ip6().length),
            Field::Ip6NextHeader => u128::from(self.layers.ip6().next),
            Field::Ip6HopLimit => u128::from(self.layers.ip6().hops),
            Field::Ip6Source => self.layers.ip6().source,
            Field::Ip6Destination => self.layers.ip6().destination,
        }
    }

    /// Each number is below 2 to its field's width.
    pub fn widths(&self)
        ensures { (field : Field) → slice_index self.now (number_of field) < 2 ^ width_of field }
    {
        let _wire = self.wire;
        link_fits(&self.link);
        ip_fits(&self.layers);
        tcp_fits(&self.layers);
        udp_fits(&self.layers);
        icmp_fits(&self.layers);
        ip6_fits(&self.layers);
    }
}

/// The tuple of a packet whose type isn't that of IPv6.
#[inline(always)]
fn over_ip(wire: u32, frame: LinkPart, bytes: &[u8]) -> Tuple
    requires near { frame.end ≤ 22 }
    requires vlan { frame.header.vlan < 2 ^ 12 }
    requires kind { frame.header.kind ≢ 0x86dd }
    ensures { (link : Link) → IsLinkPart link bytes.now frame → result ≡ tuple link wire bytes.now }
{
    let ip = ip_part(frame.header.kind, bytes, frame.end);
    let transport = transport_part(&of_ip(&ip), ip.header.valid, bytes);
    Tuple {
        wire,
        link: frame.header,
        layers: Layers::of_ip(&ip.header, transport),
    }
}

/// The tuple of a packet whose type is that of IPv6.
#[inline(always)]
fn over_ip6(wire: u32, frame: LinkPart, bytes: &[u8]) -> Tuple
    requires near { frame.end ≤ 22 }
    requires vlan { frame.header.vlan < 2 ^ 12 }
    requires kind { frame.header.kind ≡ 0x86dd }
    ensures { (link : Link) → IsLinkPart link bytes.now frame → result ≡ tuple link wire bytes.now }
{
    let ip6 = ip6_header(frame.header.kind, bytes, frame.end);
    let found = what_is_carried(&no_ip(), &ip6, bytes, frame.end);
    let transport = transport_part(&found, false, bytes);
    Tuple {
        wire,
        link: frame.header,
        layers: Layers::of_ip6(&ip6, transport),
    }
}

/// The tuple of a packet whose link header was read.
#[inline(always)]
fn after_link(wire: u32, frame: LinkPart, bytes: &[u8]) -> Tuple
    requires near { frame.end ≤ 22 }
    requires vlan { frame.header.vlan < 2 ^ 12 }
    ensures { (link : Link) → IsLinkPart link bytes.now frame → result ≡ tuple link wire bytes.now }
{
    if frame.header.kind == IPV6 {
        over_ip6(wire, frame, bytes)
    } else {
        over_ip(wire, frame, bytes)
    }
}

/// The tuple of a packet: of what stands at its front, its length on the wire, and its captured bytes.
/// A field whose header isn't present is 0. It depends on the first 128 bytes alone, which hold all headers.
pub fn tuple_of(link: Link, wire: u32, bytes: &[u8]) -> Tuple
    ensures fields { result ≡ tuple link wire bytes.now }
    ensures each { (field : Field) → slice_index result (number_of field) ≡ field_of link wire bytes.now field }
    ensures front { result ≡ tuple link wire (take 128 bytes.now) }
    ensures widths { (field : Field) → slice_index result (number_of field) < 2 ^ width_of field }
{
    let frame = link_part(link, bytes);
    after_link(wire, frame, bytes)
}
