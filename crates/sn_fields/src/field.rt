//! The table of the fields.
ghost use Rattle.std.specs.Prelude.{◌≡◌, ◌≢◌, ◌<◌, ◌↔◌, Some, IfSome, IsNone, find, length, map, nat_eq};
ghost use Rattle.std.specs.Cmp.Lexicographic.{pointwise};
ghost use Rattle.sn_fields.specs.declared.field.Field.{Field};
ghost use Rattle.sn_fields.specs.Fields.{rows, number_of, name_of, with_name, width_of, is_address};

/// A field of packets. A field whose header isn't present in a packet is 0 there.
#[derive(Clone, Copy, Debug, PartialEq, Eq)]
pub enum Field {
    /// How many bytes the packet had on the wire.
    PacketLength,
    /// The destination address of Ethernet.
    EthernetDestination,
    /// The source address of Ethernet.
    EthernetSource,
    /// The type of what the link header carries, after tags if there are any.
    EthernetType,
    /// The VLAN id of the first tag (IEEE 802.1Q).
    VlanId,
    /// 1 where a header of IPv4 is present (RFC 791).
    IpValid,
    /// The total length of IPv4.
    IpLength,
    /// The time to live of IPv4.
    IpTimeToLive,
    /// The protocol of IPv4.
    IpProtocol,
    /// The source address of IPv4.
    IpSource,
    /// The destination address of IPv4.
    IpDestination,
    /// 1 where a header of TCP is present (RFC 9293).
    TcpValid,
    /// The source port of TCP.
    TcpSourcePort,
    /// The destination port of TCP.
    TcpDestinationPort,
    /// The sequence number of TCP.
    TcpSequence,
    /// The acknowledgment number of TCP.
    TcpAcknowledgment,
    /// The control bits of TCP, FIN the lowest.
    TcpFlags,
    /// 1 where a header of UDP is present (RFC 768).
    UdpValid,
    /// The source port of UDP.
    UdpSourcePort,
    /// The destination port of UDP.
    UdpDestinationPort,
    /// The length of UDP.
    UdpLength,
    /// 1 where a header of ICMP is present (RFC 792).
    IcmpValid,
    /// The type of ICMP.
    IcmpType,
    /// The code of ICMP.
    IcmpCode,
    /// 1 where a header of IPv6 is present (RFC 8200).
    Ip6Valid,
    /// The payload length of IPv6.
    Ip6PayloadLength,
    /// The next header of IPv6.
    Ip6NextHeader,
    /// The hop limit of IPv6.
    Ip6HopLimit,
    /// The source address of IPv6.
    Ip6Source,
    /// The destination address of IPv6.
    Ip6Destination,
}

/// What the numbers of a field are.
#[derive(Clone, Copy, Debug, PartialEq, Eq)]
pub enum Meaning {
    /// Numbers, and nothing else.
    Number,
    /// Addresses of the network layer, which have prefixes.
    Address,
}

/// A row of the table: a field, its name in query texts, its width in bits, and what its numbers are.
pub type FieldRow = (Field, &'static [u8], u32, Meaning);

/// The table of the fields, in the order of the variants, which are their numbers. Each number of a field is below 2 to
/// its width. Definitions and proofs read this table too.
pub const FIELDS: [FieldRow; 30] = [
    (Field::PacketLength, b"pkt.len", 32, Meaning::Number),
    (Field::EthernetDestination, b"eth.dst", 48, Meaning::Number),
    (Field::EthernetSource, b"eth.src", 48, Meaning::Number),
    (Field::EthernetType, b"eth.type", 16, Meaning::Number),
    (Field::VlanId, b"vlan.id", 12, Meaning::Number),
    (Field::IpValid, b"ip.valid", 1, Meaning::Number),
    (Field::IpLength, b"ip.len", 16, Meaning::Number),
    (Field::IpTimeToLive, b"ip.ttl", 8, Meaning::Number),
    (Field::IpProtocol, b"ip.proto", 8, Meaning::Number),
    (Field::IpSource, b"ip.src", 32, Meaning::Address),
    (Field::IpDestination, b"ip.dst", 32, Meaning::Address),
    (Field::TcpValid, b"tcp.valid", 1, Meaning::Number),
    (Field::TcpSourcePort, b"tcp.sport", 16, Meaning::Number),
    (Field::TcpDestinationPort, b"tcp.dport", 16, Meaning::Number),
    (Field::TcpSequence, b"tcp.seq", 32, Meaning::Number),
    (Field::TcpAcknowledgment, b"tcp.ack", 32, Meaning::Number),
    (Field::TcpFlags, b"tcp.flags", 8, Meaning::Number),
    (Field::UdpValid, b"udp.valid", 1, Meaning::Number),
    (Field::UdpSourcePort, b"udp.sport", 16, Meaning::Number),
    (Field::UdpDestinationPort, b"udp.dport", 16, Meaning::Number),
    (Field::UdpLength, b"udp.len", 16, Meaning::Number),
    (Field::IcmpValid, b"icmp.valid", 1, Meaning::Number),
    (Field::IcmpType, b"icmp.type", 8, Meaning::Number),
    (Field::IcmpCode, b"icmp.code", 8, Meaning::Number),
    (Field::Ip6Valid, b"ip6.valid", 1, Meaning::Number),
    (Field::Ip6PayloadLength, b"ip6.plen", 16, Meaning::Number),
    (Field::Ip6NextHeader, b"ip6.next", 8, Meaning::Number),
    (Field::Ip6HopLimit, b"ip6.hops", 8, Meaning::Number),
    (Field::Ip6Source, b"ip6.src", 128, Meaning::Address),
    (Field::Ip6Destination, b"ip6.dst", 128, Meaning::Address),
];

/// The rows of the table. It stands apart for the proof of `width`, which looks at the widths alone.
fn table() -> &'static [FieldRow]
    ensures count { length result.now ≡ 30 }
    ensures widths { map (λ row. row.2) result.now ≡ map (λ row. row.width) rows }
{
    &FIELDS
}

impl Field {
    /// The number of the field: its place in the table, from 0.
    pub fn number(self) -> usize
        ensures number { result ≡ number_of self }
        ensures below { result < 30 }
    {
        self as usize
    }

    /// The name of the field in query texts.
    #[tactic(auto, unfolding(crate::specs::Fields::row_of))]
    pub fn name(self) -> &'static [u8]
        ensures { result.now ≡ name_of self }
    {
        FIELDS[self.number()].1
    }

    /// The width of the field in bits.
    pub fn width(self) -> u32
        ensures { result ≡ width_of self }
    {
        table()[self.number()].2
    }

    /// Whether the numbers of the field are addresses of the network layer.
    #[tactic(auto, unfolding(crate::specs::Fields::row_of))]
    pub fn is_address(self) -> bool
        ensures { result ≡ is_address self }
    {
        matches!(FIELDS[self.number()].3, Meaning::Address)
    }
}

/// The first field of these rows that has a name.
fn first_named(rows: &[FieldRow], name: &[u8]) -> Option<Field>
    ensures found { result ≡ find (λ f. pointwise nat_eq (name_of f) name.now) (map (λ row. row.0) rows.now) }
    ensures named { IfSome result (λ field. name_of field ≡ name.now) }
{
    for row in rows {
        if row.0.name() == name {
            return Some(row.0);
        }
    }
    None
}

/// The field of a name. `None` exactly where no field has it.
pub fn field_named(name: &[u8]) -> Option<Field>
    ensures found { result ≡ with_name name.now }
    ensures named { IfSome result (λ field. name_of field ≡ name.now) }
    ensures all { (field : Field) → name_of field ≡ name.now → result ≡ Some field }
    ensures none { IsNone result ↔ ((field : Field) → name_of field ≢ name.now) }
{
    first_named(&FIELDS, name)
}
