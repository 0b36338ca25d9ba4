//! One field of a packet.
ghost use Rattle.std.specs.Prelude.{◌≡◌, ◌<◌, ◌^◌, option_map};
ghost use Rattle.sn_base.specs.declared.link.Link.TheVariants as Link;
ghost use Rattle.sn_fields.specs.declared.field.Field.TheVariants as Field;
ghost use Rattle.sn_fields.specs.Fields.{with_name};
ghost use Rattle.sn_fields.specs.Tuples.{field_of};

use sn_base::link::Link;
use sn_fields::field::{Field, field_named};
use sn_fields::tuple::tuple_of;

/// The destination port of a packet of Ethernet, 0 where it has no TCP header.
#[tactic(auto, unfolding(sn_fields::specs::Fields::row_of))]
pub fn tcp_port(wire: u32, bytes: &[u8]) -> u128
    ensures value { result ≡ field_of Link.Ethernet wire bytes.now Field.TcpDestinationPort }
    ensures small { result < 2 ^ 16 }
{
    tuple_of(Link::Ethernet, wire, bytes).get(Field::TcpDestinationPort)
}

/// The number that a packet has for a field by its name, as `ip.src`. `None` where no field has this name.
pub fn number_named(link: Link, wire: u32, bytes: &[u8], name: &[u8]) -> Option<u128>
    ensures { result ≡ option_map (field_of link wire bytes.now) (with_name name.now) }
{
    match field_named(name) {
        Some(field) => Some(tuple_of(link, wire, bytes).get(field)),
        None => None,
    }
}
