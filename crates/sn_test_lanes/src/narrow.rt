//! Conditions on fields asked of blocks of tuples, beside each tuple asked by itself.

use sn_base::link::Link;
use sn_base::memory::Memory;
use sn_fields::field::Field;
use sn_fields::tuple::{Tuple, tuple_of};
use sn_lanes_narrow::asked::Asked;
use sn_lanes_narrow::condition::Condition;
use sn_query_grammar::ast::Cmp;
use std::alloc::Global;
use std::test::Fail;

/// Lengths around the lanes of sixteen, and around the blocks in which tuples come to queries.
const LENGTHS: [usize; 11] = [0, 1, 7, 8, 9, 15, 16, 17, 16383, 16384, 16385];

const COMPARISONS: [Cmp; 6] = [Cmp::Eq, Cmp::Ne, Cmp::Lt, Cmp::Le, Cmp::Gt, Cmp::Ge];

/// Fields of 8, 12, 16, 32, 48 and 128 bits, each and-ed with a number and compared with a constant: some that no number of the field
/// reaches, and numbers to and with that have more bits than the field.
const ASKED: [(Field, u128, u64); 10] = [
    (Field::TcpFlags, u128::MAX, 2),
    (Field::TcpFlags, 0x102, 2),
    (Field::TcpFlags, u128::MAX, 256),
    (Field::VlanId, u128::MAX, 100),
    (Field::TcpDestinationPort, u128::MAX, 300),
    (Field::TcpDestinationPort, 0xff, 65536),
    (Field::IpSource, 0xff, 40),
    (Field::IpSource, u128::MAX, 1 << 40),
    (Field::EthernetSource, u128::MAX, 1),
    (Field::Ip6Source, u128::MAX, 0),
];

/// A packet of TCP in the VLAN 100, whose source address, destination port and flags follow a number.
fn packet(number: usize) -> Tuple {
    let [high, low] = ((number % 65536) as u16).to_be_bytes();
    let bytes = [
        0x02, 0x00, 0x00, 0x00, 0x00, 0x02, 0x00, 0x00, 0x00, 0x00, 0x00, 0x01, 0x81, 0x00, 0x00,
        0x64, 0x08, 0x00, 0x45, 0x00, 0x00, 0x28, 0x00, 0x00, 0x00, 0x00, 0x40, 0x06, 0x00, 0x00,
        0x0a, 0x00, high, low, 0x0a, 0x00, 0x00, 0x09, 0x04, 0x00, high, low, 0x00, 0x00, 0x00,
        0x00, 0x00, 0x00, 0x00, 0x00, 0x50, low, 0x00, 0x00, 0x00, 0x00, 0x00, 0x00,
    ];
    tuple_of(Link::Ethernet, 58, &bytes)
}

fn packets(alloc: Global, first: usize, count: usize) -> Result<Vec<Tuple>, Memory> {
    let mut tuples = Vec::new(alloc);
    for number in 0..count {
        tuples.push(packet(number.wrapping_mul(7).wrapping_add(first)))?;
    }
    Ok(tuples)
}

/// Whether a condition is asked of tuples as it is asked of each one, by what was asked of others before.
fn is_asked_as_each(
    asked: &mut Asked,
    condition: &Condition,
    tuples: &[Tuple],
) -> Result<bool, Memory> {
    asked.fill(tuples)?;
    asked.ask_all(&[*condition], tuples)?;
    let marks = asked.passed.as_slice();
    let same = marks
        .iter()
        .zip(tuples)
        .all(|(mark, tuple)| *mark == u8::from(condition.asks(tuple)));
    Ok(same && marks.len() == tuples.len())
}

#[test]
fn marks_blocks_of_any_length(rt: HostRuntime) -> Result<(), Fail> {
    let mut asked = Asked::new(rt.alloc());
    for length in LENGTHS {
        let tuples = packets(rt.alloc(), length, length)?;
        for (field, and, constant) in ASKED {
            for cmp in COMPARISONS {
                let condition = Condition {
                    field,
                    and,
                    cmp,
                    constant,
                };
                assert!(rt; is_asked_as_each(&mut asked, &condition, &tuples)?);
            }
        }
    }
    Ok(())
}

#[test]
fn keeps_what_passes_all(rt: HostRuntime) -> Result<(), Fail> {
    let tuples = packets(rt.alloc(), 0, 5)?;
    let mut asked = Asked::new(rt.alloc());
    asked.fill(&tuples)?;
    let least = Condition {
        field: Field::TcpDestinationPort,
        and: u128::MAX,
        cmp: Cmp::Ge,
        constant: 14,
    };
    let most = Condition {
        cmp: Cmp::Lt,
        constant: 28,
        ..least
    };
    asked.ask_all(&[least, most], &tuples)?;
    assert_eq!(rt; asked.passed.as_slice(), [0, 0, 1, 1, 0].as_slice());
    asked.ask_all(&[], &tuples)?;
    assert_eq!(rt; asked.passed.as_slice(), [1; 5].as_slice());
    Ok(())
}
