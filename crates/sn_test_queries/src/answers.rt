//! Whole queries on the tuples of a few packets.
ghost use Rattle.std.specs.Prelude.{◌≡◌, ◌<◌, length, nat_eq};
ghost use Rattle.std.specs.List.{list_any};
ghost use Rattle.sn_types.specs.Typed.{query_at};

use crate::checked::typed;
use crate::operators::row;
use sn_base::link::Link;
use sn_base::members::Members;
use sn_base::row_list::RowList;
use sn_base::row_seq::RowSeq;
use sn_base::short_row::ShortRow;
use sn_fields::tuple::{Tuple, tuple_of};
use sn_ops::lists::{branch_list, plain_list};
use sn_ops::packets::{Kept, packet_rows};
use sn_types::typed::Typed;

/// A TCP SYN from 10.0.0.0 to 10.0.0.0.
const SYN: [u8; 54] = [
    2, 0, 0, 0, 0, 2, 2, 0, 0, 0, 0, 1, 8, 0, //
    0x45, 0, 0, 0x28, 0, 0, 0, 0, 0x40, 6, 0, 0, 10, 0, 0, 0, 10, 0, 0, 0, //
    4, 0, 0, 0x50, 0, 0, 0, 0, 0, 0, 0, 0, 0x50, 2, 0, 0, 0, 0, 0, 0,
];

/// The number of 10.0.0.0.
const NET: u64 = 167772160;

/// The tuple of a SYN from 10.0.0.s to 10.0.0.d.
fn syn(source: u8, destination: u8) -> Tuple {
    let mut bytes = SYN;
    bytes[29] = source;
    bytes[33] = destination;
    tuple_of(Link::Ethernet, 54, &bytes)
}

/// How many packets go to each destination.
const COUNTED: &[u8] =
    b"window 1000000 query q { packets | map ip.dst as d, 1 as n | reduce d: sum(n) width 16; }";

/// The same at two levels.
const REFINED: &[u8] =
    b"window 1000000 query q { refine ip.dst: 8, 32; packets | map ip.dst as d, 1 as n | reduce d: sum(n) width 16; }";

/// The same, beside each source of the packets.
const JOINED: &[u8] =
    b"window 1000000 query q { packets | map ip.dst as d, 1 as n | reduce d: sum(n) width 16; packets | map ip.dst as d, ip.src as s | distinct; join d; }";

fn has_level(t: &Typed, q: u32, level: u32) -> bool
    requires { q < length t.now.queries }
    ensures { result ≡ list_any (nat_eq level) (query_at t.now.queries q).levels }
{
    t.levels(q).iter().any(|other| level == *other)
}

/// Two SYNs to 10.0.0.1, two to 10.0.0.2 and one to 10.0.0.3, all from 10.0.0.1.
fn five() -> [Tuple; 5] {
    [syn(1, 1), syn(1, 2), syn(1, 1), syn(1, 2), syn(1, 3)]
}

/// The rows of a list, if they are short.
fn short(list: RowList) -> Option<RowSeq<ShortRow>> {
    match list {
        RowList::Short(rows) => Some(rows),
        RowList::Wide(_) => None,
    }
}

#[test]
fn counts_by_destination(rt: HostRuntime) {
    let alloc = rt.alloc();
    let t = typed(alloc, COUNTED).expect(&rt, "typed queries");
    assert_eq!(rt; t.queries(), 1);
    assert_eq!(rt; t.branches(0), 1);
    assert!(rt; has_level(&t, 0, 0));
    assert!(rt; !t.is_wide(0, 0));
    let packets: RowSeq<ShortRow> = packet_rows(alloc, &t, 0, 0, 0, None, &five()).expect(
        &rt,
        "ample memory",
    );
    assert_eq!(rt; packets.as_slice().len(), 5);
    assert_eq!(rt; packets.as_slice()[4], row(&[NET + 3]));
    let counts = short(branch_list(alloc, &t, 0, 0, 0, None, &five()).expect(
        &rt,
        "ample memory",
    )).expect(&rt, "short rows");
    assert_eq!(rt;
        counts.as_slice(),
        [row(&[NET + 1, 2]), row(&[NET + 2, 2]), row(&[NET + 3, 1])].as_slice()
    );
}

#[test]
fn answers_a_refined_query(rt: HostRuntime) {
    let alloc = rt.alloc();
    let t = typed(alloc, REFINED).expect(&rt, "typed queries");
    assert_eq!(rt; t.queries(), 1);
    assert!(rt; t.refine_field(0).is_some());
    assert!(rt; has_level(&t, 0, 8));
    assert!(rt; has_level(&t, 0, 32));
    let first = short(plain_list(alloc, &t, 0, 8, None, &five()).expect(
        &rt,
        "ample memory",
    )).expect(&rt, "short rows");
    assert_eq!(rt; first.as_slice(), [row(&[NET, 5])].as_slice());
    let mut members = Members::new(alloc);
    assert!(rt; members.add(u128::from(NET)).is_ok());
    let kept = Kept {
        members: &members,
        bits: 8,
    };
    let second = short(plain_list(alloc, &t, 0, 32, Some(kept), &five()).expect(
        &rt,
        "ample memory",
    )).expect(&rt, "short rows");
    assert_eq!(rt; second.as_slice().len(), 3);
    let none = Members::new(alloc);
    let kept = Kept {
        members: &none,
        bits: 8,
    };
    let third = short(plain_list(alloc, &t, 0, 32, Some(kept), &five()).expect(
        &rt,
        "ample memory",
    )).expect(&rt, "short rows");
    assert_eq!(rt; third.as_slice().len(), 0);
}

#[test]
fn joins_two_branches(rt: HostRuntime) {
    let alloc = rt.alloc();
    let t = typed(alloc, JOINED).expect(&rt, "typed queries");
    assert_eq!(rt; t.queries(), 1);
    assert!(rt; has_level(&t, 0, 0));
    let tuples = [syn(1, 1), syn(2, 1), syn(2, 1), syn(1, 2)];
    let rows = short(plain_list(alloc, &t, 0, 0, None, &tuples).expect(&rt, "ample memory")).expect(
        &rt,
        "short rows",
    );
    assert_eq!(rt;
        rows.as_slice(),
        [
            row(&[NET + 1, 3, NET + 1]),
            row(&[NET + 1, 3, NET + 2]),
            row(&[NET + 2, 1, NET + 1]),
        ]
        .as_slice()
    );
}
