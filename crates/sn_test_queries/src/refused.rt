//! Texts that are refused, with lines and columns counted by hand, and texts that are read.
use sn_query::fault::ParseFault;
use sn_query::parse::parse;
use sn_types_read::fault::{Kind, QueryFault, Refused};
use sn_types_read::read::read;
use std::alloc::Global;

/// Why a text isn't parsed.
fn fault(alloc: Global, text: &[u8]) -> Option<ParseFault> {
    if text.len() > 1000 {
        return None;
    }
    match parse(alloc, text) {
        Ok(_) => None,
        Err(fault) => Some(fault),
    }
}

/// Why a text is refused.
fn refusal(alloc: Global, text: &[u8]) -> Option<Refused> {
    if text.len() > 1000 {
        return None;
    }
    match read(alloc, text) {
        Ok(_) => None,
        Err(refused) => Some(refused),
    }
}

#[test]
fn refuses_texts(rt: HostRuntime) {
    for (text, want) in [
        (
            b"window 1\nquery q { packets | filter tcp.flags @ 2; }".as_slice(),
            ParseFault::Lex {
                line: 2,
                column: 38,
            },
        ),
        (
            b"window 1\nquery q { packets | map ip.dst as d, ip.src as d; }",
            ParseFault::Twice {
                line: 2,
                column: 48,
            },
        ),
        (
            b"window 1\nquery q { packets | map 1 as c1, 1 as c2, 1 as c3, 1 as c4, 1 as c5, 1 as c6, 1 as c7, 1 as c8, 1 as c9; }",
            ParseFault::TooMany {
                line: 2,
                column: 97,
            },
        ),
        (
            b"window 0\nquery q { packets | distinct; }",
            ParseFault::Expected { line: 1, column: 8 },
        ),
    ] {
        assert_eq!(rt; fault(rt.alloc(), text), Some(want));
    }
}

#[test]
fn accepts_a_text(rt: HostRuntime) {
    let text =
        b"window 1000000\nquery q { refine ip.dst: 8, 32; packets | map ip.dst as d, 1 as n | reduce d: sum(n) width 16 | filter n > 1 at (8: 100); packets | map ip.dst as d, 007 as m; join d | map d as d, n * 10 / m as r, n + m as s; }";
    assert_eq!(rt; fault(rt.alloc(), text), None);
}

#[test]
fn tells_kinds_and_lines(rt: HostRuntime) {
    for (text, kind, line) in [
        (
            b"window 1000000\nquery q { packets | filter tcp.flag == 2; }".as_slice(),
            Kind::UnknownField,
            2,
        ),
        (
            b"window 1000000\nquery q {\n packets | distinct; }",
            Kind::NoMap,
            3,
        ),
        (
            b"window 1000000\nquery q { refine ip.dst: 32, 8; packets | map ip.dst as d; }",
            Kind::Levels,
            2,
        ),
        (
            b"window 1000000 query q { packets | map ip.dst as d, 1 as n | reduce d: sum(n) width 65; }",
            Kind::Expected,
            1,
        ),
        (
            b"window 1\nquery q { packets | map ip.dst as d, ip.src as d; }",
            Kind::Twice,
            2,
        ),
        (
            b"window 1\nquery q { packets | filter tcp.flags @ 2; }",
            Kind::Lex,
            2,
        ),
        (
            b"window 1\nquery q { packets | map 1 as c1, 1 as c2, 1 as c3, 1 as c4, 1 as c5, 1 as c6, 1 as c7, 1 as c8, 1 as c9; }",
            Kind::TooMany,
            2,
        ),
        (
            b"window 1\nquery q { packets | map ip.dst as d | filter e == 1; }",
            Kind::UnknownColumn,
            2,
        ),
        (
            b"window 1\nquery q { packets | map ip.dst as d, ip.len as n | reduce d: sum(n) width 8; }",
            Kind::TooWide,
            2,
        ),
        (
            b"window 1\nquery q { refine ip.dst: 8, 32; packets | map ip.src as s; }",
            Kind::RefineLost,
            2,
        ),
        (
            b"window 1\nquery q { refine ip.dst: 8; packets | filter ip.dst == 1 | map ip.dst as d; }",
            Kind::RefineFilter,
            2,
        ),
        (
            b"window 1\nquery q { packets | map ip.dst as d, 1 as n; packets | map ip.dst as d, 1 as n; join d; }",
            Kind::JoinKeys,
            2,
        ),
    ] {
        let found = refusal(rt.alloc(), text);
        assert!(rt; found == Some(Refused::Fault(QueryFault { kind, line })));
    }
}

#[test]
fn reads_a_text(rt: HostRuntime) {
    let text =
        b"window 1000000 query q { packets | map ip.dst as d, 1 as n | reduce d: sum(n) width 16; }";
    assert!(rt; read(rt.alloc(), text).is_ok());
}
