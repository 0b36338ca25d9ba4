//! Faults that are found in files that were parsed, and a file in which there are none.
use sn_query::parse::parse;
use sn_types::check::check;
use sn_types::typed::Typed;
use sn_types_faults::fault::TypeFault;
use sn_types_faults::widths::constant_width;
use std::alloc::Global;

/// What is found of a text that is parsed. `None` where it isn't.
fn checked(alloc: Global, text: &[u8]) -> Option<Result<Typed, TypeFault>> {
    if text.len() > 1024 {
        return None;
    }
    let Ok(file) = parse(alloc, text) else {
        return None;
    };
    Some(check(alloc, file))
}

/// The file of a text in which there is no fault.
pub(crate) fn typed(alloc: Global, text: &[u8]) -> Option<Typed> {
    checked(alloc, text)?.ok()
}

#[test]
fn finds_faults(rt: HostRuntime) {
    for (text, fault) in [
        (
            b"window 1000000\nquery q { packets | filter tcp.flag == 2; }".as_slice(),
            TypeFault::UnknownField { line: 2 },
        ),
        (
            b"window 1000000\nquery q { packets | map ip.dst as d | filter e == 1; }",
            TypeFault::UnknownColumn { line: 2 },
        ),
        (
            b"window 1000000\nquery q { packets | distinct; }",
            TypeFault::NoMap { line: 2 },
        ),
        (
            b"window 1000000\nquery q { packets | map ip.dst as d, ip.len as n | reduce d: sum(n) width 8; }",
            TypeFault::TooWide { line: 2 },
        ),
        (
            b"window 1000000\nquery q { refine ip.dst: 32, 8; packets | map ip.dst as d; }",
            TypeFault::Levels { line: 2 },
        ),
        (
            b"window 1000000\nquery q { refine ip.dst: 8, 32; packets | map ip.src as s; }",
            TypeFault::RefineLost { line: 2 },
        ),
        (
            b"window 1000000\nquery q { refine ip.dst: 8, 32; packets | filter ip.dst == 1 | map ip.dst as d; }",
            TypeFault::RefineFilter { line: 2 },
        ),
        (
            b"window 1000000\nquery q { packets | map ip.dst as d, 1 as n; packets | map ip.dst as d, 1 as n; join d; }",
            TypeFault::JoinKeys { line: 2 },
        ),
    ] {
        let found = checked(rt.alloc(), text).expect(&rt, "a query text");
        assert_eq!(rt; found.err(), Some(fault));
    }
}

#[test]
fn copies_a_checked_file(rt: HostRuntime) {
    let text =
        b"window 1000000\nquery q { refine ip.dst: 8, 32; packets | map ip.dst as d, 1 as n | reduce d: sum(n) width 16 | filter n > 1; }";
    let typed = typed(rt.alloc(), text)
        .expect(&rt, "typed queries")
        .copy()
        .expect(&rt, "ample memory");
    assert_eq!(rt; typed.queries(), 1);
    assert_eq!(rt; typed.levels(0), [8, 32].as_slice());
    assert_eq!(rt; typed.window_ns(), 1000000000);
}

/// The width of a constant is that of its binary digits, of which 0 has one.
#[test]
fn counts_binary_digits(rt: HostRuntime) {
    for (number, width) in [(0, 1), (1, 1), (2, 2), (255, 8), (256, 9), (u64::MAX, 64)] {
        assert_eq!(rt; constant_width(number), width);
    }
}
