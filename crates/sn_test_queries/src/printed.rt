//! Texts as they are printed again: query texts, and plan texts after `plan: `.
use sn_base::seq::Seq;
use sn_query::parse::parse;
use sn_query::print::print;
use sn_test_inputs::case::Case;
use std::alloc::Global;
use std::process::Abort;

const TEXTS: &str =
    "window 1000000 query q { refine ip.dst: 8, 32; packets | map ip.dst as d, 1 as n | reduce d: sum(n) width 16 | filter n > 1; }
= window 1000000
= query q {
=   refine ip.dst: 8, 32;
=   packets
=     | map ip.dst as d, 1 as n
=     | reduce d: sum(n) width 16
=     | filter n > 1;
= }

window 0x10 query a{packets|filter tcp.flags&0x12==2,ip.ttl!=0;}query b{packets|filter ip.src<10.0.0.5|filter ip.len<=40|filter ip.len>40,ip.len>=0;}
= window 16
= query a {
=   packets
=     | filter tcp.flags & 18 == 2, ip.ttl != 0;
= }
= query b {
=   packets
=     | filter ip.src < 167772165
=     | filter ip.len <= 40
=     | filter ip.len > 40, ip.len >= 0;
= }

window 1 query q { refine ip.src: 8, 16, 32; packets | map ip.src as d, ip.dst & 3 as m, ip.len >> 3 as l, 007 as k, ip.ttl as n | distinct | filter n & 3 > 40 at (8: 100, 16: 60), n < 2 at (32: 1); }
= window 1
= query q {
=   refine ip.src: 8, 16, 32;
=   packets
=     | map ip.src as d, ip.dst & 3 as m, ip.len >> 3 as l, 7 as k, ip.ttl as n
=     | distinct
=     | filter n & 3 > 40 at (8: 100, 16: 60), n < 2 at (32: 1);
= }

window 3600000000 query q { packets | map ip.dst as d, ip.src as s, 1 as n | reduce d, s: max(n); packets | map ip.dst as d, ip.src as s, 1 as m | reduce s, d: or(m); join d, s; } # the end
= window 3600000000
= query q {
=   packets
=     | map ip.dst as d, ip.src as s, 1 as n
=     | reduce d, s: max(n);
=   packets
=     | map ip.dst as d, ip.src as s, 1 as m
=     | reduce s, d: or(m);
=   join d, s;
= }

window 1 query q { packets | map ip.dst as d, 1 as a | reduce d: min(a); packets | map ip.dst as d, 2 as b; join d | map d as d, a + b as c, a * 10 / b as r, d & 255 as e, d >> 8 as f, 5 as g | filter c > 1, r & 1 == 0; }
= window 1
= query q {
=   packets
=     | map ip.dst as d, 1 as a
=     | reduce d: min(a);
=   packets
=     | map ip.dst as d, 2 as b;
=   join d
=     | map d as d, a + b as c, a * 10 / b as r, d & 255 as e, d >> 8 as f, 5 as g
=     | filter c > 1, r & 1 == 0;
= }

plan: plan query q path 0;piece 0 0 cut 2 slots 1 stages 1;query r path 0x8,16;piece 8 0 cut 0;piece 16 1 cut 5 slots 256,1 stages 1,2,4,5; cost @
= plan
= query q path 0;
= piece 0 0 cut 2 slots 1 stages 1;
= query r path 8, 16;
= piece 8 0 cut 0;
= piece 16 1 cut 5 slots 256, 1 stages 1, 2, 4, 5;";

/// A query text as it is printed again. `None` where it isn't read.
fn query_again(alloc: Global, text: &[u8]) -> Option<Seq<u8>> {
    if text.len() > 1000 {
        return None;
    }
    match parse(alloc, text) {
        Ok(file) => print(alloc, &file).ok(),
        Err(_) => None,
    }
}

/// A plan text as it is printed again. `None` where it isn't read.
fn plan_again(alloc: Global, text: &[u8]) -> Option<Seq<u8>> {
    if text.len() > 1000 {
        return None;
    }
    match sn_plan::parse(alloc, text) {
        Ok((plan, _)) => sn_plan::print(alloc, &plan).ok(),
        Err(_) => None,
    }
}

fn expect_printed(rt: &impl Abort, alloc: Global, lines: &str) {
    let case = Case::read(alloc, lines).expect(rt, "a case");
    let printed = if case.plan.is_empty() {
        query_again(alloc, case.text.as_str().as_bytes())
    } else {
        plan_again(alloc, case.plan.as_str().as_bytes())
    };
    let printed = printed.expect(rt, "a text");
    assert_eq!(rt;
        printed.as_slice(),
        case.wanted.as_str().as_bytes(),
        "of {lines}"
    );
}

#[test]
fn prints_texts_again(rt: HostRuntime) {
    for lines in TEXTS.split("\n\n") {
        expect_printed(&rt, rt.alloc(), lines);
    }
}

#[test]
fn prints_lines(rt: HostRuntime) {
    let text =
        b"window 1000000\nquery q { refine ip.dst: 8, 32; packets | map ip.dst as d, 1 as n | reduce d: sum(n) width 16 | filter n > 1; }";
    let want =
        b"window 1000000\nquery q {\n  refine ip.dst: 8, 32;\n  packets\n    | map ip.dst as d, 1 as n\n    | reduce d: sum(n) width 16\n    | filter n > 1;\n}\n";
    let printed = query_again(rt.alloc(), text);
    assert!(rt; printed.is_some_and(|printed| printed.as_slice() == want.as_slice()));
}
