//! Texts of prices with one fault each.
use sn_prices_text::fault::PricesFault;
use sn_prices_text::fault::PricesFault::{Expected, Lex};
use sn_prices_text::parse;

fn fault(rt: &HostRuntime, text: &[u8], from: u64) -> Option<PricesFault> {
    if text.len() > 1000 {
        return None;
    }
    parse(rt.alloc(), text, from).err()
}

#[test]
fn names_the_first_fault_around_limits(rt: HostRuntime) {
    for (text, want) in [
        (b"".as_slice(), Expected { line: 1 }),
        (b"\n\n", Expected { line: 3 }),
        (b"Cost 6;", Expected { line: 1 }),
        (b"cost 18446744073709551616;", Lex { line: 1 }),
        (b"cost 6\nprices 1;", Expected { line: 2 }),
        (b"cost 6;\ntree", Expected { line: 2 }),
        (b"cost 6;\nlimit", Expected { line: 2 }),
        (b"cost 6; prices\n0;", Expected { line: 2 }),
        (b"cost 6; prices\n4294967296;", Expected { line: 2 }),
        (b"cost 6; prices 1\nlimit", Expected { line: 2 }),
        (b"cost 6; prices 1;\ndone", Expected { line: 2 }),
        (b"cost 6; prices 1;\n@", Lex { line: 2 }),
        (
            b"cost 6; prices 1; least\n18446744073709551616;",
            Lex { line: 2 },
        ),
        (b"cost 6; prices 1; least 6\ndone", Expected { line: 2 }),
        (b"cost 6; prices 1; least 6;\nlimit", Expected { line: 2 }),
        (
            b"cost 6; prices 1; least 6; done\ndone",
            Expected { line: 2 },
        ),
        (b"cost 6; prices 1; least 6; done;", Expected { line: 1 }),
        (b"cost 6; prices 1; least 6; done\n!", Lex { line: 2 }),
    ] {
        assert_eq!(rt; fault(&rt, text, 0), Some(want));
    }
}

#[test]
fn names_the_first_fault_of_a_limit(rt: HostRuntime) {
    for (text, want) in [
        (
            b"cost 6; prices 1; limit\nbits".as_slice(),
            Expected { line: 2 },
        ),
        (b"cost 6; prices 1; limit stages\n32", Expected { line: 2 }),
        (
            b"cost 6; prices 1; limit stages 1\ndivisor",
            Expected { line: 2 },
        ),
        (
            b"cost 6; prices 1; limit stages 1,\n0",
            Expected { line: 2 },
        ),
        (
            b"cost 6; prices 1; limit stages 1,\n32",
            Expected { line: 2 },
        ),
        (
            b"cost 6; prices 1; limit stages 1, 2\nprice",
            Expected { line: 2 },
        ),
        (
            b"cost 6; prices 1; limit stages 1, 2 bits\n4294967296",
            Expected { line: 2 },
        ),
        (
            b"cost 6; prices 1; limit stages 1, 2 bits 1\ndivisor",
            Expected { line: 2 },
        ),
        (
            b"cost 6; prices 1; limit stages 1, 2 bits 1 plus\n4294967296",
            Expected { line: 2 },
        ),
        (
            b"cost 6; prices 1; limit stages 1, 2 divisor\n0",
            Expected { line: 2 },
        ),
        (
            b"cost 6; prices 1; limit stages 1, 2 divisor\n4294967296",
            Expected { line: 2 },
        ),
        (
            b"cost 6; prices 1; limit stages 1, 2 divisor 1\n;",
            Expected { line: 2 },
        ),
        (
            b"cost 6; prices 1; limit stages 1, 2 divisor 1 price\n4294967296",
            Expected { line: 2 },
        ),
        (
            b"cost 6; prices 1; limit stages 1, 2 divisor 1 price 1\nlimit",
            Expected { line: 2 },
        ),
        (
            b"cost 6; prices 1; limit meta\nbits 1 plus 1",
            Expected { line: 2 },
        ),
        (
            b"cost 6; prices 1; limit meta divisor\n0",
            Expected { line: 2 },
        ),
        (b"cost 6; prices 1; limit meta 1", Expected { line: 1 }),
    ] {
        assert_eq!(rt; fault(&rt, text, 0), Some(want));
    }
}

#[test]
fn counts_the_lines_of_the_whole_text(rt: HostRuntime) {
    // A plan without a cost: its end is the fault.
    let plan = b"plan\nquery b path 0;\npiece 0 0 cut 0;\n";
    assert_eq!(rt; fault(&rt, plan, 38), Some(Expected { line: 4 }));
    let cost = b"plan\nquery b path 0;\npiece 0 0 cut 0;\ncost 6;\n";
    assert_eq!(rt; fault(&rt, cost, 38), Some(Expected { line: 5 }));
    // What stands before the byte isn't looked at.
    assert_eq!(rt;
        fault(&rt, b"; ;\n;cost 6;\nprices 1; least 6; done", 5),
        None
    );
}
