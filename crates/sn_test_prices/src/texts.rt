//! Texts of prices that are read and printed.
use sn_base::memory::Memory;
use sn_base::seq::Seq;
use sn_prices_grammar::prices::{Limit, MetaLimit, Mix, Shown, StageLimit};
use sn_prices_text::{parse, print};
use std::test::Fail;

/// A plan, its cost, prices and what they show.
const WHOLE: &[u8] =
    b"plan\nquery a path 0;\npiece 0 0 cut 0;\ncost 6;\nprices 2;\nlimit stages 1, 5 divisor 65537 price 32;\nlimit meta divisor 60 price 5;\nlimit stages 6, 6 bits 2 plus 10 divisor 100 price 1;\nleast 5;\ndone\n";

/// The byte where the word `cost` stands in it.
const COST: u64 = 38;

/// The lines from there on.
const LINES: &[u8] =
    b"cost 6;\nprices 2;\nlimit stages 1, 5 divisor 65537 price 32;\nlimit meta divisor 60 price 5;\nlimit stages 6, 6 bits 2 plus 10 divisor 100 price 1;\nleast 5;\ndone\n";

/// The cost, the prices and what they show, of a short text from a byte on.
fn read(rt: &HostRuntime, text: &[u8], from: u64) -> Option<Shown> {
    if text.len() > 5000 {
        return None;
    }
    parse(rt.alloc(), text, from).ok()
}

#[test]
fn reads_prices(rt: HostRuntime) {
    match read(&rt, WHOLE, COST) {
        None => assert!(rt; false),
        Some(shown) => {
            assert_eq!(rt; (shown.cost, shown.least), (6, 5));
            assert_eq!(rt; shown.prices.scale, 2);
            let limits = [
                Limit::Stages(StageLimit {
                    first: 1,
                    last: 5,
                    mix: None,
                    divisor: 65537,
                    price: 32,
                }),
                Limit::Meta(MetaLimit {
                    divisor: 60,
                    price: 5,
                }),
                Limit::Stages(StageLimit {
                    first: 6,
                    last: 6,
                    mix: Some(Mix { times: 2, plus: 10 }),
                    divisor: 100,
                    price: 1,
                }),
            ];
            assert_eq!(rt; shown.prices.limits.as_slice(), limits.as_slice());
        }
    }
}

#[test]
fn prints_prices(rt: HostRuntime) {
    match read(&rt, WHOLE, COST) {
        None => assert!(rt; false),
        Some(shown) => match print(rt.alloc(), &shown) {
            Err(_) => assert!(rt; false),
            Ok(lines) => assert_eq!(rt; lines.as_slice(), LINES),
        },
    }
}

#[test]
fn reads_other_layouts(rt: HostRuntime) {
    for text in [
        b"cost 6;prices 1;least 6;done".as_slice(),
        b"# front\n cost 0x6 ; prices 001 ; # a comment\r\n\tleast 6 ; done # after it",
        b"cost 6;\nprices 1;\nleast 6;\ndone\n#",
    ] {
        match read(&rt, text, 0) {
            None => assert!(rt; false),
            Some(shown) => {
                assert_eq!(rt; (shown.cost, shown.prices.scale, shown.least), (6, 1, 6));
                assert_eq!(rt; shown.prices.limits.as_slice().len(), 0);
            }
        }
    }
}

#[test]
fn reads_numbers_at_their_limits(rt: HostRuntime) {
    for text in [
        b"cost 18446744073709551615; prices 4294967295; least 18446744073709551615; done".as_slice(),
        b"cost 0; prices 1; least 0; done",
        b"cost 0; prices 1; limit stages 0, 0 bits 0 plus 0 divisor 1 price 0; least 0; done",
        b"cost 0; prices 1; limit stages 31, 31 bits 4294967295 plus 4294967295 divisor 4294967295 price 4294967295; least 0; done",
        b"cost 0; prices 1; limit stages 0, 31 divisor 1 price 0; least 0; done",
        b"cost 0; prices 1; limit meta divisor 4294967295 price 4294967295; least 0; done",
    ] {
        assert!(rt; read(&rt, text, 0).is_some());
    }
}

/// A text of this many limits.
fn with_limits(rt: &HostRuntime, count: u32) -> Result<Seq<u8>, Memory> {
    let mut text = Seq::new(rt.alloc());
    put(&mut text, b"cost 6; prices 1; ")?;
    for _ in 0..count {
        put(&mut text, b"limit meta divisor 1 price 1; ")?;
    }
    put(&mut text, b"least 6; done")?;
    Ok(text)
}

fn put(text: &mut Seq<u8>, bytes: &[u8]) -> Result<(), Memory> {
    for byte in bytes {
        text.push(*byte)?;
    }
    Ok(())
}

#[test]
fn reads_64_limits_and_no_more(rt: HostRuntime) -> Result<(), Fail> {
    match read(&rt, with_limits(&rt, 64)?.as_slice(), 0) {
        None => assert!(rt; false),
        Some(shown) => assert_eq!(rt; shown.prices.limits.as_slice().len(), 64),
    }
    assert!(rt; read(&rt, with_limits(&rt, 65)?.as_slice(), 0).is_none());
    Ok(())
}

#[test]
fn reads_no_front_of_a_text(rt: HostRuntime) {
    // But for the line's end a text needs each of its bytes.
    for end in 0..LINES.len() - 1 {
        assert!(rt; read(&rt, &LINES[..end], 0).is_none());
    }
    assert!(rt; read(&rt, &LINES[..LINES.len() - 1], 0).is_some());
}
