//! Numbers as tokens, and bytes that begin no token.
use sn_text::lexer::{Kind, LexFault, Token};
use sn_text::place::Lexer;

fn first(text: &[u8]) -> Result<Token, LexFault> {
    if text.len() > 1000 {
        return Err(LexFault { line: 0, column: 0 });
    }
    let mut lexer = Lexer::new(text);
    lexer.next()
}

#[test]
fn reads_numbers(rt: HostRuntime) {
    for (text, want) in [
        (b"007".as_slice(), 7),
        (b"0x1F", 31),
        (b"0x00000000000000000001", 1),
        (b"18446744073709551615", 18446744073709551615),
        (b"10.0.0.9", 167772169),
        (b"01.002.003.4", 16909060),
    ] {
        assert_eq!(rt; first(text).map(|token| token.kind), Ok(Kind::Number(want)));
    }
}

#[test]
fn refuses_other_bytes(rt: HostRuntime) {
    for text in [
        b"0x".as_slice(),
        b"0X1f",
        b"18446744073709551616",
        b"1.2.3.256",
        b"1.2.3",
        b"12ab",
        b".a",
        b"=",
        b"-",
        b"\xff",
    ] {
        assert_eq!(rt; first(text), Err(LexFault { line: 1, column: 1 }));
    }
}
