//! A text of one line, `port N;`.
ghost use Rattle.std.specs.Prelude.{◌≤◌, ◌^◌, length, codes, IfOk};
ghost use Rattle.sn_text_rules.specs.Rules.{kept};
ghost use Rattle.sn_text_rules.specs.Words.{keyword, number_in, ◌▸◌};
ghost use Rattle.sn_text.specs.Cutting.{tokens_of};
ghost use Rattle.sn_text.specs.Lexing.{left};
ghost use Rattle.sn_text.specs.Answers.{IsNext};
ghost use Rattle.sn_text.specs.Reading.{Reads};

use sn_text::lexer::{LexFault, Token};
use sn_text::place::Lexer;
use sn_text::stop::Stop;
use sn_text::words::{number, word};

/// The first token of a text, with its line and column; a fault where none begins.
pub fn first_token(text: &[u8]) -> Result<Token, LexFault>
    requires { length text.now ≤ 2 ^ 30 }
    ensures { IfOk result (λ token. IsNext token (tokens_of text.now)) }
{
    let mut lexer = Lexer::new(text);
    lexer.next()
}

/// `port N` with N from 1 to 65535: the number and the place after it, or the first fault and where it stands.
pub fn port<'a>(at: Lexer<'a>) -> Result<(u64, Lexer<'a>), Stop<'a>>
    ensures { Reads result ((keyword (codes "port") ▸ number_in 1 65535).read kept (left at.entry)) }
{
    let rest = word(at, b"port")?;
    let (number, rest) = number(rest, 1, 65535)?;
    Ok((number, rest))
}
