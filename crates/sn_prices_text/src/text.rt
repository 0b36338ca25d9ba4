//! The cost, the prices and what they show, of a text.
ghost use Rattle.std.specs.Prelude.{◌≡◌, ◌≤◌, ◌^◌, ℕ, length, IfOk, IfErr};
ghost use Rattle.sn_text.specs.Cutting.{tokens_of};
ghost use Rattle.sn_text.specs.Lexing.{left};
ghost use Rattle.sn_text_rules.specs.Tokens.{first_line};
ghost use Rattle.sn_tree_text.specs.Places.{from_byte};
ghost use Rattle.sn_prices_grammar.specs.declared.prices.Shown.{Shown};
ghost use Rattle.sn_prices_text.specs.PricesTexts.{StandsFor, IsFault, IsValue, fault_of, Answers};

use crate::fault::PricesFault;
use crate::limits::read;
use sn_prices_grammar::prices::Shown;
use sn_text::place::Lexer;
use sn_text::scan::scan;
use sn_text::stop::Stop;
use sn_text_rules::Flaw;
use sn_tree_text::place::lexer_at;
use std::alloc::Global;

fn fault(flaw: Flaw, line: u32) -> PricesFault
    ensures { result ≡ fault_of flaw line }
{
    match flaw {
        Flaw::Lex => PricesFault::Lex { line },
        // No other fault is reported of a text of prices: a number out of its range is one that can't stand there.
        _ => PricesFault::Expected { line },
    }
}

/// The line of the next token.
fn line_at(at: Lexer<'_>) -> u32
    ensures { result ≡ first_line (left at.entry) }
{
    let (found, _) = scan(at);
    found.line
}

fn answer(stop: Stop<'_>) -> PricesFault
    ensures { Answers stop.entry result }
{
    match stop {
        Stop::NoMemory => PricesFault::Memory,
        Stop::Fault(flaw, at) => fault(flaw, line_at(at)),
    }
}

/// The cost, the prices and what they show, for which a text stands from a byte on, or the first fault there.
///
/// `from` is the byte, from 0, where the word `cost` stands, as the reader of a plan gives it. What stands before it isn't
/// read here, but lines are counted from the front of the text. The text has at most 2^30 bytes.
///
/// # Errors
/// `Memory` where memory runs out, and else what is wrong with the first token with which no text of a cost and prices goes on.
/// Where the text ends before `cost`, the fault is at its end.
pub fn parse(alloc: Global, text: &[u8], from: u64) -> Result<Shown, PricesFault>
    requires { length text.now ≤ 2 ^ 30 }
    // What is read is what the text stands for.
    ensures found { IfOk result (λ x. StandsFor (from_byte from (tokens_of text.now)) x) }
    // What the text stands for is read, unless memory runs out.
    ensures only { (x : Shown) → StandsFor (from_byte from (tokens_of text.now)) x → IsValue x result }
    // Else the first fault.
    ensures fault { IfErr result (λ e. IsFault (from_byte from (tokens_of text.now)) e) }
    ensures few { IfOk result (λ x. length x.prices.limits ≤ 64) }
{
    match read(alloc, lexer_at(text, from)) {
        Ok(shown) => Ok(shown),
        Err(stop) => Err(answer(stop)),
    }
}
