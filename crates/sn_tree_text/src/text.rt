//! The cost and the tree of a text.
ghost use Rattle.std.specs.Prelude.{◌≡◌, ◌≤◌, ◌^◌, ℕ, List, length, IfOk, IfErr};
ghost use Rattle.sn_text.specs.Cutting.{tokens_of};
ghost use Rattle.sn_text.specs.Lexing.{left};
ghost use Rattle.sn_tree_space.specs.declared.node.Node.{Node};
ghost use Rattle.sn_tree_text.specs.Places.{from_byte};
ghost use Rattle.sn_tree_text.specs.Texts.{StandsFor, IsFault, IsValue, fault_of, Answers};
ghost use Rattle.sn_text_rules.specs.Tokens.{first_line};

use crate::fault::TextFault;
use crate::found::Found;
use crate::nodes::read;
use crate::place::lexer_at;
use sn_text::place::Lexer;
use sn_text::scan::scan;
use sn_text::stop::Stop;
use sn_text_rules::Flaw;

fn fault(flaw: Flaw, line: u32) -> TextFault
    ensures { result ≡ fault_of flaw line }
{
    match flaw {
        Flaw::Lex => TextFault::Lex { line },
        // No other fault is reported of a tree text: it has no limit.
        _ => TextFault::Expected { line },
    }
}

/// The line of the next token.
fn line_at(at: Lexer<'_>) -> u32
    ensures { result ≡ first_line (left at.entry) }
{
    let (found, _) = scan(at);
    found.line
}

fn answer(stop: Stop<'_>) -> TextFault
    ensures { Answers stop.entry result }
{
    match stop {
        Stop::NoMemory => TextFault::Memory,
        Stop::Fault(flaw, at) => fault(flaw, line_at(at)),
    }
}

/// The cost and the tree for which a text stands from a byte on, or the first fault there.
///
/// `from` is the byte, from 0, where the word `cost` stands, as the reader of a plan gives it. What stands before it isn't
/// read here, but lines are counted from the front of the text. The text has at most 2^30 bytes.
///
/// # Errors
/// `Memory` where memory runs out, and else what is wrong with the first token with which no text of a cost and a tree goes on.
/// Where the text ends in place of the word `cost`, that is its end.
pub fn parse<'a>(text: &'a [u8], from: u64) -> Result<Found<'a>, TextFault>
    requires { length text.now ≤ 2 ^ 30 }
    // What is read is what the text stands for.
    ensures found { IfOk result (λ x. StandsFor (from_byte from (tokens_of text.entry.now)) x.0 x.1) }
    // What the text stands for is read, unless memory runs out.
    ensures only { (cost : ℕ) (nodes : List Node) → StandsFor (from_byte from (tokens_of text.entry.now)) cost nodes → IsValue cost nodes result }
    // Else the first fault.
    ensures fault { IfErr result (λ e. IsFault (from_byte from (tokens_of text.entry.now)) e) }
{
    match read(lexer_at(text, from)) {
        Ok(found) => Ok(found),
        Err(stop) => Err(answer(stop)),
    }
}
