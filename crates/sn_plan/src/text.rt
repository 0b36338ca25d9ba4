//! The plan of a text.
ghost use Rattle.std.specs.Prelude.{◌≡◌, ◌≤◌, ◌^◌, ℕ, length, IfOk, IfErr};
ghost use Rattle.sn_text_rules.specs.Rules.{kept};
ghost use Rattle.sn_text_rules.specs.Words.{judged_by};
ghost use Rattle.sn_text.specs.Cutting.{tokens_of};
ghost use Rattle.sn_text.specs.Lexing.{left, seen};
ghost use Rattle.sn_plan_grammar.specs.declared.plan.Plan.{Plan};
ghost use Rattle.sn_plan_grammar.specs.Grammar.{cost_in, end_in, any_end};
ghost use Rattle.sn_plan.specs.Reading.{Ends, ReadsPlan};
ghost use Rattle.sn_plan.specs.Texts.{StandsFor, IsFault, IsValue, fault_of, Answers};
ghost use Rattle.sn_text_rules.specs.Tokens.{first_line};

use crate::entries::plan;
use crate::fault::PlanFault;
use crate::plan::Plan;
use sn_text::place::{Lexer, Piece};
use sn_text::scan::scan;
use sn_text::stop::Stop;
use sn_text::words::{is_the_word, wrong_of};
use sn_text_rules::Flaw;
use std::alloc::Global;

/// Whether a plan ends here, and then whether a cost follows.
fn end_of(piece: Piece<'_>) -> Result<bool, Flaw>
    ensures { result ≡ judged_by any_end kept (seen piece.entry) (end_in (seen piece.entry)) }
{
    match piece {
        Piece::End => Ok(false),
        Piece::Word(word) => {
            if word == b"cost".as_slice() {
                Ok(true)
            } else {
                Err(Flaw::Expected)
            }
        }
        _ => Err(wrong_of(piece)),
    }
}

/// The byte where the end of a plan begins.
#[tactic(auto, using(crate::proofs::Plans::end_gives, crate::proofs::Plans::end_halts))]
fn end_at<'a>(at: Lexer<'a>) -> Result<u32, Stop<'a>>
    ensures { Ends result (left at.entry) }
{
    let (found, _) = scan(at);
    match end_of(found.piece) {
        Ok(_) => Ok(found.start),
        Err(flaw) => Err(Stop::Fault(flaw, at)),
    }
}

#[tactic(auto, using(crate::proofs::Plans::plan_halts, crate::proofs::Plans::ending_halts))]
fn read<'a>(alloc: Global, at: Lexer<'a>) -> Result<(Plan, u32), Stop<'a>>
    ensures { ReadsPlan result (left at.entry) }
{
    let (plan, rest) = plan(alloc, at)?;
    match end_at(rest) {
        Ok(byte) => Ok((plan, byte)),
        Err(stop) => Err(stop),
    }
}

fn fault(flaw: Flaw, line: u32) -> PlanFault
    ensures { result ≡ fault_of flaw line }
{
    match flaw {
        Flaw::Lex => PlanFault::Lex { line },
        // No other fault is reported of a plan text: a name, number or list past its limit is one that can't stand there.
        _ => PlanFault::Expected { line },
    }
}

/// The line of the next token.
fn line_at(at: Lexer<'_>) -> u32
    ensures { result ≡ first_line (left at.entry) }
{
    let (found, _) = scan(at);
    found.line
}

fn answer(stop: Stop<'_>) -> PlanFault
    ensures { Answers stop.entry result }
{
    match stop {
        Stop::NoMemory => PlanFault::Memory,
        Stop::Fault(flaw, at) => fault(flaw, line_at(at)),
    }
}

/// The plan that the text stands for, or the first fault of the text.
///
/// The number is the byte, from 0, where the word `cost` or the end of the text stands; what follows `cost` isn't looked
/// at. The text has at most 2^30 bytes.
///
/// # Errors
/// `Memory` where memory runs out, and else what is wrong with the first token with which no plan text goes on.
pub fn parse(alloc: Global, text: &[u8]) -> Result<(Plan, u64), PlanFault>
    requires { length text.now ≤ 2 ^ 30 }
    // What is read is what the text stands for.
    ensures found { IfOk result (λ x. StandsFor (tokens_of text.now) x.0 x.1) }
    // What the text stands for is read, unless memory runs out.
    ensures only { (plan : Plan) (byte : ℕ) → StandsFor (tokens_of text.now) plan byte → IsValue plan byte result }
    // Else the first fault.
    ensures fault { IfErr result (λ e. IsFault (tokens_of text.now) e) }
{
    match read(alloc, Lexer::new(text)) {
        Ok((plan, byte)) => Ok((plan, u64::from(byte))),
        Err(stop) => Err(answer(stop)),
    }
}
