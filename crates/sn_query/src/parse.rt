//! The whole text.
ghost use Rattle.std.specs.Prelude.{◌≡◌, ◌≤◌, ◌^◌, length, IfOk, IfErr};
ghost use Rattle.sn_text_rules.specs.Rules.{kept, Accepts};
ghost use Rattle.sn_text.specs.Cutting.{tokens_of};
ghost use Rattle.sn_text.specs.Lexing.{left};
ghost use Rattle.sn_text.specs.Reading.{ReadsAll};
ghost use Rattle.sn_query_grammar.specs.declared.ast.QueryFile.{QueryFile};
ghost use Rattle.sn_query_grammar.specs.Grammar.{file_rule};
ghost use Rattle.sn_query_grammar.specs.Limits.{KeepsLimits};
ghost use Rattle.sn_query.specs.Texts.{shown, IsFault, IsFile};

use crate::fault::ParseFault;
use crate::queries::queries;
use sn_query_grammar::ast::QueryFile;
use sn_text::place::Lexer;
use sn_text::scan::scan;
use sn_text::stop::Stop;
use sn_text::words::{end, number, word};
use sn_text_rules::Flaw;
use std::alloc::Global;

#[tactic(auto, unfolding(sn_query_grammar::specs::Grammar::file_rule))]
fn file<'a>(alloc: Global, at: Lexer<'a>) -> Result<QueryFile, Stop<'a>>
    ensures { ReadsAll result (file_rule.read kept (left at.entry)) }
{
    let rest = word(at, b"window")?;
    let (window_us, rest) = number(rest, 1, 3600000000)?;
    let (queries, rest) = queries(alloc, rest)?;
    end(rest)?;
    Ok(QueryFile { window_us, queries })
}

fn fault_of(flaw: Flaw, line: u32, column: u32) -> ParseFault
    ensures { result ≡ shown flaw line column }
{
    match flaw {
        Flaw::Lex => ParseFault::Lex { line, column },
        Flaw::TooMany => ParseFault::TooMany { line, column },
        Flaw::Twice => ParseFault::Twice { line, column },
        Flaw::Expected | Flaw::Range | Flaw::Missing => ParseFault::Expected { line, column },
    }
}

/// The file that a query text stands for, or the first fault of the text.
///
/// Each refusal but for being out of memory carries the line and the column, in bytes, of the token at fault.
pub fn parse(alloc: Global, text: &[u8]) -> Result<QueryFile, ParseFault>
    requires { length text.now ≤ 2 ^ 30 }
    // What is read is accepted: the text stands for it.
    ensures found { IfOk result (λ file. Accepts file_rule (tokens_of text.now) file) }
    // It keeps the limits that the check of types asks for.
    ensures limits { IfOk result KeepsLimits }
    // What is accepted is read, unless memory runs out.
    ensures only { (file : QueryFile) → Accepts file_rule (tokens_of text.now) file → IsFile file result }
    // Else the first fault.
    ensures fault { IfErr result (λ e. IsFault (tokens_of text.now) e) }
{
    match file(alloc, Lexer::new(text)) {
        Ok(file) => Ok(file),
        Err(Stop::NoMemory) => Err(ParseFault::Memory),
        Err(Stop::Fault(flaw, at)) => {
            let (found, _) = scan(at);
            Err(fault_of(flaw, found.line, found.column))
        }
    }
}
