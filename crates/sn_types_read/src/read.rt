//! A query file read.
ghost use Rattle.std.specs.Prelude.{◌≡◌, ◌≤◌, ◌^◌, length, IfOk, IfErr};
ghost use Rattle.sn_types_read.specs.Texts.{text_fault, type_fault, StandsFor, IsRefusedFor};

use crate::fault::{Kind, QueryFault, Refused};
use sn_query::fault::ParseFault;
use sn_query::parse::parse;
use sn_types::check::check;
use sn_types::typed::Typed;
use sn_types_faults::fault::TypeFault;
use std::alloc::Global;

fn text_refused(fault: ParseFault) -> Refused
    ensures { result ≡ text_fault fault }
{
    match fault {
        ParseFault::Lex { line, .. } => Refused::Fault(QueryFault {
            kind: Kind::Lex,
            line,
        }),
        ParseFault::Expected { line, .. } => Refused::Fault(QueryFault {
            kind: Kind::Expected,
            line,
        }),
        ParseFault::TooMany { line, .. } => Refused::Fault(QueryFault {
            kind: Kind::TooMany,
            line,
        }),
        ParseFault::Twice { line, .. } => Refused::Fault(QueryFault {
            kind: Kind::Twice,
            line,
        }),
        ParseFault::Memory => Refused::Memory,
    }
}

fn type_refused(fault: TypeFault) -> Refused
    ensures { result ≡ type_fault fault }
{
    let (kind, line) = match fault {
        TypeFault::UnknownField { line } => (Kind::UnknownField, line),
        TypeFault::UnknownColumn { line } => (Kind::UnknownColumn, line),
        TypeFault::TooWide { line } => (Kind::TooWide, line),
        TypeFault::NoMap { line } => (Kind::NoMap, line),
        TypeFault::RefineLost { line } => (Kind::RefineLost, line),
        TypeFault::RefineFilter { line } => (Kind::RefineFilter, line),
        TypeFault::Levels { line } => (Kind::Levels, line),
        TypeFault::JoinKeys { line } => (Kind::JoinKeys, line),
        TypeFault::Memory => return Refused::Memory,
    };
    Refused::Fault(QueryFault { kind, line })
}

/// The queries for which a text stands: it is accepted by the grammar, and its file is well typed.
///
/// A fault is the first of the text, or else that of the first place of the file that has one.
pub fn read(alloc: Global, text: &[u8]) -> Result<Typed, Refused>
    requires { length text.now ≤ 2 ^ 30 }
    ensures found { IfOk result (λ typed. StandsFor text.now typed.window_us typed.queries) }
    ensures refused { IfErr result (λ refused. IsRefusedFor text.now refused) }
{
    let file = match parse(alloc, text) {
        Ok(file) => file,
        Err(fault) => return Err(text_refused(fault)),
    };
    match check(alloc, file) {
        Ok(typed) => Ok(typed),
        Err(fault) => Err(type_refused(fault)),
    }
}
