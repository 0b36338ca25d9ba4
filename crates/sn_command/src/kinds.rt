//! The names of the kinds of faults.
ghost use Rattle.std.specs.Prelude.{◌≡◌};
ghost use Rattle.sn_command.specs.Lines.{query_kind, text_kind, misfit_kind, tree_kind, report_kind};

use crate::fault::{ReportKind, TextKind, TreeKind};
use sn_plan_fit::misfit::MisfitKind;
use sn_types_read::fault::Kind;

/// The name of what is wrong with a query file.
pub(crate) fn query_kind(kind: Kind) -> &'static [u8]
    ensures { result.now ≡ query_kind kind }
{
    match kind {
        Kind::Lex => b"Lex",
        Kind::Expected => b"Expected",
        Kind::TooMany => b"TooMany",
        Kind::Twice => b"Twice",
        Kind::UnknownField => b"UnknownField",
        Kind::UnknownColumn => b"UnknownColumn",
        Kind::TooWide => b"TooWide",
        Kind::NoMap => b"NoMap",
        Kind::RefineLost => b"RefineLost",
        Kind::RefineFilter => b"RefineFilter",
        Kind::Levels => b"Levels",
        Kind::JoinKeys => b"JoinKeys",
    }
}

/// The name of what is wrong with a switch, plan or tree text.
pub(crate) fn text_kind(kind: TextKind) -> &'static [u8]
    ensures { result.now ≡ text_kind kind }
{
    match kind {
        TextKind::Lex => b"Lex",
        TextKind::Expected => b"Expected",
        TextKind::Range => b"Range",
        TextKind::Twice => b"Twice",
        TextKind::Missing => b"Missing",
    }
}

/// The name of the check that a plan fails.
pub(crate) fn misfit_kind(kind: MisfitKind) -> &'static [u8]
    ensures { result.now ≡ misfit_kind kind }
{
    match kind {
        MisfitKind::Path => b"Path",
        MisfitKind::Cut => b"Cut",
        MisfitKind::Slots => b"Slots",
        MisfitKind::Order => b"Order",
        MisfitKind::Stage => b"Stage",
        MisfitKind::Actions => b"Actions",
        MisfitKind::Bits => b"Bits",
        MisfitKind::Meta => b"Meta",
    }
}

/// The name of what a tree lacks.
pub(crate) fn tree_kind(kind: TreeKind) -> &'static [u8]
    ensures { result.now ≡ tree_kind kind }
{
    match kind {
        TreeKind::Cost => b"Cost",
        TreeKind::Shape => b"Shape",
        TreeKind::Bound => b"Bound",
        TreeKind::NotBroken => b"NotBroken",
        TreeKind::NoPlan => b"NoPlan",
    }
}

/// The name of what is wrong with report frames.
pub(crate) fn report_kind(kind: ReportKind) -> &'static [u8]
    ensures { result.now ≡ report_kind kind }
{
    match kind {
        ReportKind::Bad => b"Bad",
        ReportKind::Cut => b"Cut",
        ReportKind::Stranger => b"Stranger",
        ReportKind::Width => b"Width",
        ReportKind::AfterEnd => b"AfterEnd",
        ReportKind::Window => b"Window",
        ReportKind::Unfinished => b"Unfinished",
    }
}
