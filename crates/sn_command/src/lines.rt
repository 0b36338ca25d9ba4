//! The line on the error output. It is printed piece by piece, since it also says that memory is out. Each function answers
//! whether all that it prints went out.
ghost use Rattle.std.specs.Prelude.{◌≡◌, List, [], ◌∷◌, ◌++◌, codes};
ghost use Rattle.std.specs.Fmt.{decimal};
ghost use Rattle.sn_command.specs.Desks.{sunk};
ghost use Rattle.sn_command.specs.Ends.{end_line, IsReported};
ghost use Rattle.sn_command.specs.Lines.{query_kind, text_kind, misfit_kind, tree_kind, report_kind, head_words, fault_line, line_of};
ghost use Rattle.sn_command.specs.Reported.{Tells};

use crate::fault::{Fault, ReportFault, Spent, TextFault, TreeFlaw, TreeKind};
use crate::kinds::{misfit_kind, query_kind, report_kind, text_kind, tree_kind};
use crate::pieces::{Piece, tell_pieces, tell_text};
use crate::refusal::Refusal;
use sn_io::sink::Sink;
use sn_pcap::header::HeadFault;
use sn_plan_fit::misfit::{Misfit, MisfitKind};
use sn_types_read::fault::QueryFault;

/// What is said of a file that has no header of a capture.
fn head_words(fault: HeadFault) -> &'static [u8]
    ensures { result.now ≡ head_words fault }
{
    match fault {
        HeadFault::Short => b"sonata: capture Short byte 0",
        HeadFault::Magic => b"sonata: capture Magic byte 0",
        HeadFault::Version => b"sonata: capture Version byte 4",
        HeadFault::Link => b"sonata: capture Link byte 20",
    }
}

/// Prints the line `WORDS`.
fn tell_words<E: Sink>(words: &[u8], err: &mut E) -> bool
    ensures { Tells (words.now ++ 10 ∷ []) result (sunk E.Sink err.old) (sunk E.Sink err.new) }
{
    tell_pieces(&[Piece::Text(words), Piece::Text(b"\n")], err)
}

/// Prints the line `WORDS file NUMBER`, on one of several captures.
fn tell_file<E: Sink>(words: &[u8], file: u64, err: &mut E) -> bool
    ensures { Tells (words.now ++ codes " file " ++ decimal file ++ 10 ∷ []) result (sunk E.Sink err.old) (sunk E.Sink err.new) }
{
    tell_pieces(
        &[
            Piece::Text(words),
            Piece::Text(b" file "),
            Piece::Number(file),
            Piece::Text(b"\n"),
        ],
        err,
    )
}

/// Prints the line `WORDS NUMBER file NUMBER`, on a byte of one of several captures.
fn tell_byte_of<E: Sink>(words: &[u8], byte: u64, file: u64, err: &mut E) -> bool
    ensures { Tells (words.now ++ decimal byte ++ codes " file " ++ decimal file ++ 10 ∷ []) result (sunk E.Sink err.old) (sunk E.Sink err.new) }
{
    tell_two_numbers(words, byte, b" file ", file, err)
}

/// Prints the line `WORDS NUMBER`.
fn tell_byte<E: Sink>(words: &[u8], byte: u64, err: &mut E) -> bool
    ensures { Tells (words.now ++ decimal byte ++ 10 ∷ []) result (sunk E.Sink err.old) (sunk E.Sink err.new) }
{
    tell_pieces(
        &[Piece::Text(words), Piece::Number(byte), Piece::Text(b"\n")],
        err,
    )
}

/// Prints the line `WORDS KIND PLACE NUMBER`: what is refused, why, and where.
fn tell_place<'x, E: Sink>(
    words: &'x [u8],
    kind: &'x [u8],
    place: &'x [u8],
    number: u64,
    err: &mut E,
) -> bool
    ensures { Tells (words.now ++ kind.now ++ place.now ++ decimal number ++ 10 ∷ []) result (sunk E.Sink err.old) (sunk E.Sink err.new) }
{
    tell_pieces(
        &[
            Piece::Text(words),
            Piece::Text(kind),
            Piece::Text(place),
            Piece::Number(number),
            Piece::Text(b"\n"),
        ],
        err,
    )
}

/// Prints the line on a query file that is refused.
fn tell_queries<E: Sink>(fault: QueryFault, err: &mut E) -> bool
    ensures { Tells (codes "sonata: queries " ++ query_kind fault.kind ++ codes " line " ++ decimal fault.line ++ 10 ∷ [])
        result (sunk E.Sink err.old) (sunk E.Sink err.new) }
{
    let kind = query_kind(fault.kind);
    tell_place(
        b"sonata: queries ",
        kind,
        b" line ",
        u64::from(fault.line),
        err,
    )
}

/// Prints the line on a switch, plan or tree text that is refused. The words say which.
fn tell_text_fault<E: Sink>(words: &[u8], fault: TextFault, err: &mut E) -> bool
    ensures { Tells (words.now ++ text_kind fault.kind ++ codes " line " ++ decimal fault.line ++ 10 ∷ [])
        result (sunk E.Sink err.old) (sunk E.Sink err.new) }
{
    let kind = text_kind(fault.kind);
    tell_place(words, kind, b" line ", u64::from(fault.line), err)
}

/// Prints the line on report frames that are refused.
fn tell_reports<E: Sink>(fault: ReportFault, err: &mut E) -> bool
    ensures { Tells (codes "sonata: reports " ++ report_kind fault.kind ++ codes " byte " ++ decimal fault.at ++ 10 ∷ [])
        result (sunk E.Sink err.old) (sunk E.Sink err.new) }
{
    let kind = report_kind(fault.kind);
    tell_place(b"sonata: reports ", kind, b" byte ", fault.at, err)
}

/// Prints how a line ends that says what was wanted and what was found.
fn tell_want_and_got<E: Sink>(want: u64, got: u64, err: &mut E) -> bool
    ensures { Tells (decimal want ++ codes " got " ++ decimal got ++ 10 ∷ []) result (sunk E.Sink err.old) (sunk E.Sink err.new) }
{
    tell_pieces(
        &[
            Piece::Number(want),
            Piece::Text(b" got "),
            Piece::Number(got),
            Piece::Text(b"\n"),
        ],
        err,
    )
}

/// Prints how the line on a plan that doesn't fit begins, up to the two numbers.
fn tell_check<E: Sink>(kind: MisfitKind, err: &mut E) -> bool
    ensures { Tells (codes "sonata: plan " ++ misfit_kind kind ++ codes " want ") result (sunk E.Sink err.old) (sunk E.Sink err.new) }
{
    tell_pieces(
        &[
            Piece::Text(b"sonata: plan "),
            Piece::Text(misfit_kind(kind)),
            Piece::Text(b" want "),
        ],
        err,
    )
}

/// Prints the line on a plan that doesn't fit: the check that it fails, and the two numbers that were compared.
fn tell_misfit<E: Sink>(misfit: Misfit, err: &mut E) -> bool
    ensures { Tells ((codes "sonata: plan " ++ misfit_kind misfit.kind ++ codes " want ") ++
        (decimal misfit.want ++ codes " got " ++ decimal misfit.got ++ 10 ∷ [])) result (sunk E.Sink err.old) (sunk E.Sink err.new) }
{
    if !tell_check(misfit.kind, err) {
        return false;
    }
    tell_want_and_got(misfit.want, misfit.got, err)
}

/// Prints how a line begins that says what is refused, why, and where, up to the words after the place.
fn tell_start<'x, E: Sink>(
    words: &'x [u8],
    kind: &'x [u8],
    place: &'x [u8],
    number: u64,
    after: &'x [u8],
    err: &mut E,
) -> bool
    ensures { Tells (words.now ++ kind.now ++ place.now ++ decimal number ++ after.now) result (sunk E.Sink err.old) (sunk E.Sink err.new) }
{
    tell_pieces(
        &[
            Piece::Text(words),
            Piece::Text(kind),
            Piece::Text(place),
            Piece::Number(number),
            Piece::Text(after),
        ],
        err,
    )
}

/// Prints how the line on a tree that shows too little begins, up to the two numbers.
fn tell_node<E: Sink>(kind: TreeKind, node: u64, err: &mut E) -> bool
    ensures { Tells (codes "sonata: tree " ++ tree_kind kind ++ codes " node " ++ decimal node ++ codes " want ")
        result (sunk E.Sink err.old) (sunk E.Sink err.new) }
{
    let kind = tree_kind(kind);
    tell_start(b"sonata: tree ", kind, b" node ", node, b" want ", err)
}

/// Prints the line on a tree that shows too little: what it lacks, at which node, and the two numbers that were compared.
fn tell_flaw<E: Sink>(flaw: TreeFlaw, err: &mut E) -> bool
    ensures { Tells ((codes "sonata: tree " ++ tree_kind flaw.kind ++ codes " node " ++ decimal flaw.node ++ codes " want ") ++
        (decimal flaw.want ++ codes " got " ++ decimal flaw.got ++ 10 ∷ [])) result (sunk E.Sink err.old) (sunk E.Sink err.new) }
{
    if !tell_node(flaw.kind, flaw.node, err) {
        return false;
    }
    tell_want_and_got(flaw.want, flaw.got, err)
}

/// Prints the line `WORDS NUMBER WORDS NUMBER`.
fn tell_two_numbers<'x, E: Sink>(
    words: &'x [u8],
    first: u64,
    between: &'x [u8],
    second: u64,
    err: &mut E,
) -> bool
    ensures { Tells (words.now ++ decimal first ++ between.now ++ decimal second ++ 10 ∷ []) result (sunk E.Sink err.old) (sunk E.Sink err.new) }
{
    tell_pieces(
        &[
            Piece::Text(words),
            Piece::Number(first),
            Piece::Text(between),
            Piece::Number(second),
            Piece::Text(b"\n"),
        ],
        err,
    )
}

/// Prints the line on a search that used up its nodes.
fn tell_spent<E: Sink>(spent: Spent, err: &mut E) -> bool
    ensures { Tells (codes "sonata: budget " ++ decimal spent.nodes ++ codes " bound " ++ decimal spent.bound ++ 10 ∷ [])
        result (sunk E.Sink err.old) (sunk E.Sink err.new) }
{
    let nodes = u64::from(spent.nodes);
    tell_two_numbers(b"sonata: budget ", nodes, b" bound ", spent.bound, err)
}

/// Prints the line on what was refused.
fn tell_fault<E: Sink>(fault: Fault, err: &mut E) -> bool
    ensures { Tells (fault_line fault) result (sunk E.Sink err.old) (sunk E.Sink err.new) }
{
    match fault {
        Fault::Queries(fault) => tell_queries(fault, err),
        Fault::Switch(fault) => tell_text_fault(b"sonata: switch ", fault, err),
        Fault::Head(fault) => tell_words(head_words(fault), err),
        Fault::Cut(at) => tell_byte(b"sonata: capture Cut byte ", at, err),
        Fault::Bad(at) => tell_byte(b"sonata: capture Bad byte ", at, err),
        Fault::HeadOf { fault, file } => tell_file(head_words(fault), file, err),
        Fault::CutOf { at, file } => tell_byte_of(b"sonata: capture Cut byte ", at, file, err),
        Fault::BadOf { at, file } => tell_byte_of(b"sonata: capture Bad byte ", at, file, err),
        Fault::Plan(fault) => tell_text_fault(b"sonata: plan ", fault, err),
        Fault::Misfit(misfit) => tell_misfit(misfit, err),
        Fault::Tree(fault) => tell_text_fault(b"sonata: tree ", fault, err),
        Fault::Unshown(flaw) => tell_flaw(flaw, err),
        Fault::Budget(spent) => tell_spent(spent, err),
        Fault::Reports(fault) => tell_reports(fault, err),
        Fault::TooLarge => tell_text(b"sonata: too large\n", err),
    }
}

/// Prints the line on why a command ended without what was asked.
fn tell_refusal<E: Sink>(refusal: Refusal, err: &mut E) -> bool
    ensures { Tells (line_of refusal) result (sunk E.Sink err.old) (sunk E.Sink err.new) }
{
    match refusal {
        Refusal::Memory => tell_text(b"sonata: memory\n", err),
        Refusal::Usage => tell_text(b"sonata: usage\n", err),
        Refusal::Missing | Refusal::ReadFault => tell_text(b"sonata: read fault\n", err),
        Refusal::WriteFault => tell_text(b"sonata: write fault\n", err),
        Refusal::Refused(fault) => tell_fault(fault, err),
    }
}

/// Prints the line on an answer, piece by piece, without memory. After a piece that failed nothing more is printed.
pub fn tell<E: Sink>(answer: Result<(), Refusal>, err: &mut E)
    ensures { IsReported (end_line answer) (sunk E.Sink err.old) (sunk E.Sink err.new) }
{
    match answer {
        Ok(()) => {}
        Err(refusal) => {
            tell_refusal(refusal, err);
        }
    }
}
