//! Refusals: their statuses, and the lines that are reported of them.
use sn_command::fault::{
    Fault, ReportFault, ReportKind, Spent, TextFault, TextKind, TreeFlaw, TreeKind,
};
use sn_command::lines::tell;
use sn_command::refusal::Refusal;
use sn_io::mem_sink::MemSink;
use sn_pcap::header::HeadFault;
use sn_plan_fit::misfit::{Misfit, MisfitKind};
use sn_test_inputs::trouble::Trouble;
use sn_types_read::fault::{Kind, QueryFault};
use std::alloc::Global;
use std::process::Abort;

/// What no file says.
const PLAIN: [(Refusal, u8, &str); 5] = [
    (Refusal::Memory, 1, "memory"),
    (Refusal::Usage, 2, "usage"),
    (Refusal::Missing, 9, "read fault"),
    (Refusal::ReadFault, 9, "read fault"),
    (Refusal::WriteFault, 10, "write fault"),
];

/// Faults of files, and a budget that is spent.
const FAULTS: [(Fault, u8, &str); 13] = [
    (
        Fault::Queries(QueryFault {
            kind: Kind::UnknownField,
            line: 2,
        }),
        3,
        "queries UnknownField line 2",
    ),
    (
        Fault::Switch(TextFault {
            kind: TextKind::Missing,
            line: 1,
        }),
        4,
        "switch Missing line 1",
    ),
    (Fault::Head(HeadFault::Link), 5, "capture Link byte 20"),
    (Fault::Cut(164), 5, "capture Cut byte 164"),
    (Fault::Bad(24), 5, "capture Bad byte 24"),
    (
        Fault::HeadOf {
            fault: HeadFault::Magic,
            file: 2,
        },
        5,
        "capture Magic byte 0 file 2",
    ),
    (
        Fault::CutOf { at: 164, file: 1 },
        5,
        "capture Cut byte 164 file 1",
    ),
    (
        Fault::BadOf { at: 24, file: 8 },
        5,
        "capture Bad byte 24 file 8",
    ),
    (
        Fault::Plan(TextFault {
            kind: TextKind::Expected,
            line: 4_294_967_295,
        }),
        6,
        "plan Expected line 4294967295",
    ),
    (
        Fault::Misfit(Misfit {
            kind: MisfitKind::Bits,
            want: 48,
            got: 49,
        }),
        6,
        "plan Bits want 48 got 49",
    ),
    (
        Fault::Tree(TextFault {
            kind: TextKind::Expected,
            line: 3,
        }),
        7,
        "tree Expected line 3",
    ),
    (
        Fault::Budget(Spent { nodes: 5, bound: 4 }),
        8,
        "budget 5 bound 4",
    ),
    (Fault::TooLarge, 12, "too large"),
];

/// Flaws of a tree at its node 2, which wants 8 and has 9.
const FLAWS: [(TreeKind, &str); 5] = [
    (TreeKind::Cost, "tree Cost node 2 want 8 got 9"),
    (TreeKind::Shape, "tree Shape node 2 want 8 got 9"),
    (TreeKind::Bound, "tree Bound node 2 want 8 got 9"),
    (TreeKind::NotBroken, "tree NotBroken node 2 want 8 got 9"),
    (TreeKind::NoPlan, "tree NoPlan node 2 want 8 got 9"),
];

/// Faults of reports at byte 48.
const REPORTS: [(ReportKind, &str); 7] = [
    (ReportKind::Bad, "reports Bad byte 48"),
    (ReportKind::Cut, "reports Cut byte 48"),
    (ReportKind::Stranger, "reports Stranger byte 48"),
    (ReportKind::Width, "reports Width byte 48"),
    (ReportKind::AfterEnd, "reports AfterEnd byte 48"),
    (ReportKind::Window, "reports Window byte 48"),
    (ReportKind::Unfinished, "reports Unfinished byte 48"),
];

/// Asks for the status of a refusal, and for its line.
fn expect_reported(
    rt: &impl Abort,
    alloc: Global,
    refusal: Refusal,
    status: u8,
    line: &str,
) -> Result<(), Trouble> {
    let wanted = format!(in alloc; "sonata: {line}\n")?;
    let mut err = MemSink::new(alloc, 100)?;
    tell(Err(refusal), &mut err);
    assert_eq!(rt; err.bytes(), wanted.as_bytes(), "of {line}");
    assert_eq!(rt; refusal.status(), status, "of {line}");
    Ok(())
}

#[test]
fn tells_what_no_file_says(rt: HostRuntime) {
    let alloc = rt.alloc();
    let mut err = MemSink::new(alloc, 100).expect(&rt, "ample memory");
    tell(Ok(()), &mut err);
    assert_eq!(rt; err.bytes(), b"".as_slice());
    for (refusal, status, line) in PLAIN {
        assert!(rt; expect_reported(&rt, alloc, refusal, status, line).is_ok());
    }
}

#[test]
fn tells_faults(rt: HostRuntime) {
    for (fault, status, line) in FAULTS {
        assert!(rt;
            expect_reported(&rt, rt.alloc(), Refusal::Refused(fault), status, line).is_ok()
        );
    }
}

#[test]
fn tells_flaws_of_trees(rt: HostRuntime) {
    for (kind, line) in FLAWS {
        let flaw = TreeFlaw {
            kind,
            node: 2,
            want: 8,
            got: 9,
        };
        let refusal = Refusal::Refused(Fault::Unshown(flaw));
        assert!(rt; expect_reported(&rt, rt.alloc(), refusal, 7, line).is_ok());
    }
}

#[test]
fn tells_faults_of_reports(rt: HostRuntime) {
    for (kind, line) in REPORTS {
        let fault = ReportFault { kind, at: 48 };
        let refusal = Refusal::Refused(Fault::Reports(fault));
        assert!(rt; expect_reported(&rt, rt.alloc(), refusal, 11, line).is_ok());
    }
}
