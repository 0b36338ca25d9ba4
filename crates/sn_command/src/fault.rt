//! Why the work of a command is refused, over the files that it reads.
ghost use Rattle.std.specs.Prelude.{◌≡◌};

use sn_pcap::header::HeadFault;
use sn_plan_fit::misfit::Misfit;
use sn_types_read::fault::QueryFault;

/// What is wrong with a switch, plan or tree text.
#[derive(Clone, Copy, Debug, PartialEq, Eq)]
pub enum TextKind {
    /// No token begins here, or a number is past 64 bits.
    Lex,
    /// No such text goes on with this token.
    Expected,
    /// The number is out of its range.
    Range,
    /// The item stands a second time.
    Twice,
    /// The text ends before every item has come.
    Missing,
}

/// The first fault of a switch, plan or tree text, and its line, from 1.
#[derive(Clone, Copy, Debug, PartialEq, Eq)]
pub struct TextFault {
    pub kind: TextKind,
    pub line: u32,
}

/// What a tree of bounds lacks that would show that no plan costs less.
#[derive(Clone, Copy, Debug, PartialEq, Eq)]
pub enum TreeKind {
    /// The cost isn't the plan's.
    Cost,
    /// A node is missing, one is too many, or one can't stand at its place.
    Shape,
    /// A node's number isn't the lower bound, or the bound is below the plan's cost.
    Bound,
    /// What a node calls broken isn't.
    NotBroken,
    /// No node is the plan.
    NoPlan,
}

/// The first fault of a tree of bounds: the node, counted from 0 in preorder, and the number that is wanted with the
/// one that stands there.
#[derive(Clone, Copy, Debug, PartialEq, Eq)]
pub struct TreeFlaw {
    pub kind: TreeKind,
    pub node: u64,
    pub want: u64,
    pub got: u64,
}

/// A search that used up its nodes: how many it had, and a number below which no plan costs.
#[derive(Clone, Copy, Debug, PartialEq, Eq)]
pub struct Spent {
    pub nodes: u32,
    pub bound: u64,
}

/// What is wrong with report frames.
#[derive(Clone, Copy, Debug, PartialEq, Eq)]
pub enum ReportKind {
    /// No frame has this byte here.
    Bad,
    /// The reports end within a frame.
    Cut,
    /// The frame's lane is no piece of the plan, or its tag isn't one of the lane.
    Stranger,
    /// The row isn't of the columns of its tag.
    Width,
    /// The lane has ended.
    AfterEnd,
    /// The window isn't above the last one, or differs from that of another lane.
    Window,
    /// The reports end before each lane has ended.
    Unfinished,
}

/// The first fault of report frames, and the byte at which it stands, from 0.
#[derive(Clone, Copy, Debug, PartialEq, Eq)]
pub struct ReportFault {
    pub kind: ReportKind,
    pub at: u64,
}

/// Why the work of a command is refused, over the files that it reads.
#[derive(Clone, Copy, Debug, PartialEq, Eq)]
pub enum Fault {
    /// The query file is refused.
    Queries(QueryFault),
    /// The switch text is refused.
    Switch(TextFault),
    /// The header of a capture is refused.
    Head(HeadFault),
    /// The answered capture ends within the record that begins at this byte.
    Cut(u64),
    /// The record of the answered capture that begins at this byte can't be one.
    Bad(u64),
    /// The header of one of several captures is refused.
    HeadOf {
        fault: HeadFault,
        /// Which capture it is, from 1.
        file: u64,
    },
    /// One of several captures ends within the record that begins at this byte.
    CutOf {
        at: u64,
        /// Which capture it is, from 1.
        file: u64,
    },
    /// The record of one of several captures that begins at this byte can't be one.
    BadOf {
        at: u64,
        /// Which capture it is, from 1.
        file: u64,
    },
    /// The plan text is refused.
    Plan(TextFault),
    /// The plan doesn't fit.
    Misfit(Misfit),
    /// The cost and the tree, as a text, are refused.
    Tree(TextFault),
    /// The tree doesn't show that the plan costs least.
    Unshown(TreeFlaw),
    /// The search used up its nodes.
    Budget(Spent),
    /// The report frames aren't whole windows of the plan's.
    Reports(ReportFault),
    /// A file has too many bytes, or a window too many records.
    TooLarge,
}

impl Fault {
    ghost use Rattle.sn_command.specs.Faults.{fault_status};

    /// The exit status.
    pub fn status(self) -> u8
        ensures { result ≡ fault_status self }
    {
        match self {
            Fault::Queries(_) => 3,
            Fault::Switch(_) => 4,
            Fault::Head(_) | Fault::Cut(_) | Fault::Bad(_) => 5,
            Fault::HeadOf { .. } | Fault::CutOf { .. } | Fault::BadOf { .. } => 5,
            Fault::Plan(_) | Fault::Misfit(_) => 6,
            Fault::Tree(_) | Fault::Unshown(_) => 7,
            Fault::Budget(_) => 8,
            Fault::Reports(_) => 11,
            Fault::TooLarge => 12,
        }
    }
}
