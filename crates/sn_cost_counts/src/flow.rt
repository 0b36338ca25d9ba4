//! Rows on their way through operators.
ghost use Rattle.std.specs.Prelude.{◌≡◌, ◌*◌, ◌+◌, ◌≤◌, length};
ghost use Rattle.sn_cost_counts.specs.Flows.{counted};
ghost use Rattle.sn_windows.specs.Blocks.{most_records};

use sn_base::any_row::AnyRow;
use sn_base::row_seq::RowSeq;

/// The rows of a window after some operators, and how many were sent before them. Contracts see any list of rows as what it
/// holds, so that those of either kind are the same to them.
#[derive(Drop)]
pub struct Flow<L> {
    /// How many rows overflowed on the way.
    pub sent: u64,
    /// The rows that came as far.
    pub rows: L,
    /// Whether a distinct on the way overflowed.
    pub spilled: bool,
    /// Whether no filter drops a row from here on.
    pub whole: bool,
}

/// Those whose rows are of a kind.
pub type FlowOf<R> = Flow<RowSeq<R>>;

impl<R: AnyRow> Flow<RowSeq<R>> {
    /// How many items are sent where the prefix ends here.
    pub(crate) fn count(&self) -> u64
        requires sent { self.now.sent ≤ 13 * most_records }
        requires few { length self.now.rows ≤ most_records }
        ensures { result ≡ counted self.now }
    {
        self.sent + self.rows.len() as u64
    }
}
