//! Items and the frames that carry them.

use sn_base::lane::Lane;

/// Where a row left the operators of its branch, and so where the engine goes on with it.
#[derive(Clone, Copy, Debug, PartialEq, Eq)]
pub enum Tag {
    /// It is a row that comes to the operator of this number; one past the last operator, a row of the branch's answer.
    At(u8),
    /// It is a key of the reduce of this number, with the fold of some of its values.
    Partial(u8),
}

/// A row that leaves the switch, of some kind of rows.
#[derive(Clone, Copy, Debug, PartialEq, Eq)]
pub struct Item<R> {
    pub tag: Tag,
    pub row: R,
}

/// What is sent for a lane: an item, or the end of a window.
#[derive(Clone, Copy, Debug, PartialEq, Eq)]
pub enum Frame<R> {
    /// An item of a lane.
    Row(Lane, Item<R>),
    /// The last frame of a lane in the window of this number.
    End(Lane, u64),
}
