//! Lanes of either kind of rows.

use crate::sender_of::SenderOf;
use sn_base::row::Row;
use sn_base::short_row::ShortRow;
use sn_pipe::pipe::Pipe;

/// A lane over rows of one kind.
#[derive(Drop)]
pub enum AnySender {
    Short(SenderOf<Pipe<ShortRow>>),
    Wide(SenderOf<Pipe<Row>>),
}
