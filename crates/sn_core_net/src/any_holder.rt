//! Lanes of the switch, over either kind of rows.

use crate::holder_of::HolderOf;
use crate::ring_of::RingOf;
use sn_base::row::Row;
use sn_base::short_row::ShortRow;
use sn_emit::sender_of::SenderOf;
use sn_pipe::pipe::Pipe;

/// A lane over rows of one kind.
#[derive(Drop)]
pub enum AnyHolder {
    Short(HolderOf<SenderOf<Pipe<ShortRow>>, RingOf<ShortRow>>),
    Wide(HolderOf<SenderOf<Pipe<Row>>, RingOf<Row>>),
}
