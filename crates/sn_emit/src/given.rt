//! Frames that lanes give.
ghost use Rattle.std.specs.Prelude.{◌≡◌};

use sn_base::any_row::AnyRow;
use sn_base::lane::Lane;
use sn_base::row::Row;
use sn_base::short_row::ShortRow;
use sn_report::frame::{Frame, Item, Tag};
use std::marker::Model;

/// A frame over rows of one kind.
#[derive(Drop)]
pub enum AnyFrame {
    Short(Frame<ShortRow>),
    Wide(Frame<Row>),
}

/// A frame that a lane gives, over rows of the lane's kind. Contracts see the frame alone.
#[derive(Drop)]
pub struct Given {
    pub(crate) frame: AnyFrame,
}

impl Model for Given {
    ghost use Rattle.sn_report.specs.Items.{Frame};
    ghost use Rattle.sn_emit.specs.Kinds.{frame_in};

    ghost Value = { Frame };

    ghost view = { λ a. frame_in a.frame };
}

/// A frame that no lane gives, as a place for others. It has a row, so that the row of the first one is made in its place.
pub fn unsent<R: AnyRow>() -> Frame<R> {
    let lane = Lane {
        query: 0,
        level: 0,
        branch: 0,
    };
    let item = Item {
        tag: Tag::At(0),
        row: R::empty(),
    };
    Frame::Row(lane, item)
}

impl Given {
    ghost use Rattle.sn_emit.specs.Kinds.{frame_in};

    /// A place for frames, most of which are over short rows.
    pub fn unsent() -> Given {
        Given::of_short(unsent())
    }

    /// A frame over short rows.
    pub fn of_short(frame: Frame<ShortRow>) -> Given
        ensures { result ≡ frame }
    {
        Given {
            frame: AnyFrame::Short(frame),
        }
    }

    /// A frame over rows with columns of 128 bits.
    pub fn of_wide(frame: Frame<Row>) -> Given
        ensures { result ≡ frame }
    {
        Given {
            frame: AnyFrame::Wide(frame),
        }
    }

    /// The frame, over rows of its kind.
    pub fn kind(&self) -> &AnyFrame
        ensures { frame_in result.now ≡ self.now }
    {
        &self.frame
    }
}
