//! Who is reported of the frames that lanes send.
ghost use Rattle.std.specs.Prelude.{◌≡◌, ◌≤◌, ◌++◌, ℕ, List, OnOk};
ghost use Rattle.sn_emit.specs.Making.{CanEncode};
ghost use Rattle.sn_report.specs.Frames.{lane_of, operator_in, spelling};
ghost use Rattle.sn_report.specs.Items.{Frame as Framed, frame_by};

use sn_base::any_row::AnyRow;
use sn_base::bytes::push_bytes;
use sn_base::memory::Memory;
use sn_emit::given::{AnyFrame, Given};
use sn_report::encode::{MOST_BYTES, encode};
use sn_report::frame::Frame;

/// What is reported of each frame that a lane sends, once the engine has taken it.
pub trait Wire {
    /// What was reported so far.
    ghost reported: { Self → List ℕ };

    /// What is reported of one frame.
    ghost word: { Framed → List ℕ };

    /// Tells of a frame, after those before.
    fn sent(&mut self, frame: &Given) -> Result<(), Memory>
        requires { CanEncode frame.now }
        ensures { OnOk result (reported self.new ≡ reported self.old ++ word frame.now) };
}

/// Adds the bytes of a frame.
fn push_frame<R: AnyRow>(text: &mut Vec<u8>, frame: &Frame<R>) -> Result<(), Memory>
    requires query { (lane_of frame.now).query ≤ 7 }
    requires level { (lane_of frame.now).level ≤ 3 }
    requires branch { (lane_of frame.now).branch ≤ 1 }
    requires operator { operator_in frame.now ≤ 12 }
    ensures { OnOk result (text.new.items ≡ text.old.items ++ spelling 2 (frame_by R.columns frame.now)) }
{
    let mut spelled = [0; MOST_BYTES];
    let length = encode(frame, &mut spelled);
    push_bytes(text, &spelled[..length])
}

/// The bytes of the frames, one after another.
impl Wire for Vec<u8> {
    ghost use Rattle.sn_report.specs.Frames.{spelling};

    ghost reported = { λ text. text.items };

    ghost word = { spelling 2 };

    fn sent(&mut self, frame: &Given) -> Result<(), Memory> {
        match frame.kind() {
            AnyFrame::Short(frame) => push_frame(self, frame),
            AnyFrame::Wide(frame) => push_frame(self, frame),
        }
    }
}

/// Nobody is reported.
#[derive(Clone, Copy, Debug)]
pub struct Nobody;

impl Wire for Nobody {
    ghost use Rattle.std.specs.Prelude.{[]};

    ghost reported = { λ wire. [] };

    ghost word = { λ frame. [] };

    fn sent(&mut self, _frame: &Given) -> Result<(), Memory> {
        Ok(())
    }
}
