//! A capture that was read whole.
ghost use Rattle.std.specs.Prelude.{◌≡◌, ◌≤◌, [], ◌∷◌, IfSome, IsNone, length};
ghost use Rattle.sn_command_captures.specs.Counted.{share_if_few};
ghost use Rattle.sn_command_captures.specs.Walks.{recorded};
ghost use Rattle.sn_command_captures.specs.Windows.{first_time};

use crate::share::Share;
use sn_base::seq::Seq;
use sn_pcap::header::{HEADER_BYTES, Header};
use sn_pcap::packet::record_at;
use std::marker::Model;

/// A capture that was read whole: its header and its bytes. No list of its records is kept, since each is found again in the bytes. Contracts
/// see what stands at the front of its packets, its bytes, the packets of its whole records, and how they end.
#[derive(Drop)]
pub struct Capture {
    header: Header,
    file: Seq<u8>,
}

impl Model for Capture {
    ghost use Rattle.sn_command_captures.specs.Recorded.{Recorded};

    ghost Value = { Recorded };

    ghost use Rattle.sn_command_captures.specs.Walks.{recorded};

    ghost view = { λ a. recorded a.header a.file };
}

impl Capture {
    /// The capture of these bytes, which have this header.
    pub fn of(header: Header, file: Seq<u8>) -> Capture
        ensures { result ≡ recorded header file }
    {
        Capture { header, file }
    }

    /// How many bytes it has.
    pub fn len(&self) -> usize
        ensures { result ≡ length self.now.file }
    {
        self.file.as_slice().len()
    }

    /// When its first record was captured, in nanoseconds since the start of 1970. `None` exactly where it has no record.
    pub fn first_time(&self) -> Option<u64>
        ensures some { IfSome result (λ time. first_time self.now ≡ time ∷ []) }
        ensures none { IsNone result → first_time self.now ≡ [] }
    {
        match record_at(&self.header, self.file.as_slice(), HEADER_BYTES) {
            Ok(packet) => Some(packet.time),
            Err(_) => None,
        }
    }

    /// What the switch saw that recorded it, in windows of this many nanoseconds, where window 0 begins at this time. `None` exactly where a
    /// window has too many records.
    pub fn into_share(self, window_ns: u64, start: u64) -> Option<Share>
        requires { 1 ≤ window_ns }
        ensures { result ≡ share_if_few window_ns start self }
    {
        Share::of(self.header, self.file, window_ns, start)
    }
}
