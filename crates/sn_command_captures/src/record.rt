//! How the records of a capture end.
ghost use Rattle.std.specs.Prelude.{◌≡◌};
ghost use Rattle.sn_command_captures.specs.Walks.{ending_from};

use sn_pcap::header::Header;
use sn_pcap::packet::{Ending, RECORD_BYTES, record_at};

/// How the records from an offset on end.
pub(crate) fn ending_from(header: &Header, file: &[u8], from: usize) -> Ending
    ensures { result ≡ ending_from header.now file.now from }
{
    let mut at = from;
    'records: loop {
        match record_at(header, file, at) {
            Ok(packet) => at += RECORD_BYTES + packet.cap as usize,
            Err(ending) => return ending,
        }
    }
}
