//! How many packets a capture has.
ghost use Rattle.std.specs.Prelude.{◌≡◌};

use sn_io::inputs::{Inputs, ReadError};
use sn_pcap::header::Header;
use sn_pcap::packet::Ending;
use sn_pcap::reader::Reader;
use sn_pcap::seen::{Next, Seen};
use std::alloc::Global;

/// How many whole records a capture with this header has, and how they end.
pub fn count_packets<I: Inputs>(
    alloc: Global,
    header: Header,
    files: &mut I,
    name: &str,
) -> Result<(u64, Ending), ReadError>
    ensures reported { I.reported files.new ≡ I.reported files.old }
{
    let Ok(mut reader) = Reader::make(alloc, header) else {
        return Err(ReadError::Memory);
    };
    let mut seen = Seen::empty();
    let mut packets = 0;
    'packets: loop {
        match reader.next(files, name, &mut seen) {
            Ok(Next::Packet) => packets += 1,
            Ok(Next::End(ending)) => return Ok((packets, ending)),
            Err(error) => return Err(error),
        }
    }
}
