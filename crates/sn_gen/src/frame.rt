//! The bytes of a record.
ghost use Rattle.std.specs.Prelude.{◌≡◌, ◌≤◌, ◌++◌, ◌+◌, ◌^◌, ◌<◌, OnOk};
ghost use Rattle.std.specs.Int.{w16, w32, to_be_bytes, to_le_bytes};
ghost use Rattle.sn_gen.specs.Generated.{frame_bytes, ip_bytes, record_bytes, record_head, tcp_bytes};

use crate::packet::Packet;
use crate::segment::Segment;
use sn_base::bytes::push_bytes;
use sn_base::memory::Memory;

/// How many bytes are captured of each packet.
const CAPTURED: u32 = 54;

/// From 02:00:00:00:00:01 to 02:00:00:00:00:02, IPv4.
const ETHERNET: [u8; 14] = [2, 0, 0, 0, 0, 2, 2, 0, 0, 0, 0, 1, 8, 0];

fn push_ip(file: &mut Vec<u8>, segment: &Segment) -> Result<(), Memory>
    ensures { OnOk result (file.new.items ≡ file.old.items ++ ip_bytes segment.now) }
{
    push_bytes(file, &[0x45, 0])?;
    push_bytes(file, &segment.length.to_be_bytes())?;
    push_bytes(file, &[0, 0, 0, 0, 64, 6, 0, 0])?;
    push_bytes(file, &segment.source.to_be_bytes())?;
    push_bytes(file, &segment.destination.to_be_bytes())
}

fn push_tcp(file: &mut Vec<u8>, segment: &Segment) -> Result<(), Memory>
    ensures { OnOk result (file.new.items ≡ file.old.items ++ tcp_bytes segment.now) }
{
    push_bytes(file, &segment.source_port.to_be_bytes())?;
    push_bytes(file, &segment.destination_port.to_be_bytes())?;
    push_bytes(
        file,
        &[
            0,
            0,
            0,
            0,
            0,
            0,
            0,
            0,
            0x50,
            segment.flags,
            0,
            0,
            0,
            0,
            0,
            0,
        ],
    )
}

/// Adds the bytes that are captured of a segment.
fn push_frame(file: &mut Vec<u8>, segment: &Segment) -> Result<(), Memory>
    ensures { OnOk result (file.new.items ≡ file.old.items ++ frame_bytes segment.now) }
{
    push_bytes(file, &ETHERNET)?;
    push_ip(file, segment)?;
    push_tcp(file, segment)
}

fn push_head(file: &mut Vec<u8>, packet: &Packet) -> Result<(), Memory>
    ensures { OnOk result (file.new.items ≡ file.old.items ++ record_head packet.now) }
{
    let wire = ETHERNET.len() as u32 + u32::from(packet.segment.length);
    push_bytes(file, &packet.second.to_le_bytes())?;
    push_bytes(file, &packet.microsecond.to_le_bytes())?;
    push_bytes(file, &CAPTURED.to_le_bytes())?;
    push_bytes(file, &wire.to_le_bytes())
}

/// Adds the record of a packet.
pub fn push_record(file: &mut Vec<u8>, packet: &Packet) -> Result<(), Memory>
    ensures { OnOk result (file.new.items ≡ file.old.items ++ record_bytes packet.now) }
{
    push_head(file, packet)?;
    push_frame(file, &packet.segment)
}
