//! A capture that is made rather than held, of a thousand times the packets of one that a list holds.
//!
//! It has raw IPv4 packets (link type 101) of 20 bytes. Packet N comes N / 100,000 seconds after the first, from 10.0.0.0 plus N % 100,000 to 20.0.0.0 plus
//! as much, so that each second has 100,000 sources and destinations, each once.
use crate::trouble::Trouble;
use std::alloc::Global;

/// How many packets a second has.
const IN_A_SECOND: u32 = 100_000;

/// The header of a capture of raw IP packets, its lowest bytes first, with microseconds.
const HEADER: [u8; 24] = [
    0xd4, 0xc3, 0xb2, 0xa1, 2, 0, 4, 0, 0, 0, 0, 0, 0, 0, 0, 0, 0, 0, 4, 0, 101, 0, 0, 0,
];

/// What stands after the seconds of a record: no microseconds, 20 bytes of 20, and the packet up to its addresses.
const FRONT: [u8; 24] = [
    0, 0, 0, 0, 20, 0, 0, 0, 20, 0, 0, 0, //
    0x45, 0, 0, 20, 0, 0, 0, 0, 0x40, 0xff, 0, 0,
];

/// Adds the record of the packet of this number.
fn push_packet(into: &mut Vec<u8>, number: u32) -> Result<(), Trouble> {
    let seconds = number / IN_A_SECOND;
    let host = number % IN_A_SECOND;
    into.extend_from_slice(&seconds.to_le_bytes())?;
    into.extend_from_slice(&FRONT)?;
    into.extend_from_slice(&host.wrapping_add(0x0a00_0000).to_be_bytes())?;
    into.extend_from_slice(&host.wrapping_add(0x1400_0000).to_be_bytes())?;
    Ok(())
}

/// A capture of so many packets.
pub fn capture(alloc: Global, packets: u32) -> Result<Vec<u8>, Trouble> {
    let mut bytes = Vec::from_slice(alloc, &HEADER)?;
    for number in 0..packets {
        push_packet(&mut bytes, number)?;
    }
    Ok(bytes)
}
