//! Packets of captures, from what a line of a table says.
use crate::trouble::Trouble;
use std::alloc::Global;

/// The header of a capture of Ethernet packets, its lowest bytes first, with microseconds.
pub const HEADER: [u8; 24] = [
    0xd4, 0xc3, 0xb2, 0xa1, 2, 0, 4, 0, 0, 0, 0, 0, 0, 0, 0, 0, 0, 0, 4, 0, 1, 0, 0, 0,
];

/// A TCP SYN from port 1024 to port 80, from 10.0.0.0 to 10.0.0.0.
const SYN: [u8; 54] = [
    2, 0, 0, 0, 0, 2, 2, 0, 0, 0, 0, 1, 8, 0, //
    0x45, 0, 0, 0, 0, 0, 0, 0, 0x40, 6, 0, 0, 10, 0, 0, 0, 10, 0, 0, 0, //
    4, 0, 0, 0x50, 0, 0, 0, 0, 0, 0, 0, 0, 0x50, 2, 0, 0, 0, 0, 0, 0,
];

/// A TCP SYN from port 1024 to port 80, from 2001:db8:: to 2001:db8::.
const SYN_6: [u8; 74] = [
    2, 0, 0, 0, 0, 2, 2, 0, 0, 0, 0, 1, 0x86, 0xdd, //
    0x60, 0, 0, 0, 0, 0x14, 6, 0x40, 0x20, 1, 0x0d, 0xb8, 0, 0, 0, 0, 0, 0, 0, 0, 0, 0, 0, 0, //
    0x20, 1, 0x0d, 0xb8, 0, 0, 0, 0, 0, 0, 0, 0, 0, 0, 0, 0, //
    4, 0, 0, 0x50, 0, 0, 0, 0, 0, 0, 0, 0, 0x50, 2, 0, 0, 0, 0, 0, 0,
];

/// The number of a hexadecimal digit, and `None` of any other byte.
fn digit(byte: u8) -> Option<u8> {
    match byte {
        b'0'..=b'9' => Some(byte - b'0'),
        b'a'..=b'f' => Some(byte - b'a' + 10),
        _ => None,
    }
}

/// Adds the bytes whose hexadecimal digits are these. What is no such digit counts for nothing.
pub fn push_hex(into: &mut Vec<u8>, text: &str) -> Result<(), Trouble> {
    let mut high = None;
    for byte in text.bytes() {
        let Some(low) = digit(byte) else {
            continue;
        };
        match high {
            None => high = Some(low),
            Some(digit) => {
                into.push(digit << 4 | low)?;
                high = None;
            }
        }
    }
    Ok(())
}

/// Adds a record of these bytes, so many microseconds after one second, of a packet that had so many on the wire.
pub fn push_record(into: &mut Vec<u8>, after: u32, wire: u32, bytes: &[u8]) -> Result<(), Trouble> {
    let seconds = 1 + after / 1_000_000;
    into.extend_from_slice(&seconds.to_le_bytes())?;
    into.extend_from_slice(&(after % 1_000_000).to_le_bytes())?;
    into.extend_from_slice(&u32::try_from(bytes.len())?.to_le_bytes())?;
    into.extend_from_slice(&wire.to_le_bytes())?;
    into.extend_from_slice(bytes)?;
    Ok(())
}

/// The first four numbers of a text, where those that it lacks are 0, 0, 0 and the last one given.
fn numbers(text: &str, last: u32) -> Result<[u32; 4], Trouble> {
    let mut numbers = [0, 0, 0, last];
    for (number, word) in numbers.iter_mut().zip(text.split_whitespace()) {
        *number = word.parse::<u32>()?;
    }
    Ok(numbers)
}

/// Adds the record of a SYN, as four numbers say: microseconds after one second, from 10.0.0.s, to 10.0.0.d, and the
/// length of its IPv4 packet.
pub fn push_syn(into: &mut Vec<u8>, text: &str) -> Result<(), Trouble> {
    let [after, source, destination, length] = numbers(text, 40)?;
    let mut frame = SYN;
    let [_, _, high, low] = length.to_be_bytes();
    frame[16] = high;
    frame[17] = low;
    let [_, _, _, low] = source.to_be_bytes();
    frame[29] = low;
    let [_, _, _, low] = destination.to_be_bytes();
    frame[33] = low;
    push_record(into, after, length.wrapping_add(14), &frame)
}

/// Adds the records of SYNs, with commas between them.
pub fn push_syns(into: &mut Vec<u8>, text: &str) -> Result<(), Trouble> {
    for packet in text.split(',') {
        push_syn(into, packet)?;
    }
    Ok(())
}

/// Adds the record of a SYN over IPv6, as four numbers say: microseconds after one second, from 2001:db8::s, to
/// 2001:db8:0:n::d, in the order s, d, n, each below 256.
pub fn push_six(into: &mut Vec<u8>, text: &str) -> Result<(), Trouble> {
    let [after, source, destination, network] = numbers(text, 0)?;
    let mut frame = SYN_6;
    let [_, _, _, low] = source.to_be_bytes();
    frame[37] = low;
    let [_, _, _, low] = network.to_be_bytes();
    frame[45] = low;
    let [_, _, _, low] = destination.to_be_bytes();
    frame[53] = low;
    push_record(into, after, 74, &frame)
}

/// Adds the records of SYNs over IPv6, with commas between them.
pub fn push_sixes(into: &mut Vec<u8>, text: &str) -> Result<(), Trouble> {
    for packet in text.split(',') {
        push_six(into, packet)?;
    }
    Ok(())
}

/// Adds the record of a packet of these bytes, at one second.
pub fn push_frame(alloc: Global, into: &mut Vec<u8>, text: &str) -> Result<(), Trouble> {
    let mut bytes = Vec::new(alloc);
    push_hex(&mut bytes, text)?;
    push_record(into, 0, u32::try_from(bytes.len())?, bytes.as_slice())
}
