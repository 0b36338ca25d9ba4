//! The generated capture of a number.
ghost use Rattle.std.specs.Prelude.{◌≡◌, ◌≤◌, ◌++◌, length, OnOk, IfOk};
ghost use Rattle.std.specs.List.{flat_map};
ghost use Rattle.sn_gen.specs.Generated.{capture_bytes, first_packets, packet_count, record_bytes};

use crate::draws::Draws;
use crate::frame::push_record;
use crate::packet::next_packet;
use sn_base::bytes::push_bytes;
use sn_base::memory::Memory;
use sn_base::seq::Seq;
use std::alloc::Global;

/// How many packets a capture has.
const PACKETS: u32 = 20000;

/// Little-endian, microseconds, version 2.4, at most 262144 bytes of a packet, Ethernet.
const HEAD: [u8; 24] = [
    0xd4, 0xc3, 0xb2, 0xa1, 2, 0, 4, 0, 0, 0, 0, 0, 0, 0, 0, 0, 0, 0, 4, 0, 1, 0, 0, 0,
];

/// How many packets a capture has.
#[tactic(auto, unfolding(crate::specs::Generated::packet_count))]
pub fn packet_count() -> u32
    ensures value { result ≡ packet_count }
    ensures most { result ≤ 20000 }
{
    PACKETS
}

fn push_packets(file: &mut Vec<u8>, number: u64, count: u32) -> Result<(), Memory>
    requires { count ≤ 20000 }
    ensures { OnOk result (file.new.items ≡ file.old.items ++ flat_map record_bytes (first_packets number count)) }
{
    let mut draws = Draws { number };
    for i in 0..count {
        push_record(file, &next_packet(i, &mut draws))?;
    }
    Ok(())
}

/// The capture of a number, of 1,400,024 bytes: 20,000 TCP packets over four seconds, which depend on the number alone.
#[tactic(auto, using(crate::proofs::LengthLemmas::capture_length))]
pub fn capture(alloc: Global, number: u64) -> Result<Seq<u8>, Memory>
    ensures bytes { IfOk result (λ file. file ≡ capture_bytes number) }
    ensures long { IfOk result (λ file. length file ≡ 1400024) }
{
    let mut file = Vec::new(alloc);
    push_bytes(&mut file, &HEAD)?;
    push_packets(&mut file, number, packet_count())?;
    Ok(Seq::from_vec(file))
}
