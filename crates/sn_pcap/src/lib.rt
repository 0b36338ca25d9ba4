//! Captures in the file format of classic pcap, version 2.4: their header, and their packets.
#![tactic(auto)]

mod buffer;
pub mod front;
pub mod header;
mod numbers;
pub mod packet;
pub mod reader;
pub mod seen;
