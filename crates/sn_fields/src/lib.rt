//! The fields of packets: their table, and the numbers that a packet's bytes have for them.
#![tactic(auto)]

pub mod field;
mod headers;
mod held;
mod layers;
mod numbers;
mod transport;
pub mod tuple;
