//! The limits of a switch.

use sn_base::seq::Seq;

/// What a switch has room for.
#[derive(Drop)]
pub struct Switch {
    /// Stages, 1 to 32.
    pub stages: u32,
    /// Registers in one stage at most, 1 to 64.
    pub actions: u32,
    /// Bits of the registers in one stage at most, 1 to 2^32.
    pub bits: u64,
    /// Bits of metadata of all pieces together at most, 0 to 65535.
    pub meta: u32,
    /// Registers in the chain of a stateful operator, 1 to 4.
    pub chain: u32,
    /// The sizes that a register may have, in slots: one to four, rising, each 1 to [`sn_chain::chain::LARGEST_REGISTER`].
    pub slots: Seq<u32>,
    /// Prefixes that the table of a piece may hold at most, 1 to 4194304. `None` is no limit.
    pub entries: Option<u32>,
    /// What an entry of such a table costs, in items, 0 to 65536.
    pub weight: u32,
}
