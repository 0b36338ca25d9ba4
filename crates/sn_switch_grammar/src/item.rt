//! The items of a switch text.

use sn_base::seq::Seq;

/// What an item of a switch text sets.
#[derive(Clone, Copy, Debug, PartialEq, Eq)]
pub enum Setting {
    Stages,
    Actions,
    Bits,
    Meta,
    Chain,
    Slots,
    Entries,
    Weight,
}

/// One item: what it sets, and to which numbers. Each has one number, but for the sizes.
#[derive(Drop)]
pub struct Item {
    pub setting: Setting,
    pub numbers: Seq<u64>,
}
