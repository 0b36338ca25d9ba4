//! Prices on the limits of a switch.

use sn_base::seq::Seq;

/// What a register weighs before it is divided: its bits times one number, plus another.
#[derive(Clone, Copy, Debug, PartialEq, Eq)]
pub struct Mix {
    /// What the bits are multiplied by, of 32 bits.
    pub times: u32,
    /// What is added for the register, of 32 bits.
    pub plus: u32,
}

/// A limit of each stage from one to another, with the price of a unit of it.
///
/// A register of one of these stages weighs its bits, or what the mix makes of them, over the divisor, rounded down.
#[derive(Clone, Copy, Debug, PartialEq, Eq)]
pub struct StageLimit {
    /// The first stage, from 0.
    pub first: u32,
    /// The last stage.
    pub last: u32,
    /// What is divided, where it isn't the bits alone.
    pub mix: Option<Mix>,
    /// At least 1 in a text.
    pub divisor: u32,
    /// In parts of an item, of which the prices say how many make one.
    pub price: u32,
}

/// A limit of the metadata of all pieces, with the price of a unit of it.
///
/// A piece weighs its bits of metadata over the divisor, rounded down.
#[derive(Clone, Copy, Debug, PartialEq, Eq)]
pub struct MetaLimit {
    /// At least 1 in a text.
    pub divisor: u32,
    /// In parts of an item.
    pub price: u32,
}

/// A limit of a switch that has a price.
#[derive(Clone, Copy, Debug, PartialEq, Eq)]
pub enum Limit {
    /// Of what registers weigh in each of some stages.
    Stages(StageLimit),
    /// Of what the metadata of all pieces weighs.
    Meta(MetaLimit),
}

/// Prices on limits of a switch.
#[derive(Drop)]
pub struct Prices {
    /// How many parts make an item: at least 1 in a text.
    pub scale: u32,
    /// At most 64 in a text.
    pub limits: Seq<Limit>,
}

/// What the text after a plan says where it has prices.
#[derive(Drop)]
pub struct Shown {
    /// What the plan costs.
    pub cost: u64,
    /// The prices, of which `least` is said.
    pub prices: Prices,
    /// What no plan that fits costs less than, as the text has it.
    pub least: u64,
}
