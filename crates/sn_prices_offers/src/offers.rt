//! What the pieces of a plan may take of a switch.

use sn_base::seq::Seq;

/// A register of a piece.
#[derive(Clone, Copy, Debug, PartialEq, Eq)]
pub struct Stay {
    /// How many tables without state stand right before it.
    pub gap: usize,
    /// Which of the kinds of registers it is.
    pub kind: usize,
}

/// The tables of a piece.
#[derive(Drop)]
pub struct Shape {
    /// Its registers, in order.
    pub stays: Seq<Stay>,
    /// How many tables without state stand after the last register.
    pub tail: usize,
}

/// A way in which a piece may be asked.
#[derive(Clone, Copy, Debug, PartialEq, Eq)]
pub struct Offer {
    /// The number of the piece's option.
    pub number: u32,
    /// What the piece costs, in items.
    pub cost: u64,
    /// The bits of metadata that it takes.
    pub metadata: u64,
    /// Which of the shapes its tables have.
    pub shape: usize,
    /// Whether another way is no worse in anything.
    pub beaten: bool,
}

/// What the pieces of each query may take, and what the switch has room for.
#[derive(Drop)]
pub struct Offers {
    /// How many stages the switch has.
    pub stages: usize,
    /// Registers in one stage at most.
    pub actions: u64,
    /// Bits of the registers in one stage at most.
    pub bits: u64,
    /// Bits of metadata of all pieces at most.
    pub metadata: u64,
    /// The bits of each kind of register.
    pub kinds: Seq<u64>,
    /// The shapes that pieces may have.
    pub shapes: Seq<Shape>,
    /// For each query, path and piece the ways in which it may be asked.
    pub queries: Seq<Seq<Seq<Seq<Offer>>>>,
}
