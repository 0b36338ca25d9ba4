//! What is known of each choice before any is made.
ghost use Rattle.std.specs.Prelude.{◌≡◌, ◌≤◌, length};

use sn_base::seq::Seq;
use std::marker::Model;

/// A table of a piece that takes a stage.
#[derive(Clone, Copy, Debug, PartialEq, Eq)]
pub enum Slot {
    /// A table without state.
    Plain,
    /// A register of this many bits, given as 2^64 - 1 where there are more.
    Keyed(u64),
}

/// At most 64 tables, as those of a piece.
#[derive(Drop)]
pub struct Slots {
    held: Seq<Slot>,
}

impl Model for Slots {
    ghost use Rattle.std.specs.Prelude.{List, ◌≤◌, length};
    ghost use Rattle.sn_plan_space.specs.declared.known.Slot.{Slot};

    ghost Value = { List Slot };

    ghost view = { λ a. a.held };

    ghost invariant = { λ a. length a.held ≤ 64 };
}

impl Slots {
    /// The list of these tables.
    pub fn new(tables: Seq<Slot>) -> Slots
        requires { length tables ≤ 64 }
        ensures { result ≡ tables }
    {
        Slots { held: tables }
    }

    /// The tables, in order.
    pub fn as_slice(&self) -> &[Slot]
        ensures value { result.now ≡ self.now }
        ensures most { length result.now ≤ 64 }
    {
        self.held.as_slice()
    }
}

/// An option of a piece.
#[derive(Drop)]
pub struct KnownOption {
    /// What the piece costs with it.
    pub cost: u64,
    /// The bits of metadata that it takes.
    pub metadata: u64,
    /// Its tables in order.
    pub slots: Slots,
}

/// A piece.
#[derive(Drop)]
pub struct KnownPiece {
    /// The least that it costs.
    pub least: u64,
    /// How many options it has.
    pub count: u32,
    pub options: Seq<KnownOption>,
}

/// A query.
#[derive(Drop)]
pub struct KnownQuery {
    /// The least that its pieces cost together, over all paths, at most 2^64 - 1.
    pub least: u64,
    /// How many paths it has.
    pub count: u32,
    /// The pieces of each path.
    pub paths: Seq<Seq<KnownPiece>>,
}

/// A piece by its numbers.
#[derive(Clone, Copy)]
pub struct PieceAt {
    pub query: u32,
    /// The front of its path: bit i for level i of the query's list.
    pub levels: u32,
    /// Whether it is the first of its path.
    pub is_first: bool,
    /// Its branch.
    pub number: u32,
}
