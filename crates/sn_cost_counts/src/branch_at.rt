//! What is counted, and with which registers.
ghost use Rattle.std.specs.Prelude.{◌≡◌, ◌≤◌, ◌<◌, All, length, nat_eq, true};
ghost use Rattle.std.specs.List.{list_any};
ghost use Rattle.sn_chain.specs.Limits.{largest_register};
ghost use Rattle.sn_cost_counts.specs.Levels.{level_prop};
ghost use Rattle.sn_ops.specs.Packets.{OfALevel};
ghost use Rattle.sn_types.specs.Typed.{query_at};
ghost use Rattle.sn_windows.specs.Blocks.{most_records};

use sn_fields::tuple::Tuple;
use sn_ops::packets::Kept;
use sn_types::typed::Typed;

/// A branch of a query at a level, over the tuples of a window.
#[derive(Drop)]
pub struct BranchAt<'a> {
    pub t: &'a Typed,
    /// The query's number.
    pub q: u32,
    /// The branch's number in the query.
    pub b: u32,
    /// The level in bits, one of the query's.
    pub level: u32,
    /// The prefixes by which tuples are kept. Without them all are.
    pub kept: Option<Kept<'a>>,
    /// At most 4194304.
    pub tuples: &'a [Tuple],
    ghost has_query: { q < length t.now.queries },
    ghost has_branch: { b < length (query_at t.now.queries q).branches },
    ghost has_level: { list_any (nat_eq level) (query_at t.now.queries q).levels ≡ true },
    ghost by_a_level: { OfALevel (query_at t.now.queries q) kept } by { level_prop (query_at t.now.queries q) kept },
    ghost few: { length tuples.now ≤ most_records },
}

/// The registers that an operator may have.
#[derive(Drop)]
pub struct Registers<'a> {
    /// How many are in a chain, 1 to 4.
    pub chain: u32,
    /// The sizes that each may have, in slots.
    pub sizes: &'a [u32],
    ghost some: { 1 ≤ chain },
    ghost most: { chain ≤ 4 },
    ghost within: { All (λ size. (1 ≤ size) × (size ≤ largest_register)) sizes.now },
}
