//! The table of what pieces cost.
ghost use Rattle.std.specs.Prelude.{◌≡◌, ◌<◌, ◌≤◌, ◌+◌, ◌*◌, ◌^◌, ℕ, length, slice_index, IfOk};
ghost use Rattle.sn_plan_choices.specs.Places.{place_of};

use sn_base::memory::Memory;
use sn_switch::switch::Switch;
use sn_types::typed::Typed;

/// The places of a query: 2 branches at each of 16 fronts of a path, with 256 options each.
const QUERY: usize = 8192;
/// The places of a front of a path.
const FRONT: usize = 512;
/// The places of a branch.
const BRANCH: usize = 256;

/// What each piece costs: an entry for each query, front of a path, branch and option, at most 2^56.
///
/// A front of a path is the number that has bit i for each level i of the query's list up to the piece's own. Each entry has a place of its own, which
/// its four numbers give at once.
#[derive(Drop)]
pub struct CostTable {
    counts: Vec<u64>,
    ghost small: { (place : ℕ) → slice_index counts.items place ≤ 2 ^ 56 },
}

/// The place of an entry.
fn place_of(q: u32, prefix: u32, b: u32, option: u32) -> usize
    ensures { result ≡ place_of q prefix b option }
{
    q as usize * QUERY + prefix as usize * FRONT + b as usize * BRANCH + option as usize
}

impl CostTable {
    ghost use Rattle.sn_plan_choices.specs.Costs.{entry_in, IsPlace, OthersStay, HasPlaces};

    /// A table for these queries and this switch that holds 0 at every place. Its size goes by the number of queries alone: no switch gives a piece
    /// more than 208 options.
    ///
    /// # Errors
    /// Out of memory.
    pub fn make(t: &Typed, _s: &Switch) -> Result<CostTable, Memory>
        ensures places { IfOk result (λ table. HasPlaces table (length t.now.queries)) }
        ensures zero { IfOk result (λ table. (q prefix b option : ℕ) → entry_in table q prefix b option ≡ 0) }
    {
        let counts = vec![in t.alloc; 0; t.queries() as usize * QUERY]?;
        Ok(CostTable { counts })
    }

    /// Writes the entry of a query, a front of a path, a branch and an option. It takes no memory.
    pub fn set(&mut self, q: u32, prefix: u32, b: u32, option: u32, count: u64)
        requires place { IsPlace self.old q prefix b option }
        requires small { count ≤ 2 ^ 56 }
        ensures written { entry_in self.new q prefix b option ≡ count }
        // Every other entry stays.
        ensures others { OthersStay self.old self.new q prefix b option }
        ensures places { (queries : ℕ) → HasPlaces self.old queries → HasPlaces self.new queries }
    {
        self.counts[place_of(q, prefix, b, option)] = count;
    }

    /// The entry of a query, a front of a path, a branch and an option. It takes no memory.
    pub fn entry(&self, q: u32, prefix: u32, b: u32, option: u32) -> u64
        requires { IsPlace self.now q prefix b option }
        ensures value { result ≡ entry_in self.now q prefix b option }
        ensures small { result ≤ 2 ^ 56 }
    {
        self.counts[place_of(q, prefix, b, option)]
    }
}
