//! Packets counted by key, in a fixed number of cells.
ghost use Rattle.std.specs.Prelude.{◌≡◌, IfOk};
ghost use Rattle.std.specs.Option.{option_map};
ghost use Rattle.sn_base.specs.Folds.{HasBits, capped_sum};
ghost use Rattle.sn_chain.specs.Chain.{after_offer, answer_at, empty_chain, holder, vacancy};
ghost use Rattle.sn_chain.specs.Registers.{cell};

use sn_base::fold::SatSum;
use sn_base::memory::Memory;
use sn_base::short_row::ShortRow;
use sn_chain::chain::Chain;
use sn_chain::offer::Offer;
use std::alloc::Global;

/// Two registers of 256 slots each, for sums. No later call takes memory.
pub fn counters(alloc: Global, sum: SatSum) -> Result<Chain<SatSum, ShortRow>, Memory>
    ensures { IfOk result (λ chain. chain ≡ empty_chain sum 2 256) }
{
    Chain::make(alloc, sum, 2, 256)
}

/// Counts a packet of this key. `Over` where each of the key's cells holds another key: then the caller counts it elsewhere.
pub fn count(chain: &mut Chain<SatSum, ShortRow>, key: &ShortRow) -> Offer
    requires { HasBits chain.old.fold.v 1 }
    ensures answer { result ≡ answer_at (holder chain.old key.now) (vacancy chain.old key.now) }
    ensures after { chain.new ≡ after_offer (λ f. capped_sum f.v) chain.old key.now 1 }
{
    chain.offer(key, 1)
}

/// What a cell has counted. `None` where it is empty, or past the last one.
pub fn count_at(chain: &Chain<SatSum, ShortRow>, place: u32) -> Option<u64>
    ensures { result ≡ option_map (λ e. e.1) (cell chain.now.cells place) }
{
    match chain.get(place) {
        Some((_, count)) => Some(count),
        None => None,
    }
}
