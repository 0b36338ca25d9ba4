//! Sums over distinct keys.
ghost use Rattle.std.specs.Prelude.{◌≡◌, ◌≤◌, length};
ghost use Rattle.sn_cost_seats.specs.Tallies.{sum_unmarked};

/// How many rows the keys without a home stand for: the sum of their times.
pub fn over(homes: &[bool], times: &[u64]) -> u64
    requires long { length homes.now ≡ length times.now }
    requires few { sum_unmarked homes.now times.now ≤ 4194304 }
    ensures { result ≡ sum_unmarked homes.now times.now }
{
    let mut sum = 0;
    for place in 0..homes.len() {
        if !homes[place] {
            sum += times[place];
        }
    }
    sum
}
