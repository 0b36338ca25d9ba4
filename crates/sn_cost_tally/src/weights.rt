//! Weights of rows: for how many each of them stands.
ghost use Rattle.std.specs.Prelude.{◌≡◌, ◌<◌, length, option_copied};
ghost use Rattle.std.specs.Option.{ForSome};
ghost use Rattle.sn_cost_tally.specs.Weighed.{weight_in};

/// The weight of the row at a place: 1 where there are no weights.
pub(crate) fn weight_at(weights: Option<&[u64]>, place: usize) -> u64
    requires { ForSome weights (λ each. place < length each.now) }
    ensures { result ≡ weight_in (option_copied weights.entry) place }
{
    match weights {
        Some(each) => each[place],
        None => 1,
    }
}
