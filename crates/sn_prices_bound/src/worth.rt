//! What the limits of a switch are worth at prices.
ghost use Rattle.std.specs.Prelude.{◌≡◌, ◌≤◌, ◌<◌, ◌^◌, length};
ghost use Rattle.std.specs.List.{sum_by};
ghost use Rattle.sn_plan_space.specs.Totals.{HasLimits};
ghost use Rattle.sn_prices.specs.Limits.{limit_worth, stages_worth, worth};

use crate::pays::metadata_price;
use crate::weights::{applies, capacity};
use sn_prices_grammar::prices::{Limit, Prices};
use sn_switch::switch::Switch;

/// What a limit is worth in a stage.
fn limit_worth(s: &Switch, limit: &Limit, stage: u32) -> u128
    requires { HasLimits s.now }
    ensures value { result ≡ limit_worth s.now stage limit.now }
    ensures most { result < 2 ^ 97 }
{
    match limit {
        Limit::Stages(limit) => {
            if applies(limit, stage) {
                u128::from(limit.price) * capacity(s, limit)
            } else {
                0
            }
        }
        Limit::Meta(_) => 0,
    }
}

/// What all limits are worth in a stage.
fn limits_worth(s: &Switch, limits: &[Limit], stage: u32) -> u128
    requires switch { HasLimits s.now }
    requires few { length limits.now ≤ 64 }
    ensures value { result ≡ sum_by (limit_worth s.now stage) limits.now }
    ensures most { result < 2 ^ 104 }
{
    let mut total = 0;
    for limit in limits {
        total += limit_worth(s, limit, stage);
    }
    total
}

/// What all limits are worth in the stages of the switch.
#[tactic(auto, using(crate::proofs::Sums::stage_more))]
fn stages_worth(s: &Switch, p: &Prices) -> u128
    requires switch { HasLimits s.now }
    requires few { length p.now.limits ≤ 64 }
    ensures value { result ≡ stages_worth s.now p.now s.now.stages }
    ensures most { result ≤ 2 ^ 109 }
{
    let mut total = 0;
    for stage in 0..s.stages {
        total += limits_worth(s, p.limits.as_slice(), stage);
    }
    total
}

/// What all limits of the switch are worth together, in parts of an item.
pub(crate) fn worth(s: &Switch, p: &Prices) -> u128
    requires switch { HasLimits s.now }
    requires few { length p.now.limits ≤ 64 }
    ensures value { result ≡ worth s.now p.now }
    ensures most { result < 2 ^ 110 }
{
    stages_worth(s, p) + metadata_price(p, u64::from(s.meta))
}
