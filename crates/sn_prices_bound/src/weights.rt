//! What registers weigh by a limit of stages.
ghost use Rattle.std.specs.Prelude.{◌≡◌, ◌≤◌, ◌<◌, ◌/◌, ◌^◌};
ghost use Rattle.sn_plan_space.specs.Totals.{HasLimits};
ghost use Rattle.sn_prices.specs.Limits.{times_of, plus_of, weight, capacity, applies};

use sn_prices_grammar::prices::{Mix, StageLimit};
use sn_switch::switch::Switch;

/// What a register's bits are multiplied by.
fn times_of(mix: Option<Mix>) -> u32
    ensures { result ≡ times_of mix }
{
    match mix {
        None => 1,
        Some(mix) => mix.times,
    }
}

/// What is added to them.
fn plus_of(mix: Option<Mix>) -> u32
    ensures { result ≡ plus_of mix }
{
    match mix {
        None => 0,
        Some(mix) => mix.plus,
    }
}

/// A quotient rounded down, or 0 where the divisor is 0.
pub(crate) fn over(number: u128, divisor: u32) -> u128
    ensures value { result ≡ number / divisor }
    ensures most { result ≤ number }
{
    if divisor == 0 {
        0
    } else {
        number / u128::from(divisor)
    }
}

/// What a register of these bits weighs, rounded down.
pub(crate) fn weight(limit: &StageLimit, bits: u64) -> u128
    requires { bits ≤ 4294967296 }
    ensures value { result ≡ weight limit.now bits }
    ensures most { result < 2 ^ 65 }
{
    let times = u128::from(times_of(limit.mix));
    let plus = u128::from(plus_of(limit.mix));
    over(times * u128::from(bits) + plus, limit.divisor)
}

/// What the registers of a stage weigh at most, rounded down.
pub(crate) fn capacity(s: &Switch, limit: &StageLimit) -> u128
    requires { HasLimits s.now }
    ensures value { result ≡ capacity s.now limit.now }
    ensures most { result < 2 ^ 65 }
{
    let times = u128::from(times_of(limit.mix));
    let plus = u128::from(plus_of(limit.mix));
    over(
        times * u128::from(s.bits) + plus * u128::from(s.actions),
        limit.divisor,
    )
}

/// Whether a limit is one of this stage.
pub(crate) fn applies(limit: &StageLimit, stage: u32) -> bool
    ensures { result ≡ applies limit.now stage }
{
    limit.first <= stage && stage <= limit.last
}
