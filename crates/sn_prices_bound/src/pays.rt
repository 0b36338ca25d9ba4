//! What registers and metadata pay at prices.
ghost use Rattle.std.specs.Prelude.{◌≡◌, ◌≤◌, ◌<◌, ◌^◌, length};
ghost use Rattle.std.specs.List.{sum_by};
ghost use Rattle.sn_plan_space.specs.Totals.{HasLimits};
ghost use Rattle.sn_prices.specs.Limits.{limit_price, register_price, meta_price, metadata_price};

use crate::weights::{applies, over, weight};
use sn_prices_grammar::prices::{Limit, Prices};
use sn_switch::switch::Switch;

/// More than a piece of a plan that fits pays: a register larger than a stage pays it, and a piece past the last stage.
pub(crate) const FORBIDDEN: u128 = 1 << 108;

/// What a register of these bits in a stage pays by a limit, in parts of an item.
fn limit_price(limit: &Limit, stage: u32, bits: u64) -> u128
    requires { bits ≤ 4294967296 }
    ensures value { result ≡ limit_price stage bits limit.now }
    ensures most { result < 2 ^ 97 }
{
    match limit {
        Limit::Stages(limit) => {
            if applies(limit, stage) {
                u128::from(limit.price) * weight(limit, bits)
            } else {
                0
            }
        }
        Limit::Meta(_) => 0,
    }
}

/// What it pays by all limits.
fn limits_price(limits: &[Limit], stage: u32, bits: u64) -> u128
    requires bits { bits ≤ 4294967296 }
    requires few { length limits.now ≤ 64 }
    ensures value { result ≡ sum_by (limit_price stage bits) limits.now }
    ensures most { result < 2 ^ 104 }
{
    let mut total = 0;
    for limit in limits {
        total += limit_price(limit, stage, bits);
    }
    total
}

/// What a register of these bits in a stage of the switch pays, in parts of an item: bits past 2^64 - 1 are given as that number.
pub(crate) fn register_price(s: &Switch, p: &Prices, stage: u32, bits: u64) -> u128
    requires switch { HasLimits s.now }
    requires few { length p.now.limits ≤ 64 }
    requires stage { stage < s.now.stages }
    ensures value { result ≡ register_price s.now p.now (record { stage = stage; bits = bits }) }
    ensures most { result ≤ 2 ^ 108 }
{
    if bits > s.bits {
        FORBIDDEN
    } else {
        limits_price(p.limits.as_slice(), stage, bits)
    }
}

/// What the metadata of a piece pays by a limit.
fn meta_price(limit: &Limit, bits: u64) -> u128
    ensures value { result ≡ meta_price bits limit.now }
    ensures most { result < 2 ^ 97 }
{
    match limit {
        Limit::Stages(_) => 0,
        Limit::Meta(limit) => u128::from(limit.price) * over(u128::from(bits), limit.divisor),
    }
}

/// What it pays by all limits.
fn metas_price(limits: &[Limit], bits: u64) -> u128
    requires { length limits.now ≤ 64 }
    ensures value { result ≡ sum_by (meta_price bits) limits.now }
    ensures most { result < 2 ^ 104 }
{
    let mut total = 0;
    for limit in limits {
        total += meta_price(limit, bits);
    }
    total
}

/// What the metadata of a piece pays, in parts of an item.
pub(crate) fn metadata_price(p: &Prices, bits: u64) -> u128
    requires { length p.now.limits ≤ 64 }
    ensures value { result ≡ metadata_price p.now bits }
    ensures most { result < 2 ^ 104 }
{
    metas_price(p.limits.as_slice(), bits)
}
