//! The cheapest stages of a piece's registers, by a walk from its last table to its first.
ghost use Rattle.std.specs.Prelude.{◌≡◌, ◌≤◌, ◌+◌, ◌^◌, List, [], ◌∷◌, length};
ghost use Rattle.sn_plan_space.specs.declared.known.Slot.{Slot};
ghost use Rattle.sn_plan_space.specs.declared.known.Slot.TheVariants.{Plain, Keyed};
ghost use Rattle.sn_plan_space.specs.Totals.{HasLimits};
ghost use Rattle.sn_prices_bound.specs.Walks.{IsWalk, known_stages};

use crate::pays::{FORBIDDEN, register_price};
use sn_plan_space::known::Slot;
use sn_prices_grammar::prices::Prices;
use sn_switch::switch::Switch;

/// For each stage from 0 to 32 what some tables pay at least, where the first of them may have that stage.
type Walk = [u128; 33];

/// The walk after the last table: past the switch's last stage there is no room.
fn no_tables(s: &Switch, p: &Prices) -> Walk
    ensures { IsWalk s.now p.now [] result }
{
    let mut walk = [0; 33];
    for stage in 0..33 {
        walk[stage] = if stage > s.stages as usize {
            FORBIDDEN
        } else {
            0
        };
    }
    walk
}

/// What tables pay at least where the table before them has this stage.
fn after_stage(s: &Switch, p: &Prices, after: &Walk, stage: usize) -> u128
    requires switch { HasLimits s.now }
    requires stage { stage ≤ 32 }
    ensures { (slots : List Slot) → IsWalk s.now p.now slots after.now → result ≡ known_stages s.now p.now (stage + 1) slots }
{
    if stage < 32 {
        after[stage + 1]
    } else {
        FORBIDDEN
    }
}

/// The walk with a table without state before these.
fn with_plain(s: &Switch, p: &Prices, after: &Walk) -> Walk
    requires { HasLimits s.now }
    ensures { (slots : List Slot) → IsWalk s.now p.now slots after.now → IsWalk s.now p.now (Plain ∷ slots) result }
{
    let mut walk = [0; 33];
    for stage in 0..33 {
        walk[stage] = after_stage(s, p, after, stage);
    }
    walk
}

/// The walk with a register of these bits before these tables.
fn with_register(s: &Switch, p: &Prices, bits: u64, after: &Walk) -> Walk
    requires switch { HasLimits s.now }
    requires few { length p.now.limits ≤ 64 }
    ensures { (slots : List Slot) → IsWalk s.now p.now slots after.now → IsWalk s.now p.now (Keyed bits ∷ slots) result }
{
    let mut walk = [FORBIDDEN; 33];
    for stage in (0..s.stages).rev() {
        let place = stage as usize;
        // The sum is below 2^110: no walk has more than the forbidden price.
        let here = register_price(s, p, stage, bits).saturating_add(after[place + 1]);
        walk[place] = here.min(walk[place + 1]);
    }
    walk
}

/// The walk with a table before these.
fn with_table(s: &Switch, p: &Prices, slot: Slot, after: &Walk) -> Walk
    requires switch { HasLimits s.now }
    requires few { length p.now.limits ≤ 64 }
    ensures { (slots : List Slot) → IsWalk s.now p.now slots after.now → IsWalk s.now p.now (slot ∷ slots) result }
{
    match slot {
        Slot::Plain => with_plain(s, p, after),
        Slot::Keyed(bits) => with_register(s, p, bits, after),
    }
}

/// What the registers among these tables pay at least, over all their stages, in parts of an item.
pub(crate) fn stages_price(s: &Switch, p: &Prices, slots: &[Slot]) -> u128
    requires switch { HasLimits s.now }
    requires few { length p.now.limits ≤ 64 }
    ensures value { result ≡ known_stages s.now p.now 0 slots.now }
    ensures most { result ≤ 2 ^ 108 }
{
    let mut walk = no_tables(s, p);
    let mut left = slots;
    while let Some((slot, front)) = left.split_last() {
        walk = with_table(s, p, *slot, &walk);
        left = front;
    }
    walk[0]
}
