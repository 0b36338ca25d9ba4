//! A plan that costs little, with prices that bound what plans cost.
ghost use Rattle.std.specs.Prelude.{length, IfOk};
ghost use Rattle.sn_switch.specs.Texts.{IsSwitch};
ghost use Rattle.sn_plan_choices.specs.Costs.{HasPlaces};
ghost use Rattle.sn_prices_search.specs.Writable.{AreWritable};

use crate::board::Stand;
use crate::choice::Choice;
use crate::search::search;
use crate::writable::writable;
use sn_base::memory::Memory;
use sn_base::seq::Seq;
use sn_plan_choices::costs::CostTable;
use sn_plan_grammar::plan::Plan;
use sn_plan_lists::naming::plan_of;
use sn_plan_space::queries::queries_of;
use sn_prices_dual::ascent::ascend;
use sn_prices_dual::bound::bound;
use sn_prices_dual::sheet::Sheet;
use sn_prices_grammar::prices::Prices;
use sn_prices_offers::gather::gather;
use sn_prices_offers::offers::{Offers, Shape};
use sn_switch::switch::Switch;
use sn_types::typed::Typed;
use std::alloc::Global;

/// A plan, and prices on the limits of the switch.
#[derive(Drop)]
pub struct Found {
    /// The plan, not yet tested with `fits`.
    pub plan: Plan,
    /// The prices; what they show isn't worked out.
    pub prices: Prices,
}

/// Adds the choices of the stages of a piece's registers.
fn add_stages(choices: &mut Seq<u32>, shape: &Shape, stages: &[usize]) -> Result<(), Memory> {
    for (_, stage) in shape.stays.as_slice().iter().zip(stages.iter()) {
        choices.push((*stage).min(31) as u32)?;
    }
    Ok(())
}

/// Adds the choices of a piece.
fn add_piece(o: &Offers, choices: &mut Seq<u32>, stand: &Stand) -> Result<(), Memory> {
    choices.push(stand.offer.number)?;
    match o.shapes.as_slice().get(stand.offer.shape) {
        Some(shape) => add_stages(choices, shape, &stand.stages),
        None => Ok(()),
    }
}

/// Adds the choices of a query.
fn add_query(o: &Offers, choices: &mut Seq<u32>, choice: &Choice) -> Result<(), Memory> {
    choices.push(choice.path.min(7) as u32)?;
    for stand in choice.stands.as_slice() {
        add_piece(o, choices, stand)?;
    }
    Ok(())
}

/// The choices of a plan, query by query.
fn choices_of(alloc: Global, o: &Offers, found: &[Choice]) -> Result<Seq<u32>, Memory> {
    let mut choices = Seq::new(alloc);
    for choice in found {
        add_query(o, &mut choices, choice)?;
    }
    Ok(choices)
}

/// What no plan costs less than by the prices of a sheet, in items.
fn least_of(o: &Offers, sheet: &mut Sheet) -> u64 {
    bound(o, sheet).div_ceil(sheet.scale.max(1))
}

/// A plan for these queries on this switch that costs little, with prices on the limits of the switch that show how little plans
/// can cost. The table has places for the queries, and the switch is one that a text can stand for.
///
/// Where the search's first attempt finds no room for every query, there are no choices, and the plan is the one that an empty list
/// names: each query at its finest level alone, with cut 0. Such pieces take up nothing of a switch, so that this comes only where
/// what a piece costs, in parts of an item, reaches 2^64 - 1.
///
/// Each of up to three attempts takes at most `most` steps. The prices' numbers are in the text's ranges (`AreWritable`). Nothing else is promised: that the plan fits, what it costs and what the prices show is tested by
/// whoever writes them.
///
/// # Errors
/// Out of memory.
pub fn find(t: &Typed, s: &Switch, c: &CostTable, most: u32) -> Result<Found, Memory>
    requires switch { IsSwitch s.now }
    requires places { HasPlaces c.now (length t.now.queries) }
    ensures { IfOk result (λ found. AreWritable found.prices) }
{
    let known = queries_of(t.alloc, s, c, t.queries.as_slice())?;
    let o = gather(t.alloc, s, known.as_slice())?;
    let mut sheet = ascend(t.alloc, &o)?;
    let least = least_of(&o, &mut sheet);
    let found = search(t.alloc, &o, &sheet, least, most)?;
    let choices = choices_of(t.alloc, &o, found.as_slice())?;
    let plan = plan_of(t, s, choices.as_slice())?;
    let prices = writable(t.alloc, &sheet)?;
    Ok(Found { plan, prices })
}
