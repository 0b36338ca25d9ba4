//! The text of a plan with prices.
ghost use Rattle.std.specs.Prelude.{◌≡◌, IfOk};
ghost use Rattle.sn_command_prices.specs.Made.{priced_text};

use crate::make::PricedPlan;
use sn_base::bytes::push_bytes;
use sn_base::memory::Memory;
use sn_base::seq::Seq;
use sn_plan::print as print_plan;
use sn_prices_text::print as print_prices;
use std::alloc::Global;

/// The text of a plan with its cost, prices and what they show.
///
/// # Errors
/// Out of memory.
pub fn priced_text(alloc: Global, priced: &PricedPlan) -> Result<Seq<u8>, Memory>
    ensures { IfOk result (λ text. text ≡ priced_text priced.now) }
{
    let mut out = print_plan(alloc, &priced.plan)?.into_vec();
    let lines = print_prices(alloc, &priced.shown)?;
    push_bytes(&mut out, lines.as_slice())?;
    Ok(Seq::from_vec(out))
}
