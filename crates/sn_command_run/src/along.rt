//! A plan at work over the windows of a capture.

use crate::form::Form;
use sn_emit::tables::Tables;
use sn_gen::draws::Draws;
use sn_plan_grammar::plan::Plan;
use sn_types::typed::Typed;
use std::alloc::Global;

/// A plan that fits a switch, and a machine that answers windows along it.
#[derive(Drop)]
pub struct Along<M: Drop> {
    pub alloc: Global,
    pub typed: Typed,
    pub plan: Plan,
    /// The room of the switch for registers and prefixes.
    pub tables: Tables,
    pub machine: M,
    /// They pick what happens next in the machine.
    pub draws: Draws,
    /// How its answers are written.
    pub form: Form,
    /// How many items were sent in all windows, as the machine reported.
    pub emitted: u64,
}
