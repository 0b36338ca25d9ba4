//! Refined queries that are watched over windows.

use sn_base::seq::Seq;
use sn_detect::detect::Detect;
use sn_fields::tuple::Tuple;
use sn_plan_grammar::plan::Plan;
use sn_types::typed::Typed;
use std::alloc::Global;

/// Queries, a plan of their shape, each refined query beside itself unrefined, and the tuples of the current window.
#[derive(Drop)]
pub struct Watch {
    pub alloc: Global,
    pub typed: Typed,
    pub plan: Plan,
    pub detects: Vec<Detect>,
    pub tuples: Seq<Tuple>,
}
