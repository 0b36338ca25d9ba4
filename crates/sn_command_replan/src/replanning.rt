//! A capture that is answered along the plans of its epochs.

use sn_base::seq::Seq;
use sn_command::fault::Fault;
use sn_command_search::certificate::Certificate;
use sn_fields::tuple::Tuple;
use sn_replan::epochs::Epochs;
use sn_switch::switch::Switch;
use sn_types::typed::Typed;
use std::alloc::Global;

/// Epochs at work over the windows of a capture, and what the next plan is searched by.
#[derive(Drop)]
pub struct Replanning {
    pub alloc: Global,
    pub typed: Typed,
    pub limits: Switch,
    /// How many nodes a search may expand.
    pub nodes: u32,
    /// The plan of the first epoch.
    pub first: Certificate,
    pub epochs: Epochs,
    /// The number of the current epoch.
    pub number: u64,
    /// What stands before the block of the current window.
    pub heading: Seq<u8>,
    /// The tuples of the current window: a plan may be searched for on them.
    pub tuples: Seq<Tuple>,
    /// Why there is no plan for the current window.
    pub refused: Option<Fault>,
    /// How many items were sent in all windows.
    pub emitted: u64,
}
