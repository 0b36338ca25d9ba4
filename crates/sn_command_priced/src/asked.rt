//! What a plan is asked for.

use sn_cost_training::training::Training;
use sn_switch::switch::Switch;
use sn_types::typed::Typed;

/// Queries and a switch, with the training capture by which plans are compared.
#[derive(Drop)]
pub struct Asked {
    pub typed: Typed,
    pub limits: Switch,
    pub training: Training,
}
