//! Queries and a switch, with the plan that costs least.

use sn_command_search::certificate::Certificate;
use sn_switch::switch::Switch;
use sn_types::typed::Typed;

/// Queries and a switch, with the certificate of the plan that costs least on a training capture.
#[derive(Drop)]
pub struct Certified {
    pub typed: Typed,
    pub limits: Switch,
    pub certificate: Certificate,
}
