//! The commands `plan` and `live`: the plan that costs least on a training capture, and a capture answered along it.
#![tactic(auto)]

pub mod certified;
pub mod certify;
pub mod law;
pub mod live;
pub mod plan;
pub mod traced;
