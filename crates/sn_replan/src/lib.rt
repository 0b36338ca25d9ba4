//! Plans that follow the traffic: windows are answered along a plan until the caller puts another in its place.
#![tactic(auto)]

mod copies;
pub mod epoch;
pub mod epochs;
mod give;
pub mod law;
