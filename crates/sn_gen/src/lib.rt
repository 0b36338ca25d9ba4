//! Captures that are made from a number, and the texts of a whole job over them.
#![tactic(auto)]

pub mod capture;
pub mod draws;
pub mod frame;
pub mod job;
pub mod packet;
pub mod segment;
