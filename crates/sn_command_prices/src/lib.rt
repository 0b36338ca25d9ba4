//! Prices over training windows, as commands read, test, make and write them.
#![tactic(auto)]

pub mod following;
pub mod law;
pub mod make;
pub mod shown;
pub mod test;
pub mod text;
