//! Tests of query texts, of their types, and of what queries answer and print. It has tests alone, which cross the
//! crates of queries.
#![tactic(auto)]

#[cfg(test)]
mod answers;
#[cfg(test)]
mod blocks;
#[cfg(test)]
mod checked;
#[cfg(test)]
mod numbers;
#[cfg(test)]
mod operators;
#[cfg(test)]
mod printed;
#[cfg(test)]
mod refused;
