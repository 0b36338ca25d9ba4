//! Plans, from texts to the search of one that costs least: switches, plans, what fits, choices, costs, trees and their
//! texts. It has tests alone, which cross the crates of all these, and the small space of a worked example.
#![tactic(auto)]

#[cfg(test)]
mod checked;
#[cfg(test)]
mod choices;
#[cfg(test)]
mod costs;
#[cfg(test)]
mod counts;
#[cfg(test)]
mod found;
#[cfg(test)]
mod misfits;
#[cfg(test)]
mod options;
#[cfg(test)]
mod read;
#[cfg(test)]
mod texts;
#[cfg(test)]
mod tree_texts;
#[cfg(test)]
mod two;
pub mod two_queries;
