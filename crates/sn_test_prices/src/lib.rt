//! Prices on a switch's limits: their text, what they show of small spaces worked by hand, and plans and prices that are found for these. It has tests alone.
#![tactic(auto)]

#[cfg(test)]
mod faults;
#[cfg(test)]
mod found;
#[cfg(test)]
mod shown;
#[cfg(test)]
mod texts;
