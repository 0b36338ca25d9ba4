//! What each piece costs, by the tuples of training windows.
#![tactic(auto)]

mod adding;
mod branches;
pub mod build;
mod front;
mod fronts;
mod registers;
mod rows;
mod train;
mod window;
