//! Machines, and what drives them: supplies are given one by one, and events that are drawn happen until the next is wanted. What happens in
//! a machine that is driven, as a function of the number from which draws follow; and its lines.
#![tactic(auto)]

pub mod driving;
pub mod is_machine;
pub mod law;
pub mod lines;
pub mod machine;
mod marks;
pub mod note;
pub mod notes;
mod picking;
