//! The text of prices after a plan: `has_prices`, which tells whether it stands there, `parse`, which reads a cost, prices and what they show, and
//! `print`, which writes them.
#![tactic(auto)]

mod announced;
mod canonical;
pub mod fault;
pub mod law;
mod limits;
mod text;

pub use announced::has_prices;
pub use canonical::print;
pub use text::parse;
