//! How five parts are called by themselves: the code of their pages CALLING.md, proved.
#![tactic(auto)]

pub mod captures;
pub mod fields;
pub mod registers;
pub mod search;
pub mod texts;
