//! The top call.
#![tactic(auto)]

pub mod answering;
pub mod answers;
pub mod law;
pub mod plain;
pub mod top;
pub mod unsplit;
