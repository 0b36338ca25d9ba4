//! The command `run`; and captures answered along a plan with the lines of what happens in the machine, which stand
//! before the block of each window: `traced`, and the modules whose names begin with `trace`.
#![tactic(auto)]

pub mod along;
pub mod answer;
pub mod answering;
pub mod form;
pub mod law;
pub mod reported;
pub mod run;
mod texts;
pub mod trace_answer;
pub mod trace_answering;
mod trace_texts;
pub mod trace_windows;
pub mod traced;
pub mod windows;
