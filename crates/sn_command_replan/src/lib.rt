//! The command `replan`: a capture is answered along plans that follow its traffic.
#![tactic(auto)]

pub mod answering;
pub mod law;
mod planned;
pub mod replan;
pub mod replanning;
pub mod text;
