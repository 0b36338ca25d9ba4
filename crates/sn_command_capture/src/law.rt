//! A law on answered captures, with nothing to run.
ghost use Rattle.std.specs.Prelude.{ℕ, List};
ghost use Rattle.sn_command_capture.specs.Capture.{Answered};
ghost use Rattle.sn_command_capture.specs.Wording.{Wording};
ghost use Rattle.sn_command.specs.Outcomes.{HasOne};

/// Over each set of files an answered capture has exactly one outcome, however its windows are answered.
#[tactic(auto, using(crate::proofs::AnsweredLemmas::one_answered))]
pub fn answered_captures_have_one_outcome()
    ensures { (wording : Wording) (window : ℕ) (capture : List ℕ) → HasOne (Answered wording window capture) }
{}
