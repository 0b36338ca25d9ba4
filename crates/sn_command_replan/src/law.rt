//! A law on `replan`, with nothing to run.
ghost use Rattle.std.specs.Prelude.{ℕ, List};
ghost use Rattle.sn_command.specs.Outcomes.{HasOne};
ghost use Rattle.sn_command_replan.specs.Replan.{Replans};

/// Over each set of files `replan` has exactly one outcome.
#[tactic(auto, using(crate::proofs::OneLemmas::one_replan_run))]
pub fn replan_has_one_outcome()
    ensures { (switch queries train capture : List ℕ) (most nodes : ℕ) → HasOne (Replans switch queries train capture most nodes) }
{}
