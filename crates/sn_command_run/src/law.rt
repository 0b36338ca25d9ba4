//! A law on `run`, with nothing to run.
ghost use Rattle.std.specs.Prelude.{ℕ, List, Bool};
ghost use Rattle.sn_command_run.specs.Planned.{Telling};
ghost use Rattle.sn_command_run.specs.Run.{Run};
ghost use Rattle.sn_command.specs.Outcomes.{HasOne};

/// Over each set of files `run` has exactly one outcome, whatever is reported of answers.
#[tactic(auto, using(crate::proofs::RunLemmas::one_run))]
pub fn run_has_one_outcome()
    ensures { (reported : Telling) (csv : Bool) (switch queries plan capture : List ℕ) → HasOne (Run reported csv switch queries plan capture) }
{}
