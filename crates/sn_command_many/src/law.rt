//! A law on `many`, with nothing to run.
ghost use Rattle.std.specs.Prelude.{ℕ, List};
ghost use Rattle.sn_command.specs.Outcomes.{HasOne};
ghost use Rattle.sn_command_many.specs.Several.{Several};

/// Over each set of files `many` has exactly one outcome.
#[tactic(auto, using(crate::proofs::SeveralLemmas::one_several))]
pub fn many_has_one_outcome()
    ensures { (switch queries plan : List ℕ) (captures : List (List ℕ)) → HasOne (Several switch queries plan captures) }
{}
