//! Laws, with nothing to run.
ghost use Rattle.std.specs.Prelude.{ℕ, List};
ghost use Rattle.sn_command.specs.Outcomes.{HasOne};
ghost use Rattle.sn_command_captures.specs.Captures.{Captures};

/// Over each set of files captures are read in exactly one way.
#[tactic(auto, using(crate::proofs::CaptureLemmas::one_captures))]
pub fn captures_are_read_in_one_way()
    ensures { (names : List (List ℕ)) → HasOne (Captures names) }
{}
