//! A law on `emit`, with nothing to run.
ghost use Rattle.std.specs.Prelude.{ℕ, List};
ghost use Rattle.sn_command_emit.specs.Emit.{Emit};
ghost use Rattle.sn_command.specs.Outcomes.{HasOne};

/// Over each set of files `emit` has exactly one outcome.
#[tactic(auto, using(crate::proofs::EmitLemmas::one_emit))]
pub fn emit_has_one_outcome()
    ensures { (switch queries plan capture : List ℕ) → HasOne (Emit switch queries plan capture) }
{}
