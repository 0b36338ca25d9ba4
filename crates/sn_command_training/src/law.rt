//! A law, with nothing to run.
ghost use Rattle.std.specs.Prelude.{ℕ, List};
ghost use Rattle.sn_command.specs.Stages.{HasVerdict};
ghost use Rattle.sn_command_training.specs.Training.{TrainingIn};

/// Each file is judged in exactly one way as a training capture.
pub fn captures_have_one_training()
    ensures { (window : ℕ) (file : List ℕ) → HasVerdict (TrainingIn window file) }
{}
