//! Laws on `gen` and `job`, with nothing to run.
ghost use Rattle.std.specs.Prelude.{ℕ};
ghost use Rattle.sn_command_job.specs.Gen.{Gen};
ghost use Rattle.sn_command_job.specs.Job.{Job};
ghost use Rattle.sn_command_run.specs.Planned.{Telling};
ghost use Rattle.sn_command.specs.Outcomes.{HasOne};

/// `gen` has exactly one outcome, whatever files there are.
#[tactic(auto, using(crate::proofs::GenLemmas::one_gen))]
pub fn gen_has_one_outcome()
    ensures { (number : ℕ) → HasOne (Gen number) }
{}

/// `job` has exactly one outcome, whatever files there are.
pub fn job_has_one_outcome()
    ensures { (reported : Telling) (number : ℕ) → HasOne (Job reported number) }
{}
