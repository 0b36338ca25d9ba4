//! Laws, with nothing to run.
ghost use Rattle.std.specs.Prelude.{ℕ, List};
ghost use Rattle.sn_command_texts.specs.Queries.{QueriesIn};
ghost use Rattle.sn_command_texts.specs.Texts.{PlanIn, SwitchIn};
ghost use Rattle.sn_command.specs.Stages.{HasVerdict};

/// Each text is judged in exactly one way as queries, in one as a switch, and in one as a plan.
pub fn texts_have_one_verdict()
    ensures queries { (text : List ℕ) → HasVerdict (QueriesIn text) }
    ensures switch { (text : List ℕ) → HasVerdict (SwitchIn text) }
    ensures plan { (text : List ℕ) → HasVerdict (PlanIn text) }
{}
