//! Laws, with nothing to run.
ghost use Rattle.std.specs.Prelude.{◌≡◌, ◌<◌, ◌≤◌, ℕ, List, None, Ok, length, map};
ghost use Rattle.std.specs.List.{AllByRecursion};
ghost use Rattle.sn_engine.specs.Intakes.{intakes_of};
ghost use Rattle.sn_command_finish.specs.Finish.{Finish};
ghost use Rattle.sn_command_finish.specs.Reported.{Reported};
ghost use Rattle.sn_command_finish.specs.Whole.{HaveNames, IsWindow, Rise, Sent, answered_text, frames_in};
ghost use Rattle.sn_report.specs.Framed.{IsWritten, Written, bytes_of};
ghost use Rattle.sn_io.specs.Counts.{ByName};
ghost use Rattle.sn_plan_grammar.specs.declared.plan.Entry.{Entry};
ghost use Rattle.sn_command.specs.Outcomes.{HasOne, Outcome};
ghost use Rattle.sn_command.specs.Stages.{most_text};
ghost use Rattle.sn_types.specs.declared.typed_query.TypedQuery.{TypedQuery};

/// Over each set of files `finish` has exactly one outcome.
#[tactic(auto, using(crate::proofs::FinishLemmas::one_finish))]
pub fn finish_has_one_outcome()
    ensures { (queries plan reports : List ℕ) → HasOne (Finish queries plan reports) }
{}

/// Reports that are the frames of whole windows by rising number, in whatever order between the lanes of a plan and each in either
/// version, of at most 2^30 bytes, are answered with the value of the items of each window, their number, and the total.
pub fn whole_windows_are_answered()
    ensures { (queries : List TypedQuery) (entries : List Entry) (windows : List Sent) → 0 < length (intakes_of 0 entries) → HaveNames (intakes_of 0 entries) →
        Rise None windows →
        AllByRecursion (IsWindow queries (intakes_of 0 entries)) windows →
        (written : List Written) → map (λ w. w.frame) written ≡ frames_in windows → AllByRecursion IsWritten written → length (bytes_of written) ≤ most_text →
        (files : ByName (List ℕ)) (outcome : Outcome (Unit {0})) → Reported queries entries (bytes_of written) files outcome →
        outcome ≡ record { text = answered_text queries (intakes_of 0 entries) windows; end = Ok tt } }
{}
