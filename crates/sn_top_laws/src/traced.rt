//! Laws on `live --trace`, with nothing to run.
ghost use Rattle.std.specs.Prelude.{◌≡◌, [], ◌∷◌, ℕ, List};
ghost use Rattle.sn_command.specs.Ends.{Around, IsCommandRun};
ghost use Rattle.sn_command.specs.Outcomes.{Outcome};
ghost use Rattle.sn_command.specs.Refusals.{refusing};
ghost use Rattle.sn_command_capture.specs.Capture.{ending_verdict};
ghost use Rattle.sn_command_live.specs.Headline.{AreAccepted, Headline, KeepsLimits};
ghost use Rattle.sn_command_live.specs.Live.{Live, TracedLive};
ghost use Rattle.sn_command_run.specs.Planned.{Telling, as_they_are};
ghost use Rattle.sn_io.specs.Counts.{ByName};
ghost use Rattle.sn_pcap.specs.declared.packet.Ending.{Ending};
ghost use Rattle.sn_top_laws.specs.Events.{AddsEvents, without_events};
ghost use Rattle.sn_top_laws.specs.TracedHeadline.{KeepsTracedHeadline};

use sn_command_live::law::live_keeps_the_headline;

/// Without its lines of events the text of `live --trace` is that of `live`, and both end alike: whatever the schedule, the files and what is
/// reported of answers.
pub fn traces_add_lines_of_events()
    ensures { (schedule nodes : ℕ) (reported : Telling) (switch queries train capture : List ℕ) (files : ByName (List ℕ)) (plain traced : Outcome (Unit {0})) →
        Live reported switch queries train capture nodes files plain → TracedLive schedule reported switch queries train capture nodes files traced →
        AddsEvents plain traced }
{}

/// So every schedule prints the same answers: without the lines of events the texts of two schedules are the same, and they end alike.
pub fn schedules_print_the_same()
    ensures { (first second nodes : ℕ) (reported : Telling) (switch queries train capture : List ℕ) (files : ByName (List ℕ)) (one other : Outcome (Unit {0})) →
        TracedLive first reported switch queries train capture nodes files one → TracedLive second reported switch queries train capture nodes files other →
        (without_events one.text ≡ without_events other.text) × (one.end ≡ other.end) }
{}

/// And `live --trace` keeps the headline, by a machine that reports its answers as they are: of accepted files with limits that are kept it is the
/// text without the lines of events, and the work ends as the records of the second capture do.
pub fn traces_keep_the_headline()
    ensures { (schedule nodes : ℕ) (switch queries train capture : List ℕ) (files : ByName (List ℕ)) (ending : Ending)
        (given : AreAccepted switch queries train capture files ending) (outcome : Outcome (Unit {0})) →
        KeepsLimits given nodes → TracedLive schedule as_they_are switch queries train capture nodes files outcome →
        (outcome.end ≡ refusing (ending_verdict ending)) × Headline given (without_events outcome.text) }
{
    live_keeps_the_headline();
}

/// So does a call that is a run of the stages of `live --trace`, as the contract of the top call has it.
pub fn runs_of_traces_keep_the_headline()
    ensures { (schedule nodes : ℕ) (switch queries train capture : List ℕ) (before : Around) (status : ℕ) (now : Around) →
        IsCommandRun (queries ∷ switch ∷ train ∷ capture ∷ []) (TracedLive schedule as_they_are switch queries train capture nodes) before status now →
        KeepsTracedHeadline switch queries train capture nodes before status now }
{
    live_keeps_the_headline();
}
