//! Laws on `plan` and `live`, with nothing to run.
ghost use Rattle.std.specs.Prelude.{◌≡◌, ℕ, ◌+◌, ◌*◌, List, [], ◌∷◌};
ghost use Rattle.sn_command_capture.specs.Capture.{ending_verdict};
ghost use Rattle.sn_io.specs.Counts.{ByName};
ghost use Rattle.sn_command_live.specs.Headline.{AreAccepted, Headline, KeepsHeadline, KeepsLimits, cost_on};
ghost use Rattle.sn_cost_laws.specs.Sent.{installed_over};
ghost use Rattle.sn_command_live.specs.Live.{Live, Plan, TracedLive};
ghost use Rattle.sn_pcap.specs.declared.packet.Ending.{Ending};
ghost use Rattle.sn_plan_grammar.specs.declared.plan.Plan.{Plan as AnyPlan};
ghost use Rattle.sn_command_run.specs.Planned.{Telling, as_they_are, emitted_in};
ghost use Rattle.sn_command_run.specs.Run.{planned};
ghost use Rattle.sn_command.specs.Ends.{Around, IsCommandRun};
ghost use Rattle.sn_command.specs.Outcomes.{HasOne, Outcome};
ghost use Rattle.sn_command.specs.Refusals.{refusing};

use sn_command_search::law::certificates_show_least;
use sn_cost_laws::sent::costs_are_items_sent;
use sn_plan_lists::law::typed_queries_and_switches_rise;

/// Over each set of files `plan` has exactly one outcome.
#[tactic(auto, using(crate::proofs::LiveLemmas::one_plan_run))]
pub fn plan_has_one_outcome()
    ensures { (switch queries train : List ℕ) (nodes : ℕ) → HasOne (Plan switch queries train nodes) }
{}

/// Over each set of files `live` has exactly one outcome, whatever is reported of answers.
#[tactic(auto, using(crate::proofs::LiveLemmas::one_live_run))]
pub fn live_has_one_outcome()
    ensures { (reported : Telling) (switch queries train capture : List ℕ) (nodes : ℕ) → HasOne (Live reported switch queries train capture nodes) }
{}

/// Over each set of files `live` with a trace has exactly one outcome, by each schedule.
#[tactic(auto, using(crate::proofs::LiveLemmas::one_traced_run))]
pub fn traced_live_has_one_outcome()
    ensures { (schedule : ℕ) (reported : Telling) (switch queries train capture : List ℕ) (nodes : ℕ) →
        HasOne (TracedLive schedule reported switch queries train capture nodes) }
{}

/// Of accepted queries, an accepted switch and two captures `live` prints a plan that fits, a tree that shows that no plan that fits costs less on the
/// first capture, and for each window of the second one the refined answers along the plan, with the number of items that were sent: so it is where
/// the machine reports its answers as they are.
pub fn live_keeps_the_headline()
    // Where the limits are kept, this is the whole text, and the work ends as the records of the second capture do.
    ensures printed { (switch queries train capture : List ℕ) (files : ByName (List ℕ)) (ending : Ending)
        (given : AreAccepted switch queries train capture files ending) (nodes : ℕ) (outcome : Outcome (Unit {0})) →
        KeepsLimits given nodes → Live as_they_are switch queries train capture nodes files outcome →
        (outcome.end ≡ refusing (ending_verdict ending)) × Headline given outcome.text }
    // The work ends so in no other case.
    ensures only { (switch queries train capture : List ℕ) (files : ByName (List ℕ)) (ending : Ending) (nodes : ℕ) (outcome : Outcome (Unit {0})) →
        Live as_they_are switch queries train capture nodes files outcome → outcome.end ≡ refusing (ending_verdict ending) →
        (given : AreAccepted switch queries train capture files ending) × Headline given outcome.text }
{
    typed_queries_and_switches_rise();
    certificates_show_least();
    costs_are_items_sent();
}

/// A call that is a run of the stages of `live`, by a machine that reports its answers as they are, keeps the headline.
pub fn runs_of_live_keep_the_headline()
    ensures { (switch queries train capture : List ℕ) (nodes : ℕ) (before : Around) (status : ℕ) (now : Around) →
        IsCommandRun (queries ∷ switch ∷ train ∷ capture ∷ []) (Live as_they_are switch queries train capture nodes) before status now →
        KeepsHeadline switch queries train capture nodes before status now }
{
    live_keeps_the_headline();
}

/// Where the two captures are one file, the cost that is printed is the number of items that are sent in total, and the switch's weight for
/// each prefix that is installed. So with weight 0 it is the number of items.
pub fn trained_captures_cost_what_they_send()
    ensures weighted { (switch queries file : List ℕ) (files : ByName (List ℕ)) (ending : Ending)
        (given : AreAccepted switch queries file file files ending) (plan : AnyPlan) →
        cost_on given.first given.read given.limits plan.entries ≡ emitted_in (planned given.read given.limits plan) given.second
        + given.limits.weight * installed_over given.limits given.read.queries plan.entries given.second }
    ensures unweighted { (switch queries file : List ℕ) (files : ByName (List ℕ)) (ending : Ending)
        (given : AreAccepted switch queries file file files ending) (plan : AnyPlan) → given.limits.weight ≡ 0 →
        cost_on given.first given.read given.limits plan.entries ≡ emitted_in (planned given.read given.limits plan) given.second }
{}
