//! Laws on what `check` and `run` make of a text that `plan` wrote, with nothing to run.
ghost use Rattle.std.specs.Prelude.{◌≡◌, ◌≤◌, ℕ, List, Ok, false, length};
ghost use Rattle.sn_command.specs.Outcomes.{Outcome};
ghost use Rattle.sn_command.specs.Stages.{most_text};
ghost use Rattle.sn_command_check.specs.Check.{Check};
ghost use Rattle.sn_command_live.specs.Live.{Plan};
ghost use Rattle.sn_command_run.specs.Planned.{as_they_are};
ghost use Rattle.sn_command_run.specs.Run.{Run};
ghost use Rattle.sn_io.specs.Counts.{ByName};
ghost use Rattle.sn_top_laws.specs.Calls.{Wrote};
ghost use Rattle.sn_top_laws.specs.Written.{CallsConfirm, HasNoWeight, IsKeptBeside, SaysYes, SendsAsMany, SendsCost};

use sn_command_search::law::certificates_show_least;

/// What `plan` wrote with status 0, where that is at most 2^30 bytes, stands in a file, beside the switch, the queries and the training capture
/// that it was given. Then `check` says yes of these four: of the cost that `plan` wrote, and of as many nodes as its tree has.
pub fn check_says_yes_to_what_plan_wrote()
    ensures { (switch queries train written : List ℕ) (nodes : ℕ) (files later : ByName (List ℕ)) (planned checked : Outcome (Unit {0})) →
        Plan switch queries train nodes files planned → planned.end ≡ Ok tt → length planned.text ≤ most_text →
        IsKeptBeside switch queries train written planned.text files later →
        Check switch queries train written later checked → SaysYes planned.text checked }
{
    certificates_show_least();
}

/// And `run` over the training capture, along the plan in that file, without `--csv` and with answers that are reported as they are, prints as the total
/// how many items the plan sends. The cost that `plan` wrote is this number, and the switch's weight for each prefix that is installed. So by a switch
/// without a weight it prints that cost.
pub fn run_sends_what_plan_wrote()
    ensures weighted { (switch queries train written : List ℕ) (nodes : ℕ) (files later : ByName (List ℕ)) (planned ran : Outcome (Unit {0})) →
        Plan switch queries train nodes files planned → planned.end ≡ Ok tt → length planned.text ≤ most_text →
        IsKeptBeside switch queries train written planned.text files later →
        Run as_they_are false switch queries written train later ran → SendsCost switch queries train later planned.text ran }
    ensures unweighted { (switch queries train written : List ℕ) (nodes : ℕ) (files later : ByName (List ℕ)) (planned ran : Outcome (Unit {0})) →
        Plan switch queries train nodes files planned → planned.end ≡ Ok tt → length planned.text ≤ most_text →
        IsKeptBeside switch queries train written planned.text files later →
        Run as_they_are false switch queries written train later ran → HasNoWeight switch later → SendsAsMany planned.text ran }
{
    certificates_show_least();
}

/// The same of calls with the words of these commands, as the contract of the top call has them: a call of `plan` ended with 0 and wrote a text.
/// Then each call of `check` over files that hold that text beside what `plan` was given is a run that says yes and ends with 0, and each call of
/// `run` along it over the training capture is a run that prints as the total the items by which it costs that, unless memory runs out or a read or a
/// write fails.
pub fn calls_confirm_what_plan_calls_write()
    ensures { (switch queries train written : List ℕ) (nodes : ℕ) (files later : ByName (List ℕ)) (plan_names : List (List ℕ)) (text : List ℕ) →
        Wrote plan_names (Plan switch queries train nodes) files 0 text → length text ≤ most_text → IsKeptBeside switch queries train written text files later →
        CallsConfirm switch queries train written text later }
{
    certificates_show_least();
}
