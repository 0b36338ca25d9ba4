//! Laws on plans with prices, with nothing to run.
ghost use Rattle.std.specs.Prelude.{List, Ok, ℕ};
ghost use Rattle.sn_command.specs.Outcomes.{HasOne, silent};
ghost use Rattle.sn_command_priced.specs.PlanPrices.{BoundsCosts, Chooser, ChoosesRight, PlanPrices, Question, Reads};
ghost use Rattle.sn_io.specs.Counts.{ByName};

use sn_command_prices::law::prices_without_fault_bound_costs;

/// For each way to choose a plan with prices, the stages of `plan --prices` have exactly one outcome over each set of files.
pub fn plans_by_prices_have_one_outcome()
    ensures { (choose : Chooser) (switch queries train : List ℕ) → HasOne (PlanPrices choose switch queries train) }
{}

/// What is chosen right fits the switch. Its cost is what it costs on the training capture, and no plan that fits costs less than its number, which
/// isn't above that cost.
pub fn right_choices_bound_costs()
    ensures { (choose : Chooser) (switch queries train : List ℕ) (files : ByName (List ℕ)) (question : Question) →
        ChoosesRight choose switch queries train files → Reads switch queries train files (silent (Ok question)) → BoundsCosts question (choose question) }
{
    prices_without_fault_bound_costs();
}
