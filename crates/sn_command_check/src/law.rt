//! Laws on `check`, with nothing to run.
ghost use Rattle.std.specs.Prelude.{◌≡◌, ℕ, List, Ok, false};
ghost use Rattle.sn_command_check.specs.Check.{Check};
ghost use Rattle.sn_command_check.specs.Least.{ShowsLeast};
ghost use Rattle.sn_io.specs.Counts.{ByName};
ghost use Rattle.sn_prices_text.specs.Announced.{has_prices};
ghost use Rattle.sn_text.specs.Cutting.{tokens_of};
ghost use Rattle.sn_tree_space.specs.declared.node.Node.{Node};
ghost use Rattle.sn_tree_text.specs.Places.{from_byte};
ghost use Rattle.sn_tree_text.specs.Texts.{IsRead};
ghost use Rattle.sn_command.specs.Outcomes.{HasOne, Outcome};

use sn_command_prices::law::prices_without_fault_bound_costs;

/// Over each set of files `check` has exactly one outcome.
pub fn check_has_one_outcome()
    ensures { (switch queries train plantree : List ℕ) → HasOne (Check switch queries train plantree) }
{}

/// Where `check` says yes, the plan fits, the line says what it costs over the training capture, and no plan that fits costs less there, or less than
/// the number that the line says, whoever made the tree or the prices.
pub fn yes_shows_least()
    ensures { (switch queries train plantree : List ℕ) (files : ByName (List ℕ)) (outcome : Outcome (Unit {0})) →
        Check switch queries train plantree files outcome → outcome.end ≡ Ok tt →
        ShowsLeast switch queries train plantree files outcome.text }
{
    prices_without_fault_bound_costs();
}

/// A cost and a tree after a plan are taken for what they are: no text of them is taken for prices.
pub fn trees_are_no_prices()
    ensures { (text : List ℕ) (byte cost : ℕ) (tree : List Node) → IsRead text byte (Ok (cost, tree)) →
        has_prices (from_byte byte (tokens_of text)) ≡ false }
{}
