//! The command `check`.
ghost use Rattle.std.specs.Prelude.{◌≤◌, ◌^◌, [], ◌∷◌, length};
ghost use Rattle.sn_command_check.specs.Check.{Check, PlanTree, Priced, Treed};
ghost use Rattle.sn_command_texts.specs.Queries.{queries_of};
ghost use Rattle.sn_command.specs.Desks.{world};
ghost use Rattle.sn_command.specs.Runs.{Runs, WorksFrom};
ghost use Rattle.sn_plan_fit.specs.Fits.{Fits};
ghost use Rattle.sn_switch.specs.Texts.{IsSwitch};
ghost use Rattle.sn_windows.specs.Blocks.{most_records};

use crate::plan_tree::{judge_plan, judge_tree};
use crate::shown::test_tree;
use crate::yes::{say_bounded, say_yes};
use sn_command::desk::Desk;
use sn_command::files::{MOST_TEXT, read_file};
use sn_command::refusal::Refusal;
use sn_command_prices::following::judge_prices;
use sn_command_prices::test::test_prices;
use sn_command_texts::fit::test_fit;
use sn_command_texts::queries::read_queries;
use sn_command_texts::texts::read_switch;
use sn_command_training::read::read_training;
use sn_cost_training::training::Training;
use sn_io::inputs::Inputs;
use sn_io::sink::Sink;
use sn_plan_grammar::plan::Plan;
use sn_prices_text::has_prices;
use sn_switch::switch::Switch;
use sn_types::typed::Typed;
use std::alloc::Global;

/// Reads a cost and a tree from a text after a plan that fits, and says yes where they show that no plan costs less over training windows.
fn check_tree<I: Inputs, O: Sink>(
    alloc: Global,
    typed: &Typed,
    limits: &Switch,
    training: &Training,
    plan: &Plan,
    text: &[u8],
    byte: u64,
    desk: &mut Desk<'_, I, O>,
) -> Result<(), Refusal>
    requires switch { IsSwitch limits.now }
    requires few { length training.now.numbers ≤ most_records }
    requires within { length text.now ≤ 2 ^ 30 }
    requires fits { Fits typed.now.queries limits.now plan.now.entries }
    ensures { Runs [] (Treed (queries_of typed.now) limits.now training.now text.now plan.now byte) (world I.Inputs O.Sink desk.old) result
        (world I.Inputs O.Sink desk.new) }
{
    let tree = judge_tree(text, byte)?;
    test_tree(alloc, typed, limits, training, plan, &tree)?;
    say_yes(tree.cost(), tree.count(), desk)
}

/// Reads a cost and prices from a text after a plan that fits, and says yes where they show that no plan costs less over training windows
/// than the number that is reported.
fn check_prices<I: Inputs, O: Sink>(
    alloc: Global,
    typed: &Typed,
    limits: &Switch,
    training: &Training,
    plan: &Plan,
    text: &[u8],
    byte: u64,
    desk: &mut Desk<'_, I, O>,
) -> Result<(), Refusal>
    requires switch { IsSwitch limits.now }
    requires few { length training.now.numbers ≤ most_records }
    requires within { length text.now ≤ 2 ^ 30 }
    requires fits { Fits typed.now.queries limits.now plan.now.entries }
    ensures { Runs [] (Priced (queries_of typed.now) limits.now training.now text.now plan.now byte) (world I.Inputs O.Sink desk.old) result
        (world I.Inputs O.Sink desk.new) }
{
    let shown = judge_prices(alloc, text, byte)?;
    test_prices(typed, limits, training, plan, &shown)?;
    say_bounded(shown.cost, shown.least, desk)
}

/// Reads a plan from a text, tests it, and says yes where what stands after it shows that no plan costs less over training windows, or how much
/// less at most.
fn check_text<I: Inputs, O: Sink>(
    alloc: Global,
    typed: &Typed,
    limits: &Switch,
    training: &Training,
    text: &[u8],
    desk: &mut Desk<'_, I, O>,
) -> Result<(), Refusal>
    requires switch { IsSwitch limits.now }
    requires few { length training.now.numbers ≤ most_records }
    requires within { length text.now ≤ 2 ^ 30 }
    ensures { Runs [] (PlanTree (queries_of typed.now) limits.now training.now text.now) (world I.Inputs O.Sink desk.old) result
        (world I.Inputs O.Sink desk.new) }
{
    let (plan, byte) = judge_plan(alloc, text)?;
    test_fit(typed, limits, &plan)?;
    if has_prices(text, byte) {
        check_prices(alloc, typed, limits, training, &plan, text, byte, desk)
    } else {
        check_tree(alloc, typed, limits, training, &plan, text, byte, desk)
    }
}

/// `check SWITCH QUERIES TRAIN PLANTREE`: reads the queries, the switch, the training capture and the plan, tests the plan, and says
/// yes where the cost and the tree after the plan show that no plan costs less on the training capture, or the prices that none costs less
/// than the number after them.
pub fn check<I: Inputs, O: Sink>(
    alloc: Global,
    switch: &str,
    queries: &str,
    train: &str,
    plantree: &str,
    desk: &mut Desk<'_, I, O>,
) -> Result<(), Refusal>
    ensures { WorksFrom 2 (queries.now ∷ switch.now ∷ train.now ∷ plantree.now ∷ []) (Check switch.now queries.now train.now plantree.now)
        (world I.Inputs O.Sink desk.old) result (world I.Inputs O.Sink desk.new) }
{
    let typed = read_queries(alloc, desk, queries)?;
    let limits = read_switch(alloc, desk, switch)?;
    let training = read_training(alloc, desk, train, typed.window_ns())?;
    let text = read_file(alloc, desk, plantree, MOST_TEXT)?;
    check_text(alloc, &typed, &limits, &training, text.as_slice(), desk)
}
