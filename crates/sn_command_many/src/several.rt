//! The command `many`.
ghost use Rattle.std.specs.Prelude.{◌≤◌, ◌∷◌, length};
ghost use Rattle.sn_cli.specs.Words.{texts};
ghost use Rattle.sn_command.specs.Desks.{world};
ghost use Rattle.sn_command.specs.Runs.{WorksFrom};
ghost use Rattle.sn_command_many.specs.Several.{Several};

use crate::joint::Joint;
use sn_command::desk::Desk;
use sn_command::refusal::Refusal;
use sn_command_captures::answer::answer_shares;
use sn_command_captures::count::count;
use sn_command_captures::read::read_captures;
use sn_command_texts::fit::test_fit;
use sn_command_texts::queries::read_queries;
use sn_command_texts::texts::{read_plan, read_switch};
use sn_io::inputs::Inputs;
use sn_io::sink::Sink;
use std::alloc::Global;

/// `many SWITCH QUERIES PLAN CAPTURE CAPTURE { CAPTURE }`: reads the queries, the switch and the plan, tests the plan, reads the
/// captures whole and counts them, and answers them along the plan as if one switch had seen the packets of all.
pub fn many<I: Inputs, O: Sink>(
    alloc: Global,
    switch: &str,
    queries: &str,
    plan: &str,
    captures: &[String],
    desk: &mut Desk<'_, I, O>,
) -> Result<(), Refusal>
    requires { length captures.now ≤ 8 }
    ensures { WorksFrom 2 (queries.now ∷ switch.now ∷ plan.now ∷ texts captures.now) (Several switch.now queries.now plan.now (texts captures.now))
        (world I.Inputs O.Sink desk.old) result (world I.Inputs O.Sink desk.new) }
{
    let typed = read_queries(alloc, desk, queries)?;
    let limits = read_switch(alloc, desk, switch)?;
    let entries = read_plan(alloc, desk, plan)?;
    test_fit(&typed, &limits, &entries)?;
    let captures = read_captures(alloc, desk, captures)?;
    let shares = count(alloc, typed.window_ns(), captures)?;
    let mut shares = shares.into_vec();
    let switches = shares.len() as u32;
    let mut joint = Joint::make(typed, &limits, entries, switches)?;
    answer_shares(&mut joint, &mut shares, desk)
}
