//! What a plan is asked for, as files hold it.
ghost use Rattle.std.specs.Prelude.{◌≤◌, [], ◌∷◌, length, IfOk};
ghost use Rattle.sn_command.specs.Desks.{world};
ghost use Rattle.sn_command.specs.Refusals.{seen_as};
ghost use Rattle.sn_command.specs.Runs.{WorksFrom};
ghost use Rattle.sn_command_priced.specs.PlanPrices.{Reads, question_of};
ghost use Rattle.sn_switch.specs.Texts.{IsSwitch};
ghost use Rattle.sn_windows.specs.Blocks.{most_records};

use crate::asked::Asked;
use sn_command::desk::Desk;
use sn_command::refusal::Refusal;
use sn_command_texts::queries::read_queries;
use sn_command_texts::texts::read_switch;
use sn_command_training::read::read_training;
use sn_io::inputs::Inputs;
use sn_io::sink::Sink;
use std::alloc::Global;

/// Reads the queries, the switch and the training capture.
pub fn read_asked<I: Inputs, O: Sink>(
    alloc: Global,
    switch: &str,
    queries: &str,
    train: &str,
    desk: &mut Desk<'_, I, O>,
) -> Result<Asked, Refusal>
    ensures works { WorksFrom 2 (queries.now ∷ switch.now ∷ train.now ∷ []) (Reads switch.now queries.now train.now) (world I.Inputs O.Sink desk.old)
        (seen_as question_of result) (world I.Inputs O.Sink desk.new) }
    ensures limits { IfOk result (λ asked. IsSwitch asked.limits) }
    ensures few { IfOk result (λ asked. length asked.training.numbers ≤ most_records) }
{
    let typed = read_queries(alloc, desk, queries)?;
    let limits = read_switch(alloc, desk, switch)?;
    let training = read_training(alloc, desk, train, typed.window_ns())?;
    Ok(Asked {
        typed,
        limits,
        training,
    })
}
