//! The work: the files are read, the table is built, and its text is written.
ghost use Rattle.std.specs.Prelude.{◌≡◌, ◌≤◌, [], ◌∷◌, IfOk, length};
ghost use Rattle.sn_command.specs.Desks.{world};
ghost use Rattle.sn_command.specs.Runs.{Runs, WorksFrom};
ghost use Rattle.sn_command.specs.Stages.{Adds};
ghost use Rattle.sn_cost.specs.Entries.{trained};
ghost use Rattle.sn_switch.specs.Texts.{IsSwitch};
ghost use Rattle.sn_windows.specs.Blocks.{most_records};
ghost use Rattle.sonata_entries.specs.Entries.{Entries};
ghost use Rattle.sonata_entries.specs.Table.{counted, table_text};

use crate::table::table_text;
use sn_base::memory::Memory;
use sn_base::seq::Seq;
use sn_command::desk::Desk;
use sn_command::refusal::Refusal;
use sn_command::texts::write_text;
use sn_command_texts::queries::read_queries;
use sn_command_texts::texts::read_switch;
use sn_command_training::read::read_training;
use sn_cost::build::build;
use sn_cost_training::training::Training;
use sn_io::inputs::Inputs;
use sn_io::sink::Sink;
use sn_switch::switch::Switch;
use sn_types::typed::Typed;
use std::alloc::Global;

/// The text of the cost table of training windows.
fn trained_text(t: &Typed, s: &Switch, training: &Training) -> Result<Seq<u8>, Memory>
    requires switch { IsSwitch s.now }
    requires few { length training.now.numbers ≤ most_records }
    ensures { IfOk result (λ text. text ≡
        table_text s.now (counted s.now t.now.queries (trained training.now.numbers training.now.tuples)) t.now.queries) }
{
    let table = build(t, s, training)?;
    table_text(t, s, &table)
}

/// Reads the queries, the switch and the training capture, and writes the cost table.
pub fn write_entries<I: Inputs, O: Sink>(
    alloc: Global,
    switch: &str,
    queries: &str,
    train: &str,
    desk: &mut Desk<'_, I, O>,
) -> Result<(), Refusal>
    ensures { WorksFrom 2 (queries.now ∷ switch.now ∷ train.now ∷ []) (Entries switch.now queries.now train.now) (world I.Inputs O.Sink desk.old) result
        (world I.Inputs O.Sink desk.new) }
{
    let typed = read_queries(alloc, desk, queries)?;
    let limits = read_switch(alloc, desk, switch)?;
    let training = read_training(alloc, desk, train, typed.window_ns())?;
    let text = trained_text(&typed, &limits, &training)?;
    write_text(text.as_slice(), desk)
}
