//! The queries of a file.
ghost use Rattle.std.specs.Prelude.{◌≤◌, ◌^◌, [], ◌∷◌, length};
ghost use Rattle.sn_command.specs.Desks.{world};
ghost use Rattle.sn_command.specs.Refusals.{seen_as};
ghost use Rattle.sn_command.specs.Runs.{Answers, WorksFrom};
ghost use Rattle.sn_command.specs.Stages.{Text};
ghost use Rattle.sn_command_texts.specs.Queries.{queries_of, QueriesIn};

use sn_base::seed::Seed;
use sn_command::desk::Desk;
use sn_command::fault::Fault;
use sn_command::files::{MOST_TEXT, read_file};
use sn_command::refusal::Refusal;
use sn_io::inputs::Inputs;
use sn_io::sink::Sink;
use sn_types::typed::Typed;
use sn_types_read::fault::Refused;
use sn_types_read::read::read;
use std::alloc::Global;

/// The queries of a text.
fn judge_queries(alloc: Global, text: &[u8]) -> Result<Typed, Refusal>
    requires { length text.now ≤ 2 ^ 30 }
    ensures { Answers (QueriesIn text.now) (seen_as queries_of result) }
{
    match read(alloc, text) {
        Ok(typed) => Ok(typed),
        Err(Refused::Fault(fault)) => Err(Refusal::Refused(Fault::Queries(fault))),
        Err(Refused::Memory) => Err(Refusal::Memory),
    }
}

/// The queries of a text, whose tables of rows hash from this seed.
fn seeded_queries(alloc: Global, seed: Seed, text: &[u8]) -> Result<Typed, Refusal>
    requires { length text.now ≤ 2 ^ 30 }
    ensures { Answers (QueriesIn text.now) (seen_as queries_of result) }
{
    let typed = judge_queries(alloc, text)?;
    Ok(typed.with_seed(seed))
}

/// Reads the queries of a file.
pub fn read_queries<I: Inputs, O: Sink>(
    alloc: Global,
    desk: &mut Desk<'_, I, O>,
    name: &str,
) -> Result<Typed, Refusal>
    ensures { WorksFrom 2 (name.now ∷ []) (Text name.now QueriesIn) (world I.Inputs O.Sink desk.old) (seen_as queries_of result)
        (world I.Inputs O.Sink desk.new) }
{
    let text = read_file(alloc, desk, name, MOST_TEXT)?;
    seeded_queries(alloc, desk.files.seed(), text.as_slice())
}
