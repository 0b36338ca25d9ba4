//! The command `job`.
ghost use Rattle.std.specs.Prelude.{[], ◌∷◌, codes};
ghost use Rattle.sn_command_job.specs.Job.{Job, Summed};
ghost use Rattle.sn_command.specs.Desks.{world};
ghost use Rattle.sn_command.specs.Runs.{WorksFrom};

use crate::files::job_files;
use crate::made::MadeFiles;
use crate::summing::Summing;
use sn_command::desk::Desk;
use sn_command::refusal::Refusal;
use sn_command_capture::capture::answer_capture;
use sn_command_run::along::Along;
use sn_command_run::form::Form;
use sn_command_search::search::search;
use sn_command_texts::queries::read_queries;
use sn_command_texts::texts::read_switch;
use sn_command_training::read::read_training;
use sn_core_drive::machine::Machine;
use sn_io::inputs::Inputs;
use sn_io::sink::Sink;
use std::alloc::Global;

/// The most nodes that the search for the plan expands.
const NODES: u32 = 100000;

/// Does a job over its files: searches for the plan that costs least on the training capture, answers the other capture along
/// it by a machine, and writes the summary.
fn sum_up<M: Machine, I: Inputs, O: Sink>(
    alloc: Global,
    number: u32,
    desk: &mut Desk<'_, I, O>,
) -> Result<(), Refusal>
    ensures { WorksFrom 2 (codes "queries" ∷ codes "switch" ∷ codes "training" ∷ codes "capture" ∷ []) (Summed M.reported number)
        (world I.Inputs O.Sink desk.old) result (world I.Inputs O.Sink desk.new) }
{
    let typed = read_queries(alloc, desk, "queries")?;
    let limits = read_switch(alloc, desk, "switch")?;
    let window_ns = typed.window_ns();
    let training = read_training(alloc, desk, "training", window_ns)?;
    let found = search(alloc, &typed, &limits, &training, NODES)?;
    let nodes = found.tree.as_slice().len() as u64;
    let along: Along<M> = Along::make(Form::Blocks, typed, &limits, found.plan)?;
    let mut summing = Summing {
        number,
        cost: found.cost,
        nodes,
        along,
        shown: Vec::new(alloc),
    };
    answer_capture(alloc, window_ns, "capture", &mut summing, desk)
}

/// `job NUMBER`: makes the captures of this number and of the next, searches for the plan of the job's queries that costs least on the
/// first, answers the second along it by a machine, and writes a summary. It reads no file.
pub fn job<M: Machine, I: Inputs, O: Sink>(
    alloc: Global,
    number: u32,
    desk: &mut Desk<'_, I, O>,
) -> Result<(), Refusal>
    ensures { WorksFrom 2 [] (Job M.reported number) (world I.Inputs O.Sink desk.old) result (world I.Inputs O.Sink desk.new) }
{
    let mut files = job_files(alloc, number)?;
    let mut made = Desk {
        files: &mut files,
        out: &mut *desk.out,
    };
    sum_up::<M, MadeFiles, O>(alloc, number, &mut made)
}
