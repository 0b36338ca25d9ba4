//! The top call: words in, texts and a status out.
ghost use Rattle.std.specs.Prelude.{◌≡◌, ◌↔◌, [], ◌∷◌, ℕ, Bool, drop, false, true};
ghost use Rattle.sn_cli.specs.declared.command.Command.{Command};
ghost use Rattle.sn_cli.specs.Grammar.{Spells};
ghost use Rattle.sn_cli.specs.Words.{texts, word_at};
ghost use Rattle.sn_command_check.specs.Check.{Check};
ghost use Rattle.sn_command_detect.specs.Detects.{Detects};
ghost use Rattle.sn_command_emit.specs.Emit.{Emit};
ghost use Rattle.sn_command_finish.specs.Finish.{Finish};
ghost use Rattle.sn_command_replan.specs.Replan.{Replans};
ghost use Rattle.sn_command_live.specs.Headline.{KeepsHeadline};
ghost use Rattle.sn_command_live.specs.Live.{Live, Plan, TracedLive};
ghost use Rattle.sn_command_many.specs.Several.{Several};
ghost use Rattle.sn_command_job.specs.Gen.{Gen};
ghost use Rattle.sn_command_job.specs.Job.{Job};
ghost use Rattle.sn_command.specs.Desks.{files_of, sunk, world};
ghost use Rattle.sn_command.specs.Ends.{end_status, IsCommandRun, IsStatusReported};
ghost use Rattle.sn_command.specs.Runs.{WorksFrom};
ghost use Rattle.sn_command.specs.Worlds.{OutRose};
ghost use Rattle.sn_top.specs.Plain.{Plain};
ghost use Rattle.sn_command_run.specs.Run.{Run};
ghost use Rattle.sn_command_run.specs.Planned.{as_they_are};
ghost use Rattle.sn_top.specs.Top.{IsLiveWork, IsPricedRun, IsUsage, IsWork, around};

use crate::plain::plain;
use sn_cli::command::Command;
use sn_cli::words::words;
use sn_command::desk::Desk;
use sn_command::lines::tell;
use sn_command::refusal::{Refusal, end_status};
use sn_command_check::check::check;
use sn_command_detect::detect::detect;
use sn_command_emit::emit::emit;
use sn_command_finish::finish::finish;
use sn_command_job::generate::generate;
use sn_command_job::job::job;
use sn_command_live::law::runs_of_live_keep_the_headline;
use sn_command_live::live::live;
use sn_command_live::plan::plan;
use sn_command_live::traced::live_traced;
use sn_command_many::several::many;
use sn_command_priced::plan::plan_by_prices;
use sn_command_replan::replan::replan;
use sn_command_run::run::run as answer_along;
use sn_core_drive::machine::Machine;
use sn_io::inputs::Inputs;
use sn_io::sink::Sink;
use std::alloc::Global;

/// The word at a place, and an empty one after the last.
fn word(given: &[String], place: usize) -> &str
    ensures { result.now ≡ word_at (texts given.now) place }
{
    match given.get(place) {
        Some(word) => word.as_str(),
        None => "",
    }
}

/// Does the work of `live`, with a trace or without it.
fn work_live<M: Machine, I: Inputs, O: Sink>(
    alloc: Global,
    nodes: u32,
    schedule: u32,
    trace: bool,
    given: &[String],
    desk: &mut Desk<'_, I, O>,
) -> Result<(), Refusal>
    ensures { IsLiveWork M.reported nodes schedule trace (texts given.now) (world I.Inputs O.Sink desk.old) result (world I.Inputs O.Sink desk.new) }
{
    let switch = word(given, 1);
    let queries = word(given, 2);
    let train = word(given, 3);
    let capture = word(given, 4);
    if trace {
        live_traced::<M, I, O>(
            alloc, switch, queries, train, capture, nodes, schedule, desk,
        )
    } else {
        live::<M, I, O>(alloc, switch, queries, train, capture, nodes, desk)
    }
}

/// Does the work of `many`, whose captures are all words after the three texts.
fn work_many<I: Inputs, O: Sink>(
    alloc: Global,
    given: &[String],
    desk: &mut Desk<'_, I, O>,
) -> Result<(), Refusal>
    requires { (captures : ℕ) × Spells (texts given.now) (Command.Many captures) }
    ensures { WorksFrom 2 (word_at (texts given.now) 2 ∷ word_at (texts given.now) 1 ∷ word_at (texts given.now) 3 ∷ drop 4 (texts given.now))
        (Several (word_at (texts given.now) 1) (word_at (texts given.now) 2) (word_at (texts given.now) 3) (drop 4 (texts given.now)))
        (world I.Inputs O.Sink desk.old) result (world I.Inputs O.Sink desk.new) }
{
    let switch = word(given, 1);
    let queries = word(given, 2);
    let plan = word(given, 3);
    let (_, captures) = given.split_at(4);
    many(alloc, switch, queries, plan, captures, desk)
}

/// Does the work of a command.
fn work<M: Machine, I: Inputs, O: Sink>(
    alloc: Global,
    command: Command,
    given: &[String],
    desk: &mut Desk<'_, I, O>,
) -> Result<(), Refusal>
    requires { Spells (texts given.now) command }
    ensures { IsWork M.reported command (texts given.now) (world I.Inputs O.Sink desk.old) result (world I.Inputs O.Sink desk.new) }
{
    let first = word(given, 1);
    let second = word(given, 2);
    let third = word(given, 3);
    let fourth = word(given, 4);
    match command {
        Command::Plain => plain(alloc, first, second, desk),
        Command::Plan { nodes } => plan(alloc, first, second, third, nodes, desk),
        Command::PlanPrices { nodes } => plan_by_prices(alloc, first, second, third, nodes, desk),
        Command::Run { csv } => answer_along::<M, I, O>(
            alloc, csv, first, second, third, fourth, desk,
        ),
        Command::Emit => emit(alloc, first, second, third, fourth, desk),
        Command::Finish => finish(alloc, first, second, third, desk),
        Command::Check => check(alloc, first, second, third, fourth, desk),
        Command::Live {
            nodes,
            schedule,
            trace,
        } => work_live::<M, I, O>(alloc, nodes, schedule, trace, given, desk),
        Command::Detect => detect(alloc, first, second, third, desk),
        Command::Many { .. } => work_many(alloc, given, desk),
        Command::Replan { most, nodes } => replan(
            alloc, first, second, third, fourth, most, nodes, desk,
        ),
        Command::Gen { number } => generate(alloc, number, desk),
        Command::Job { number } => job::<M, I, O>(alloc, number, desk),
    }
}

/// Finds the command, and does its work.
fn run<M: Machine, I: Inputs, O: Sink>(
    alloc: Global,
    given: &[String],
    desk: &mut Desk<'_, I, O>,
) -> Result<(), Refusal>
    ensures works { (command : Command) → Spells (texts given.now) command →
        IsWork M.reported command (texts given.now) (world I.Inputs O.Sink desk.old) result (world I.Inputs O.Sink desk.new) }
    ensures usage { ((command : Command) → Spells (texts given.now) command → ⊥) →
        IsUsage (world I.Inputs O.Sink desk.old) result (world I.Inputs O.Sink desk.new) }
    ensures files_place { desk.new.files.ghost_name ≡ desk.old.files.ghost_name }
    ensures out_place { desk.new.out.ghost_name ≡ desk.old.out.ghost_name }
{
    match words(given) {
        Ok(command) => work::<M, I, O>(alloc, command, given, desk),
        Err(_) => Err(Refusal::Usage),
    }
}

/// Runs a command: its text goes to `out`, a line on its status to `err`, and the status is the answer.
///
/// The words are those after the program's name. The windows of `run`, `live` and
/// `job` are answered by a machine, and printed as it reports them. A fault in writing the line to `err` is dropped, and the status stays.
pub fn top<M: Machine, I: Inputs, O: Sink, E: Sink>(
    alloc: Global,
    words: &[String],
    files: &mut I,
    out: &mut O,
    err: &mut E,
) -> u8
    // 2: exactly where the words spell no command. Then files and output are as they were, with their counts.
    ensures usage { (result ≡ 2) ↔ ((command : Command) → Spells (texts words.now) command → ⊥) }
    ensures nothing_read { result ≡ 2 → files_of I.Inputs files.new ≡ files_of I.Inputs files.old }
    ensures nothing_written { result ≡ 2 → sunk O.Sink out.new ≡ sunk O.Sink out.old }
    // 10 over any sink: only where a write failed in this call, or took nothing of a rest that has bytes.
    ensures write_fault { result ≡ 10 → OutRose (sunk O.Sink out.old) (sunk O.Sink out.new) }
    // The line of the status is printed.
    ensures line { IsStatusReported result (sunk E.Sink err.old) (sunk E.Sink err.new) }

    // Each command below, over any files: what is known of their contents stays, each name that is no file word of it keeps its count, and each file is
    // read when its turn comes: with 3 each name but that of the queries keeps its count, with 4 each but those of the queries and the switch.

    // `plain QUERIES CAPTURE`: the run is that of its stages.
    ensures plain { Spells (texts words.now) Command.Plain →
        IsCommandRun (word_at (texts words.now) 1 ∷ word_at (texts words.now) 2 ∷ []) (Plain (word_at (texts words.now) 1) (word_at (texts words.now) 2))
        (around I.Inputs O.Sink E.Sink files.old out.old err.old) result (around I.Inputs O.Sink E.Sink files.new out.new err.new) }

    // `run SWITCH QUERIES PLAN CAPTURE`, with `--csv` or without it: the run is that of its stages.
    ensures run { (csv : Bool) → Spells (texts words.now) (Command.Run csv) →
        IsCommandRun (word_at (texts words.now) 2 ∷ word_at (texts words.now) 1 ∷ word_at (texts words.now) 3 ∷ word_at (texts words.now) 4 ∷ [])
        (Run M.reported csv (word_at (texts words.now) 1) (word_at (texts words.now) 2) (word_at (texts words.now) 3) (word_at (texts words.now) 4))
        (around I.Inputs O.Sink E.Sink files.old out.old err.old) result (around I.Inputs O.Sink E.Sink files.new out.new err.new) }

    // `finish QUERIES PLAN REPORTS`: the run is that of its stages.
    ensures finish { Spells (texts words.now) Command.Finish →
        IsCommandRun (word_at (texts words.now) 1 ∷ word_at (texts words.now) 2 ∷ word_at (texts words.now) 3 ∷ [])
        (Finish (word_at (texts words.now) 1) (word_at (texts words.now) 2) (word_at (texts words.now) 3))
        (around I.Inputs O.Sink E.Sink files.old out.old err.old) result (around I.Inputs O.Sink E.Sink files.new out.new err.new) }

    // `detect QUERIES PLAN CAPTURE`: the run is that of its stages.
    ensures detect { Spells (texts words.now) Command.Detect →
        IsCommandRun (word_at (texts words.now) 1 ∷ word_at (texts words.now) 2 ∷ word_at (texts words.now) 3 ∷ [])
        (Detects (word_at (texts words.now) 1) (word_at (texts words.now) 2) (word_at (texts words.now) 3))
        (around I.Inputs O.Sink E.Sink files.old out.old err.old) result (around I.Inputs O.Sink E.Sink files.new out.new err.new) }

    // `many SWITCH QUERIES PLAN CAPTURE CAPTURE { CAPTURE }`: the run is that of its stages.
    ensures many { (captures : ℕ) → Spells (texts words.now) (Command.Many captures) →
        IsCommandRun (word_at (texts words.now) 2 ∷ word_at (texts words.now) 1 ∷ word_at (texts words.now) 3 ∷ drop 4 (texts words.now))
        (Several (word_at (texts words.now) 1) (word_at (texts words.now) 2) (word_at (texts words.now) 3) (drop 4 (texts words.now)))
        (around I.Inputs O.Sink E.Sink files.old out.old err.old) result (around I.Inputs O.Sink E.Sink files.new out.new err.new) }

    // `replan SWITCH QUERIES TRAIN CAPTURE MOST`, with the number of `--nodes`: the run is that of its stages. The answers of each epoch are those
    // along its plan, and the epochs change exactly after the windows that are over.
    ensures replanned { (early nodes : ℕ) → Spells (texts words.now) (Command.Replan early nodes) →
        IsCommandRun (word_at (texts words.now) 2 ∷ word_at (texts words.now) 1 ∷ word_at (texts words.now) 3 ∷ word_at (texts words.now) 4 ∷ [])
        (Replans (word_at (texts words.now) 1) (word_at (texts words.now) 2) (word_at (texts words.now) 3) (word_at (texts words.now) 4) early nodes)
        (around I.Inputs O.Sink E.Sink files.old out.old err.old) result (around I.Inputs O.Sink E.Sink files.new out.new err.new) }

    // `gen NUMBER`: the run is that of its stage, which reads no file.
    ensures generated { (number : ℕ) → Spells (texts words.now) (Command.Gen number) →
        IsCommandRun [] (Gen number) (around I.Inputs O.Sink E.Sink files.old out.old err.old) result
        (around I.Inputs O.Sink E.Sink files.new out.new err.new) }

    // `emit SWITCH QUERIES PLAN CAPTURE`: the run is that of its stages.
    ensures emit { Spells (texts words.now) Command.Emit →
        IsCommandRun (word_at (texts words.now) 2 ∷ word_at (texts words.now) 1 ∷ word_at (texts words.now) 3 ∷ word_at (texts words.now) 4 ∷ [])
        (Emit (word_at (texts words.now) 1) (word_at (texts words.now) 2) (word_at (texts words.now) 3) (word_at (texts words.now) 4))
        (around I.Inputs O.Sink E.Sink files.old out.old err.old) result (around I.Inputs O.Sink E.Sink files.new out.new err.new) }

    // `check SWITCH QUERIES TRAIN PLANTREE`: the run is that of its stages.
    ensures check { Spells (texts words.now) Command.Check →
        IsCommandRun (word_at (texts words.now) 2 ∷ word_at (texts words.now) 1 ∷ word_at (texts words.now) 3 ∷ word_at (texts words.now) 4 ∷ [])
        (Check (word_at (texts words.now) 1) (word_at (texts words.now) 2) (word_at (texts words.now) 3) (word_at (texts words.now) 4))
        (around I.Inputs O.Sink E.Sink files.old out.old err.old) result (around I.Inputs O.Sink E.Sink files.new out.new err.new) }

    // `plan SWITCH QUERIES TRAIN`, with the number of `--nodes`: the run is that of its stages.
    ensures planned { (nodes : ℕ) → Spells (texts words.now) (Command.Plan nodes) →
        IsCommandRun (word_at (texts words.now) 2 ∷ word_at (texts words.now) 1 ∷ word_at (texts words.now) 3 ∷ [])
        (Plan (word_at (texts words.now) 1) (word_at (texts words.now) 2) (word_at (texts words.now) 3) nodes)
        (around I.Inputs O.Sink E.Sink files.old out.old err.old) result (around I.Inputs O.Sink E.Sink files.new out.new err.new) }

    // `plan SWITCH QUERIES TRAIN --prices`, with the number of `--nodes`: for what the files hold a plan that fits is chosen, with its cost and with
    // prices that show a number that no plan costs less than, and the run is that of the stages that write it.
    ensures priced { (nodes : ℕ) → Spells (texts words.now) (Command.PlanPrices nodes) →
        IsPricedRun (word_at (texts words.now) 1) (word_at (texts words.now) 2) (word_at (texts words.now) 3)
        (around I.Inputs O.Sink E.Sink files.old out.old err.old) result (around I.Inputs O.Sink E.Sink files.new out.new err.new) }

    // `live SWITCH QUERIES TRAIN CAPTURE`, with the number of `--nodes` and without `--trace`: the run is that of its stages, whatever the schedule.
    ensures live { (nodes schedule : ℕ) → Spells (texts words.now) (Command.Live nodes schedule false) →
        IsCommandRun (word_at (texts words.now) 2 ∷ word_at (texts words.now) 1 ∷ word_at (texts words.now) 3 ∷ word_at (texts words.now) 4 ∷ [])
        (Live M.reported (word_at (texts words.now) 1) (word_at (texts words.now) 2) (word_at (texts words.now) 3) (word_at (texts words.now) 4) nodes)
        (around I.Inputs O.Sink E.Sink files.old out.old err.old) result (around I.Inputs O.Sink E.Sink files.new out.new err.new) }

    // `live SWITCH QUERIES TRAIN CAPTURE`, with the numbers of `--nodes` and `--schedule` and with `--trace`: the run is that of its stages. The
    // machine is driven by draws that follow the number of the schedule, and each of its events has a line.
    ensures traced { (nodes schedule : ℕ) → Spells (texts words.now) (Command.Live nodes schedule true) →
        IsCommandRun (word_at (texts words.now) 2 ∷ word_at (texts words.now) 1 ∷ word_at (texts words.now) 3 ∷ word_at (texts words.now) 4 ∷ [])
        (TracedLive schedule M.reported (word_at (texts words.now) 1) (word_at (texts words.now) 2) (word_at (texts words.now) 3)
        (word_at (texts words.now) 4) nodes) (around I.Inputs O.Sink E.Sink files.old out.old err.old) result
        (around I.Inputs O.Sink E.Sink files.new out.new err.new) }

    // The headline. Of accepted queries, an accepted switch and two captures it prints a plan that fits every limit of the switch, a
    // tree of bounds that shows that no plan that fits costs less on the first capture, and for each window of the second one exactly
    // the answers of the unsplit queries refined along the plan, with the number of items that were sent. It is so with a machine that
    // reports its answers as they are, as a net does.
    ensures headline { M.reported ≡ as_they_are → (nodes schedule : ℕ) → Spells (texts words.now) (Command.Live nodes schedule false) →
        KeepsHeadline (word_at (texts words.now) 1) (word_at (texts words.now) 2) (word_at (texts words.now) 3) (word_at (texts words.now) 4) nodes
        (around I.Inputs O.Sink E.Sink files.old out.old err.old) result (around I.Inputs O.Sink E.Sink files.new out.new err.new) }

    // `job NUMBER`: the run is that of its stages, which read no file.
    ensures job { (number : ℕ) → Spells (texts words.now) (Command.Job number) →
        IsCommandRun [] (Job M.reported number) (around I.Inputs O.Sink E.Sink files.old out.old err.old) result
        (around I.Inputs O.Sink E.Sink files.new out.new err.new) }
{
    runs_of_live_keep_the_headline();
    let mut desk = Desk { files, out };
    let answer = run::<M, I, O>(alloc, words, &mut desk);
    tell(answer, err);
    end_status(answer)
}
