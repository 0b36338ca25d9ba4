//! The top call of the program: nets answer the windows.
ghost use Rattle.std.specs.Prelude.{◌≡◌, [], ◌∷◌, ℕ, Bool, false, true};
ghost use Rattle.sn_cli.specs.declared.command.Command.{Command};
ghost use Rattle.sn_cli.specs.Grammar.{Spells};
ghost use Rattle.sn_cli.specs.Words.{texts, word_at};
ghost use Rattle.sn_command.specs.Ends.{IsCommandRun};
ghost use Rattle.sn_command_job.specs.Job.{Job};
ghost use Rattle.sn_command_live.specs.Headline.{KeepsHeadline};
ghost use Rattle.sn_command_live.specs.Live.{Live, TracedLive};
ghost use Rattle.sn_command_run.specs.Planned.{as_they_are};
ghost use Rattle.sn_command_run.specs.Run.{Run};
ghost use Rattle.sn_top.specs.Top.{around};

use sn_core_drive::machine::Machine;
use sn_core_net::net::Net;
use sn_io::inputs::Inputs;
use sn_io::sink::Sink;
use sn_top::top::top;
use std::alloc::Global;

/// Runs a command by the top call, with nets to answer windows, and gives its status: the program as it runs. What depends on the
/// machine is said below of nets; the rest is said at `top`, of each machine.
pub fn top_with_nets<I: Inputs, O: Sink, E: Sink>(
    alloc: Global,
    words: &[String],
    files: &mut I,
    out: &mut O,
    err: &mut E,
) -> u8
    // The headline. Of accepted queries, an accepted switch and two captures `live` prints a plan that fits every limit of the switch, a
    // tree of bounds that shows that no plan that fits costs less on the first capture, and for each window of the second one exactly
    // the answers of the unsplit queries refined along the plan, with the number of items that were sent.
    ensures headline { (nodes schedule : ℕ) → Spells (texts words.now) (Command.Live nodes schedule false) →
        KeepsHeadline (word_at (texts words.now) 1) (word_at (texts words.now) 2) (word_at (texts words.now) 3) (word_at (texts words.now) 4) nodes
        (around I.Inputs O.Sink E.Sink files.old out.old err.old) result (around I.Inputs O.Sink E.Sink files.new out.new err.new) }

    // Nets report their answers as they are.
    ensures reported { ⟦<Net as Machine>⟧.reported ≡ as_they_are }

    // So what a machine answers is printed as it is: by `run SWITCH QUERIES PLAN CAPTURE`, with `--csv` or without it,
    ensures run { (csv : Bool) → Spells (texts words.now) (Command.Run csv) →
        IsCommandRun (word_at (texts words.now) 2 ∷ word_at (texts words.now) 1 ∷ word_at (texts words.now) 3 ∷ word_at (texts words.now) 4 ∷ [])
        (Run as_they_are csv (word_at (texts words.now) 1) (word_at (texts words.now) 2) (word_at (texts words.now) 3) (word_at (texts words.now) 4))
        (around I.Inputs O.Sink E.Sink files.old out.old err.old) result (around I.Inputs O.Sink E.Sink files.new out.new err.new) }

    // by `live SWITCH QUERIES TRAIN CAPTURE` without `--trace`,
    ensures live { (nodes schedule : ℕ) → Spells (texts words.now) (Command.Live nodes schedule false) →
        IsCommandRun (word_at (texts words.now) 2 ∷ word_at (texts words.now) 1 ∷ word_at (texts words.now) 3 ∷ word_at (texts words.now) 4 ∷ [])
        (Live as_they_are (word_at (texts words.now) 1) (word_at (texts words.now) 2) (word_at (texts words.now) 3) (word_at (texts words.now) 4) nodes)
        (around I.Inputs O.Sink E.Sink files.old out.old err.old) result (around I.Inputs O.Sink E.Sink files.new out.new err.new) }

    // with it,
    ensures traced { (nodes schedule : ℕ) → Spells (texts words.now) (Command.Live nodes schedule true) →
        IsCommandRun (word_at (texts words.now) 2 ∷ word_at (texts words.now) 1 ∷ word_at (texts words.now) 3 ∷ word_at (texts words.now) 4 ∷ [])
        (TracedLive schedule as_they_are (word_at (texts words.now) 1) (word_at (texts words.now) 2) (word_at (texts words.now) 3)
        (word_at (texts words.now) 4) nodes) (around I.Inputs O.Sink E.Sink files.old out.old err.old) result
        (around I.Inputs O.Sink E.Sink files.new out.new err.new) }

    // and by `job NUMBER`.
    ensures job { (number : ℕ) → Spells (texts words.now) (Command.Job number) →
        IsCommandRun [] (Job as_they_are number) (around I.Inputs O.Sink E.Sink files.old out.old err.old) result
        (around I.Inputs O.Sink E.Sink files.new out.new err.new) }
{
    top::<Net, I, O, E>(alloc, words, files, out, err)
}
