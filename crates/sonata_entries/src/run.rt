//! The program as a function: words in, a text and a status out.
ghost use Rattle.std.specs.Prelude.{◌≡◌, ◌≢◌, ◌↔◌, [], ◌∷◌, length};
ghost use Rattle.sn_cli.specs.Words.{texts, word_at};
ghost use Rattle.sn_command.specs.Desks.{files_of, sunk, world};
ghost use Rattle.sn_command.specs.Ends.{end_status, IsCommandRun, IsStatusReported};
ghost use Rattle.sn_command.specs.Runs.{WorksFrom};
ghost use Rattle.sn_command.specs.Worlds.{OutRose};
ghost use Rattle.sonata_entries.specs.Entries.{Entries, IsUsage, around};

use crate::entries::write_entries;
use sn_command::desk::Desk;
use sn_command::lines::tell;
use sn_command::refusal::{Refusal, end_status};
use sn_io::inputs::Inputs;
use sn_io::sink::Sink;
use std::alloc::Global;

/// Does the work where there are three words.
fn work<I: Inputs, O: Sink>(
    alloc: Global,
    words: &[String],
    desk: &mut Desk<'_, I, O>,
) -> Result<(), Refusal>
    ensures works { length words.now ≡ 3 →
        WorksFrom 2 (word_at (texts words.now) 1 ∷ word_at (texts words.now) 0 ∷ word_at (texts words.now) 2 ∷ [])
        (Entries (word_at (texts words.now) 0) (word_at (texts words.now) 1) (word_at (texts words.now) 2))
        (world I.Inputs O.Sink desk.old) result (world I.Inputs O.Sink desk.new) }
    ensures usage { length words.now ≢ 3 → IsUsage (world I.Inputs O.Sink desk.old) result (world I.Inputs O.Sink desk.new) }
    ensures files_place { desk.new.files.ghost_name ≡ desk.old.files.ghost_name }
    ensures out_place { desk.new.out.ghost_name ≡ desk.old.out.ghost_name }
{
    match words {
        [switch, queries, train] => write_entries(
            alloc,
            switch.as_str(),
            queries.as_str(),
            train.as_str(),
            desk,
        ),
        _ => Err(Refusal::Usage),
    }
}

/// Prints the cost table of a training capture: its text goes to `out`, a line on its status to `err`, and the status is the answer.
///
/// The words are those after the program's name: the files of a switch, of queries and of a training capture. A fault in writing the
/// line to `err` is dropped, and the status stays.
pub fn run<I: Inputs, O: Sink, E: Sink>(
    alloc: Global,
    words: &[String],
    files: &mut I,
    out: &mut O,
    err: &mut E,
) -> u8
    // 2: exactly where there aren't three words. Then files and output are as they were, with their counts.
    ensures usage { (result ≡ 2) ↔ (length words.now ≢ 3) }
    ensures nothing_read { result ≡ 2 → files_of I.Inputs files.new ≡ files_of I.Inputs files.old }
    ensures nothing_written { result ≡ 2 → sunk O.Sink out.new ≡ sunk O.Sink out.old }
    // 10 over any sink: only where a write failed in this call, or took nothing of a rest that has bytes.
    ensures write_fault { result ≡ 10 → OutRose (sunk O.Sink out.old) (sunk O.Sink out.new) }
    // The line of the status is printed.
    ensures line { IsStatusReported result (sunk E.Sink err.old) (sunk E.Sink err.new) }
    // With three words the run is that of the stages: the table that the contents of the files give is what goes out.
    ensures entries { length words.now ≡ 3 →
        IsCommandRun (word_at (texts words.now) 1 ∷ word_at (texts words.now) 0 ∷ word_at (texts words.now) 2 ∷ [])
        (Entries (word_at (texts words.now) 0) (word_at (texts words.now) 1) (word_at (texts words.now) 2))
        (around I.Inputs O.Sink E.Sink files.old out.old err.old) result (around I.Inputs O.Sink E.Sink files.new out.new err.new) }
{
    let mut desk = Desk { files, out };
    let answer = work(alloc, words, &mut desk);
    tell(answer, err);
    end_status(answer)
}
