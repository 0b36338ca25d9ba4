//! A training capture is read as a stream.
ghost use Rattle.std.specs.Prelude.{◌≡◌, ◌<◌, ◌≤◌, ◌^◌, ℕ, List, [], ◌∷◌, ◌↔◌, None, IfOk, IfSome, OnOk, IsErrOf, length};
ghost use Rattle.std.specs.FinMap.{get};
ghost use Rattle.sn_command.specs.Desks.{world};
ghost use Rattle.sn_command.specs.Runs.{Works};
ghost use Rattle.sn_command.specs.Stages.{Text};
ghost use Rattle.sn_command_training.specs.Taking.{IsTaken, MayGoOn};
ghost use Rattle.sn_command_training.specs.Training.{TrainingIn};
ghost use Rattle.sn_io.specs.Counts.{OnlyRises, RoseAt};
ghost use Rattle.sn_io.specs.Inputs.{stated_file};
ghost use Rattle.sn_windows.specs.Blocks.{most_records};

use crate::taking::Taking;
use sn_command::desk::Desk;
use sn_command::files::{MOST_TEXT, read_refusal};
use sn_command::refusal::Refusal;
use sn_cost_training::training::Training;
use sn_io::inputs::{InputFault, Inputs, PIECE, ReadError};
use sn_io::sink::Sink;
use std::alloc::Global;

/// Takes a whole file of at most 2^30 bytes, piece by piece. `Missing` comes exactly where the name isn't known, `ReadFault` only
/// where its count rose, and `TooLarge` only where the file has a byte after the limit.
fn take_file<I: Inputs>(taking: &mut Taking, files: &mut I, name: &str) -> Result<(), ReadError>
    requires { MayGoOn taking.old }
    ensures goes_on { OnOk result (MayGoOn taking.new) }
    ensures taken { OnOk result (IfSome (stated_file (I.reported files.old) name.now) (λ file. (window : ℕ) → IsTaken window file 0 taking.old →
        IsTaken window file (length file) taking.new)) }
    ensures most { OnOk result (IfSome (stated_file (I.reported files.old) name.now) (λ file. length file ≤ 2 ^ 30)) }
    ensures large { IsErrOf result ReadError.TooLarge → IfSome (stated_file (I.reported files.old) name.now) (λ file. 2 ^ 30 < length file) }
    ensures missing { IsErrOf result ReadError.Missing ↔ (get (I.faults files.old) name.now ≡ None) }
    ensures unchanged { IsErrOf result ReadError.Missing → files.new ≡ files.old }
    ensures fault { IsErrOf result ReadError.ReadFault → RoseAt name.now (I.faults files.old) (I.faults files.new) }
    ensures reported { I.reported files.new ≡ I.reported files.old }
    ensures faults { OnlyRises name.now (I.faults files.old) (I.faults files.new) }
{
    let mut piece = [0; PIECE];
    let mut place = 0;
    'reading: loop {
        match files.read_at(name, place, &mut piece) {
            Ok(0) => return Ok(()),
            Ok(count) => {
                if count as u64 > MOST_TEXT - place {
                    return Err(ReadError::TooLarge);
                }
                if taking.take(&piece[..count]).is_err() {
                    return Err(ReadError::Memory);
                }
                place += count as u64;
            }
            Err(InputFault::Failed) => return Err(ReadError::ReadFault),
            Err(InputFault::Missing) => return Err(ReadError::Missing),
        }
    }
}

/// Reads a training capture of at most 2^30 bytes and [`sn_windows::windows::MOST_RECORDS`] records, whose windows have this many
/// nanoseconds. Its whole records count, however they end. It is read from front to back, each byte once, and to its end, whatever
/// is found in it; what is held of it are its tuples.
pub fn read_training<I: Inputs, O: Sink>(
    alloc: Global,
    desk: &mut Desk<'_, I, O>,
    name: &str,
    window_ns: u64,
) -> Result<Training, Refusal>
    requires some { 1 ≤ window_ns }
    ensures works { Works (name.now ∷ []) (Text name.now (TrainingIn window_ns)) (world I.Inputs O.Sink desk.old) result (world I.Inputs O.Sink desk.new) }
    ensures few { IfOk result (λ training. length training.numbers ≤ most_records) }
{
    let mut taking = Taking::new(alloc, window_ns);
    match take_file(&mut taking, desk.files, name) {
        Ok(()) => taking.finish(),
        Err(error) => Err(read_refusal(error)),
    }
}
