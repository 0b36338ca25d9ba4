//! The bytes of files.
ghost use Rattle.std.specs.Prelude.{◌≡◌, ◌≤◌, List, [], ◌∷◌, IfOk, length};
ghost use Rattle.sn_command.specs.Desks.{world};
ghost use Rattle.sn_command.specs.Refusals.{read_refusal};
ghost use Rattle.sn_command.specs.Runs.{Works};
ghost use Rattle.sn_command.specs.Stages.{Bytes};

use crate::desk::Desk;
use crate::fault::Fault;
use crate::refusal::Refusal;
use sn_base::seq::Seq;
use sn_io::inputs::{Inputs, ReadError, read_whole};
use sn_io::sink::Sink;
use std::alloc::Global;

/// The most bytes of a text.
pub const MOST_TEXT: u64 = 1 << 30;

/// The refusal where a file isn't read whole.
pub fn read_refusal(error: ReadError) -> Refusal
    ensures { result ≡ read_refusal error }
{
    match error {
        ReadError::Missing => Refusal::Missing,
        ReadError::ReadFault => Refusal::ReadFault,
        ReadError::TooLarge => Refusal::Refused(Fault::TooLarge),
        ReadError::Memory => Refusal::Memory,
    }
}

/// Reads a file of at most this many bytes whole.
pub fn read_file<I: Inputs, O: Sink>(
    alloc: Global,
    desk: &mut Desk<'_, I, O>,
    name: &str,
    most: u64,
) -> Result<Seq<u8>, Refusal>
    ensures works { Works (name.now ∷ []) (Bytes most name.now) (world I.Inputs O.Sink desk.old) result (world I.Inputs O.Sink desk.new) }
    ensures within { IfOk result (λ bytes. length bytes ≤ most) }
{
    match read_whole(alloc, desk.files, name, most) {
        Ok(bytes) => Ok(bytes),
        Err(error) => Err(read_refusal(error)),
    }
}
