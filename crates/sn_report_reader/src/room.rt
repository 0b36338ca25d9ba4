//! The bytes of a file that are held while it is read from front to back.
ghost use Rattle.std.specs.Prelude.{◌≡◌, ◌<◌, ◌≤◌, ◌+◌, ◌-◌, ◌↔◌, None, length, take, drop, IfOk, IfSome, IsErrOf};
ghost use Rattle.std.specs.FinMap.{get};
ghost use Rattle.sn_io.specs.Counts.{OnlyRises, RoseAt};
ghost use Rattle.sn_io.specs.Inputs.{stated_file};

use sn_io::inputs::{InputFault, Inputs, ReadError};

/// How many bytes are held at most.
pub const BUFFER_BYTES: usize = 65536;

/// What a read gave.
#[derive(Clone, Copy, Debug, PartialEq, Eq)]
pub enum Reached {
    /// Bytes, which are held now.
    Bytes,
    /// The end of the file.
    End,
    /// A byte past those that are read.
    Past,
}

/// Moves the bytes of a range to the front.
pub(crate) fn move_front(bytes: &mut [u8], start: usize, end: usize)
    requires order { start ≤ end }
    requires within { end ≤ length bytes.old }
    ensures len { length bytes.new ≡ length bytes.old }
    ensures front { take (end - start) bytes.new ≡ take (end - start) (drop start bytes.old) }
{
    bytes.copy_within(start..end, 0);
}

/// Reads bytes of a file from the place `at` on after the first ones that are held, as many as there is room for.
pub(crate) fn read_piece<I: Inputs>(
    bytes: &mut [u8],
    held: usize,
    room: usize,
    files: &mut I,
    name: &str,
    at: u64,
) -> Result<usize, ReadError>
    requires some { 0 < room }
    requires within { held + room ≤ length bytes.old }
    ensures len { length bytes.new ≡ length bytes.old }
    ensures kept { take held bytes.new ≡ take held bytes.old }
    ensures within { IfOk result (λ n. n ≤ room) }
    ensures bytes { IfOk result (λ n. IfSome (stated_file (I.reported files.old) name.now) (λ file. take n (drop held bytes.new) ≡ take n (drop at file))) }
    ensures stand { IfOk result (λ n. IfSome (stated_file (I.reported files.old) name.now) (λ file. n ≤ length file - at)) }
    ensures none { IfOk result (λ n. IfSome (stated_file (I.reported files.old) name.now) (λ file. (n ≡ 0) ↔ (length file ≤ at))) }
    ensures reported { I.reported files.new ≡ I.reported files.old }
    ensures faults { OnlyRises name.now (I.faults files.old) (I.faults files.new) }
    ensures not_large { ¬ IsErrOf result ReadError.TooLarge }
    ensures missing { IsErrOf result ReadError.Missing ↔ (get (I.faults files.old) name.now ≡ None) }
    ensures fault { IsErrOf result ReadError.ReadFault → RoseAt name.now (I.faults files.old) (I.faults files.new) }
{
    match files.read_at(name, at, &mut bytes[held..held + room]) {
        Ok(count) => Ok(count),
        Err(InputFault::Failed) => Err(ReadError::ReadFault),
        Err(InputFault::Missing) => Err(ReadError::Missing),
    }
}
