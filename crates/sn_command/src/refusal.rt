//! Why a command ends otherwise than with its whole text.
ghost use Rattle.std.specs.Prelude.{◌≡◌};
ghost use Rattle.sn_command.specs.Ends.{end_status};

use crate::fault::Fault;
use sn_base::memory::Memory;
use sn_windows::windows::TooMany;

/// Why a command ends otherwise than with its whole text.
#[derive(Clone, Copy, Debug, PartialEq, Eq)]
pub enum Refusal {
    /// Out of memory.
    Memory,
    /// The words are no command.
    Usage,
    /// A file word isn't known.
    Missing,
    /// A read failed.
    ReadFault,
    /// A write failed.
    WriteFault,
    /// The work is refused.
    Refused(Fault),
}

impl Refusal {
    ghost use Rattle.sn_command.specs.Refusals.{status_of};

    /// The exit status.
    pub fn status(self) -> u8
        ensures { result ≡ status_of self }
    {
        match self {
            Refusal::Memory => 1,
            Refusal::Usage => 2,
            Refusal::Missing | Refusal::ReadFault => 9,
            Refusal::WriteFault => 10,
            Refusal::Refused(fault) => fault.status(),
        }
    }
}

impl From<Memory> for Refusal {
    ghost use Rattle.sn_command.specs.declared.refusal.Refusal.TheVariants as refusals;

    ghost from_gives = { λ _ refusal. refusal ≡ refusals.Memory };

    fn from(_: Memory) -> Refusal {
        Refusal::Memory
    }
}

impl From<Fault> for Refusal {
    ghost use Rattle.sn_command.specs.declared.refusal.Refusal.TheVariants as refusals;

    ghost from_gives = { λ fault refusal. refusal ≡ refusals.Refused fault };

    fn from(fault: Fault) -> Refusal {
        Refusal::Refused(fault)
    }
}

impl From<TooMany> for Refusal {
    ghost use Rattle.sn_command.specs.declared.fault.Fault.TheVariants.{TooLarge};
    ghost use Rattle.sn_command.specs.declared.refusal.Refusal.TheVariants.{Refused};

    ghost from_gives = { λ _ refusal. refusal ≡ Refused TooLarge };

    fn from(_: TooMany) -> Refusal {
        Refusal::Refused(Fault::TooLarge)
    }
}

/// The status of a call of the program that ends with this answer.
pub fn end_status(answer: Result<(), Refusal>) -> u8
    ensures { result ≡ end_status answer }
{
    match answer {
        Ok(()) => 0,
        Err(refusal) => refusal.status(),
    }
}
