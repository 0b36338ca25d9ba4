//! Why a window isn't closed.
ghost use Rattle.std.specs.Prelude.{◌≡◌};

use sn_base::memory::Memory;
use sn_command::fault::Fault;
use sn_command::refusal::Refusal;

/// Why a window isn't closed. Nothing is called after it.
#[derive(Clone, Copy, Debug, PartialEq, Eq)]
pub enum Stop {
    /// Out of memory.
    Memory,
    /// The block of the window can't be made.
    Refused(Fault),
}

impl From<Memory> for Stop {
    ghost use Rattle.sn_command_capture.specs.declared.stop.Stop.TheVariants as stops;

    ghost from_gives = { λ _ stop. stop ≡ stops.Memory };

    fn from(_: Memory) -> Stop {
        Stop::Memory
    }
}

impl From<Stop> for Refusal {
    ghost use Rattle.sn_command_capture.specs.Stopping.{refusal_of};

    ghost from_gives = { λ stop refusal. refusal ≡ refusal_of stop };

    fn from(stop: Stop) -> Refusal {
        match stop {
            Stop::Memory => Refusal::Memory,
            Stop::Refused(fault) => Refusal::Refused(fault),
        }
    }
}
