//! The room of the tables of a switch.
ghost use Rattle.std.specs.Prelude.{◌≡◌};
ghost use Rattle.sn_emit.specs.Plans.{tables_of};

use sn_switch::switch::Switch;

/// What room a switch has for the registers and the prefixes of a pipe.
#[derive(Clone, Copy)]
pub struct Tables {
    /// Registers in the chain of a stateful operator.
    pub depth: u32,
    /// Prefixes that the table of a piece may hold at most. `None` is no limit.
    pub entries: Option<u32>,
}

impl Tables {
    /// What room a switch has.
    pub fn of(s: &Switch) -> Tables
        ensures { result ≡ tables_of s.now }
    {
        Tables {
            depth: s.chain,
            entries: s.entries,
        }
    }
}
