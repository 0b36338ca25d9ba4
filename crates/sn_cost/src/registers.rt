//! The registers of a switch.
ghost use Rattle.std.specs.Prelude.{◌≡◌};
ghost use Rattle.sn_switch.specs.Texts.{IsSwitch};

use sn_cost_counts::branch_at::Registers;
use sn_switch::switch::Switch;

/// The registers that an operator may have in a switch.
pub(crate) fn registers(s: &Switch) -> Registers<'_>
    requires { IsSwitch s.now }
    ensures chain { result.chain ≡ s.now.chain }
    ensures sizes { result.sizes.now ≡ s.now.slots }
{
    Registers {
        chain: s.chain,
        sizes: s.slots.as_slice(),
    }
}
