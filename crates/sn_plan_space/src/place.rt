//! The next register of a piece.
ghost use Rattle.std.specs.Prelude.{◌≡◌, ◌≤◌, ◌+◌, ◌^◌, List, length, map};
ghost use Rattle.sn_plan_choices.specs.Options as choices;
ghost use Rattle.sn_plan_space.specs.Known.{known_slot};
ghost use Rattle.sn_plan_space.specs.Positions.{IsNext};

use crate::known::Slot;
use crate::waiting::Waiting;

/// The first register of these tables, of which the first may have this stage, and whether there is none and the last of them is past the last stage.
pub fn next_waiting<'a>(stages: u32, least: u32, slots: &'a [Slot]) -> (Option<Waiting<'a>>, bool)
    requires least { least ≤ 64 }
    requires few { length slots.now ≤ 64 }
    ensures { (tables : List choices.Slot) → slots.now ≡ map known_slot tables → IsNext stages least tables result.0 result.1 }
{
    let mut at = least;
    let mut rest = slots;
    while let Some((slot, following)) = rest.split_first() {
        match slot {
            Slot::Plain => at += 1,
            Slot::Keyed(bits) => {
                let waiting = Waiting {
                    least: at,
                    bits: *bits,
                    following,
                };
                return (Some(waiting), false);
            }
        }
        rest = following;
    }
    (None, at > stages)
}
