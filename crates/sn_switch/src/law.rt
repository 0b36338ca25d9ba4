//! A law on switch texts.
ghost use Rattle.std.specs.Prelude.{◌≡◌, ℕ, List, Result};
ghost use Rattle.sn_switch.specs.declared.switch.Switch.{Switch};
ghost use Rattle.sn_switch.specs.declared.fault.SwitchFault.{SwitchFault};
ghost use Rattle.sn_switch.specs.Texts.{IsRead, HasReading};

/// A law, with nothing to run: each text is read as exactly one thing, a switch or a first fault.
#[tactic(auto, using(crate::proofs::Readings::reading_some, crate::proofs::Readings::reading_once))]
pub fn text_has_one_reading()
    ensures some { (text : List ℕ) → HasReading text }
    ensures once { (text : List ℕ) (first second : Result Switch SwitchFault) → IsRead text first → IsRead text second → first ≡ second }
{}
