//! A law on query texts.
ghost use Rattle.std.specs.Prelude.{◌≡◌, ℕ, List, Result};
ghost use Rattle.sn_types_read.specs.declared.fault.QueryFault.{QueryFault};
ghost use Rattle.sn_types_read.specs.Texts.{Queries, IsRead, HasReading};

/// A law, with nothing to run: each text is read as exactly one thing, queries or a fault.
#[tactic(auto, using(crate::proofs::SomeReading::reading_some, crate::proofs::OneReading::reading_once))]
pub fn text_has_one_reading()
    ensures some { (text : List ℕ) → HasReading text }
    ensures once { (text : List ℕ) (first second : Result Queries QueryFault) → IsRead text first → IsRead text second → first ≡ second }
{}
