//! A law on the places of tables.
ghost use Rattle.std.specs.Prelude.{◌↔◌, ℕ, List};
ghost use Rattle.sn_plan_fit.specs.Placing.{Table, HasPlacing, HasGaps};

/// A law, with nothing to run: the tables of a piece have a placing in a switch of this many stages exactly where, taken
/// in order, no register stands below the least stage that is left for it, and none is left over after the last.
#[tactic(auto, using(crate::proofs::Placings::placing_by_gaps))]
pub fn gaps_decide_placing()
    ensures { (stages : ℕ) (tables : List Table) → HasPlacing stages tables ↔ HasGaps stages 0 tables }
{}
