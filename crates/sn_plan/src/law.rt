//! A law on plan texts.
ghost use Rattle.std.specs.Prelude.{◌≡◌, ℕ, List, Result};
ghost use Rattle.sn_plan_grammar.specs.declared.plan.Plan.{Plan};
ghost use Rattle.sn_plan.specs.declared.fault.PlanFault.{PlanFault};
ghost use Rattle.sn_plan.specs.Texts.{IsRead, HasReading};

/// A law, with nothing to run: each text is read as exactly one thing, a plan and the byte where it ends, or a first
/// fault.
#[tactic(auto, using(crate::proofs::Readings::reading_some, crate::proofs::Readings::reading_once))]
pub fn text_has_one_reading()
    ensures some { (text : List ℕ) → HasReading text }
    ensures once { (text : List ℕ) (first second : Result (Plan × ℕ) PlanFault) → IsRead text first → IsRead text second → first ≡ second }
{}
