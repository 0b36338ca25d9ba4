//! Laws, with nothing to run.
ghost use Rattle.std.specs.Prelude.{ℕ, List, None};
ghost use Rattle.std.specs.List.{AllByRecursion};
ghost use Rattle.sn_command.specs.Outcomes.{HasOne};
ghost use Rattle.sn_command_detect.specs.Detected.{AreExact, AreInTime, watched_from};
ghost use Rattle.sn_command_detect.specs.Detects.{Detects};
ghost use Rattle.sn_plan_fit.specs.Fits.{HasShape};
ghost use Rattle.sn_plan_grammar.specs.declared.plan.Entry.{Entry};
ghost use Rattle.sn_types.specs.declared.typed_query.TypedQuery.{TypedQuery};
ghost use Rattle.sn_types.specs.Typed.{HasWidths, IsTyped};
ghost use Rattle.sn_windows.specs.Rising.{AreRising, Window};

/// Over each set of files `detect` has exactly one outcome.
#[tactic(auto, using(crate::proofs::DetectLemmas::one_detect))]
pub fn detect_has_one_outcome()
    ensures { (queries plan capture : List ℕ) → HasOne (Detects queries plan capture) }
{}

/// Whatever a query, a path and windows, what is said of them are exactly the stays of the addresses that the query answers, in
/// order: each a longest run of windows of consecutive numbers, with the first of them in which the path prints the address.
pub fn stays_are_exact()
    ensures { (query : TypedQuery) (path : List ℕ) (windows : List Window) → AreRising None windows → AreExact query path windows }
{}

/// Bounded delay, for all refined queries of a plan of their shape, whatever the windows.
pub fn stays_of_monotone_queries_are_printed_in_time()
    ensures { (window : ℕ) (queries : List TypedQuery) (entries : List Entry) (windows : List Window) →
        IsTyped window queries → HasShape queries entries →
        AllByRecursion (λ (w : Window). AllByRecursion HasWidths w.1) windows → AreRising None windows →
        AllByRecursion (AreInTime queries windows) (watched_from queries 0 entries) }
{}
