//! Laws on the windows of several captures, with nothing to run.
ghost use Rattle.std.specs.Prelude.{◌≡◌, ℕ, List};
ghost use Rattle.std.specs.List.{AllByRecursion};
ghost use Rattle.sn_windows.proofs.RunLemmas.{Rises};
ghost use Rattle.sn_windows.specs.Laws.{itself};
ghost use Rattle.sn_windows.specs.Numbering.{begun_at, numbered_from};
ghost use Rattle.sn_windows_together.specs.Laws.{AreTaken, Rows};
ghost use Rattle.sn_windows_together.specs.Since.{numbered_since};

/// Of captures in which numbers never fall, the windows are the one that is left first, with its records of each capture, and those of
/// what is left after it.
#[tactic(auto, using(crate::proofs::MergeLemmas::are_taken))]
pub fn windows_are_taken_one_after_another()
    ensures { (captures : List Rows) → AllByRecursion Rises captures → AreTaken captures }
{}

/// Step by step from a time on, each record gets the greatest offset from that time over it and all records before it.
#[tactic(auto, using(crate::proofs::SinceLemmas::since_is))]
pub fn numbers_go_on_from_a_time()
    ensures { (window start : ℕ) (times : List ℕ) → numbered_from itself (begun_at start window) times ≡ numbered_since itself window start times }
{}
