//! A law on the numbers of windows.
ghost use Rattle.std.specs.Prelude.{ℕ, List};
ghost use Rattle.sn_windows.specs.Laws.{IsNumbered};

/// A law, with nothing to run: step by step, each record gets the greatest offset over it and all records before it,
/// and is counted among those before it that have its number. So numbers never fall.
pub fn numbers_are_over_all_records()
    ensures { (window : ℕ) (times : List ℕ) (time : ℕ) → IsNumbered window times time }
{}
