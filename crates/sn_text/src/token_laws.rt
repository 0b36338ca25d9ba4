//! Where tokens stand in their text.
ghost use Rattle.std.specs.Prelude.{ℕ, List};
ghost use Rattle.std.specs.List.{AllByRecursion};
ghost use Rattle.sn_text.specs.Cutting.{tokens_of};
ghost use Rattle.sn_text.specs.Stands.{StandsIn};

/// Each token of a text has the line and the column of its first byte, and a word is the bytes of the text from its
/// start to its end.
pub fn tokens_stand_in_their_text()
    ensures { (text : List ℕ) → AllByRecursion (StandsIn text) (tokens_of text) }
{}
