//! A law on texts of prices.
ghost use Rattle.std.specs.Prelude.{◌≡◌, ℕ, List, Result};
ghost use Rattle.sn_prices_grammar.specs.declared.prices.Shown.{Shown};
ghost use Rattle.sn_prices_text.specs.declared.fault.PricesFault.{PricesFault};
ghost use Rattle.sn_prices_text.specs.PricesTexts.{IsRead, HasReading};

/// A law, with nothing to run: from each byte on a text is read as exactly one thing, a cost with prices and what they show or a first fault.
#[tactic(auto, using(crate::proofs::Readings::reading_some, crate::proofs::Readings::reading_once))]
pub fn text_has_one_reading()
    ensures some { (text : List ℕ) (byte : ℕ) → HasReading text byte }
    ensures once { (text : List ℕ) (byte : ℕ) (first second : Result Shown PricesFault) → IsRead text byte first → IsRead text byte second →
        first ≡ second }
{}
