//! Laws on texts of trees.
ghost use Rattle.std.specs.Prelude.{◌≡◌, ℕ, List, ◌∷◌, ◌++◌, Result};
ghost use Rattle.sn_text_rules.specs.Tokens.{Tok};
ghost use Rattle.sn_text.specs.Cutting.{tokens_of};
ghost use Rattle.sn_tree_space.specs.declared.node.Node.{Node};
ghost use Rattle.sn_tree_text.specs.declared.fault.TextFault.{TextFault};
ghost use Rattle.sn_tree_text.specs.Places.{from_byte};
ghost use Rattle.sn_tree_text.specs.Texts.{IsRead, HasReading};

/// A law, with nothing to run: from each byte on a text is read as exactly one thing, a cost and a tree or a first fault.
#[tactic(auto, using(crate::proofs::Readings::reading_some, crate::proofs::Readings::reading_once))]
pub fn text_has_one_reading()
    ensures some { (text : List ℕ) (byte : ℕ) → HasReading text byte }
    ensures once { (text : List ℕ) (byte : ℕ) (first second : Result (ℕ × List Node) TextFault) → IsRead text byte first → IsRead text byte second →
        first ≡ second }
{}

/// A law, with nothing to run: the tokens from the byte where a token of the text begins are that one and those after it.
#[tactic(auto, using(crate::proofs::Places::from_start))]
pub fn tokens_go_on()
    ensures { (text : List ℕ) (front : List Tok) (at : Tok) (rest : List Tok) → tokens_of text ≡ front ++ at ∷ rest →
        from_byte at.start (tokens_of text) ≡ at ∷ rest }
{}
