//! What the greatest cut of a branch is.
ghost use Rattle.std.specs.Prelude.{◌<◌, ℕ, List, length};
ghost use Rattle.sn_top_laws.specs.Cuts.{IsGreatestCut};
ghost use Rattle.sn_types.specs.Typed.{IsTyped, branch_at, query_at};
ghost use Rattle.sn_types.specs.declared.typed_query.TypedQuery.{TypedQuery};

/// The greatest cut of a branch of a typed file is the greatest number of operators at its front that may stand in a
/// switch, and at most the number of its operators.
pub fn greatest_cuts_are_the_greatest()
    ensures { (window q b : ℕ) (queries : List TypedQuery) → ∥ IsTyped window queries ∥₁ → q < length queries → b < length (query_at queries q).branches →
        IsGreatestCut (branch_at queries q b).ops (branch_at queries q b).max_cut }
{}
