//! How many of each thing a typed file has.
ghost use Rattle.std.specs.Prelude.{ℕ, List};
ghost use Rattle.sn_refine_laws.specs.Counts.{KeepsCounts};
ghost use Rattle.sn_types.specs.Typed.{IsTyped};
ghost use Rattle.sn_types.specs.declared.typed_query.TypedQuery.{TypedQuery};

/// A typed file has one to eight queries, of one or two branches with one to twelve operators, and one to four levels,
/// each above those before it, or the one level 0; and so on, as `KeepsCounts` lists it.
pub fn typed_files_keep_counts()
    ensures { (window : ℕ) (queries : List TypedQuery) → IsTyped window queries → KeepsCounts window queries }
{}
