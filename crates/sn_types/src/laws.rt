//! What holds of every typed file.
ghost use Rattle.std.specs.Prelude.{◌≡◌, ◌<◌, ◌^◌, ℕ, List, true, false, is_some};
ghost use Rattle.sn_query_grammar.specs.declared.ast.Query.{Query};
ghost use Rattle.sn_types_faults.specs.Walk.{query_places, first_fault};
ghost use Rattle.std.specs.List.{AllByRecursion};
ghost use Rattle.sn_base.specs.declared.column.Column.{Column};
ghost use Rattle.sn_base.specs.Columns.{IsOf};
ghost use Rattle.sn_query_grammar.specs.declared.ast.Expr.{Expr};
ghost use Rattle.sn_types_faults.specs.Columns.{expr_width, has_column};
ghost use Rattle.sn_query_grammar.specs.Limits.{IsPostExpr};
ghost use Rattle.sn_types_faults.specs.Names.{names_in};
ghost use Rattle.sn_types.specs.declared.typed_query.TypedBranch.{TypedBranch};
ghost use Rattle.sn_types.specs.declared.typed_query.TypedQuery.{TypedQuery};
ghost use Rattle.sn_types.specs.Kinds.{is_wide, IsShort};
ghost use Rattle.sn_types.specs.Typed.{IsTyped, schema_at};
ghost use Rattle.sn_types.specs.Typing.{typed_expr, typed_query};
ghost use Rattle.sn_types.specs.Values.{value_of};
ghost use Rattle.sn_types.specs.WellFormed.{IsWellFormedQuery};

/// Each operator of a typed file reads columns of the rows that come to it alone, and packet rows have at most eight
/// fields.
pub fn typed_files_are_well_formed()
    ensures { (window : ℕ) (queries : List TypedQuery) → IsTyped window queries → AllByRecursion IsWellFormedQuery queries }
{}

/// An expression whose names are columns computes, of each row of these columns, a number of its column's width.
pub fn expressions_keep_their_widths()
    ensures { (columns : List Column) (row : List ℕ) (e : Expr) → IsOf columns row → IsPostExpr e →
        AllByRecursion (λ n. has_column columns n ≡ true) (names_in e) → value_of (typed_expr columns e) row < 2 ^ expr_width columns e }
{}

/// A query without a fault has a refinement field and a refinement column exactly where it has a refine line.
pub fn refined_queries_have_field_and_column()
    ensures { (q : Query) → first_fault (query_places q) ≡ None →
        (is_some (typed_query q).field ≡ is_some q.refine) × (is_some (typed_query q).column ≡ is_some q.refine) }
{}

/// The rows of a branch that isn't wide, at each of its operators, have numbers of 64 bits: short rows hold them.
pub fn branches_that_are_not_wide_have_short_rows()
    ensures { (branch : TypedBranch) (i : ℕ) (row : List ℕ) → is_wide branch ≡ false → IsOf (schema_at branch.schemas i) row → IsShort row }
{}
