//! The order of tuples doesn't matter.
ghost use Rattle.std.specs.Prelude.{◌<◌, ℕ, List, length, Option};
ghost use Rattle.std.specs.List.{AllByRecursion};
ghost use Rattle.sn_base.specs.Bags.{SameBag};
ghost use Rattle.sn_ops.specs.Plain.{branch_rows, query_rows};
ghost use Rattle.sn_ops.specs.declared.packets.Kept.{Kept};
ghost use Rattle.sn_types.specs.Typed.{HasWidths, IsTyped, query_at};
ghost use Rattle.sn_types.specs.declared.typed_query.TypedQuery.{TypedQuery};

/// Equal bags of tuples give equal bags of a branch's rows.
pub fn branches_keep_bags()
    ensures { (window q b level : ℕ) (queries : List TypedQuery) (kept : Option Kept) (tuples others : List (List ℕ)) →
        ∥ IsTyped window queries ∥₁ → q < length queries → b < length (query_at queries q).branches → AllByRecursion HasWidths tuples → SameBag tuples others →
        SameBag (branch_rows (query_at queries q) b level kept tuples) (branch_rows (query_at queries q) b level kept others) }
{}

/// Equal bags of tuples give equal bags of a query's rows.
pub fn queries_keep_bags()
    ensures { (window q level : ℕ) (queries : List TypedQuery) (kept : Option Kept) (tuples others : List (List ℕ)) →
        ∥ IsTyped window queries ∥₁ → q < length queries → AllByRecursion HasWidths tuples → SameBag tuples others →
        SameBag (query_rows (query_at queries q) level kept tuples) (query_rows (query_at queries q) level kept others) }
{}
