//! The refined answers of windows that are given, and of items.
ghost use Rattle.std.specs.Prelude.{◌≡◌, ◌<◌, ℕ, List, [], Option, Some, None, length, map, slice_index};
ghost use Rattle.std.specs.List.{AllByRecursion};
ghost use Rattle.sn_base.specs.Sorted.{sorted_rows};
ghost use Rattle.sn_ops.specs.declared.packets.Kept.{Kept};
ghost use Rattle.sn_refine.specs.Refined.{Windows, refined_parts, refined_rows};
ghost use Rattle.sn_refine.specs.Steps.{Sees, windows_of, answers_from};
ghost use Rattle.sn_report.specs.Items.{Item};
ghost use Rattle.sn_engine_split.specs.Branches.{query_value, AreSplit};
ghost use Rattle.sn_types.specs.Typed.{IsTyped, HasWidths, query_at};
ghost use Rattle.sn_types.specs.declared.typed_query.TypedQuery.{TypedQuery};
ghost use Rattle.sn_windows.specs.Rising.{AreRising, Window};

/// Windows that are given by rising number, from a `Refined` to which none was given yet, are answered by the refined
/// answers. Those that were left out held no record.
pub fn windows_get_the_refined_answers()
    ensures { (q : ℕ) (query : TypedQuery) (path : List ℕ) (given : List Window) → AreRising None given →
        answers_from q query path None [] given ≡ map (λ g. refined_parts q query (windows_of given) path g.0) given }
{}

/// Where a level at a place of the path sees exactly the tuples with the prefixes that the level before it answered in the
/// window before, and the items of the branches of the query are those that their prefixes send of these tuples: the value
/// of the items is the refined answer, whatever the cuts, chains and sizes.
pub fn refined_answers_from_items()
    ensures { (window q j w : ℕ) (queries : List TypedQuery) (windows : Windows) (path : List ℕ) (kept : Option Kept) (tuples : List (List ℕ))
        (left right : List Item) →
        ∥ IsTyped window queries ∥₁ → q < length queries → windows w ≡ Some tuples → AllByRecursion HasWidths tuples →
        Sees (query_at queries q) windows path j w kept →
        AreSplit queries q 0 (slice_index path j) kept tuples left →
        (length (query_at queries q).branches ≡ 2 → AreSplit queries q 1 (slice_index path j) kept tuples right) →
        sorted_rows (query_value (query_at queries q) (slice_index path j) left right) ≡ refined_rows (query_at queries q) windows path j w }
{}
