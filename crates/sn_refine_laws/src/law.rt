//! Filters by the refinement column, refined answers without a false row, and monotone queries.
ghost use Rattle.std.specs.Prelude.{◌≡◌, ◌<◌, ◌≤◌, ℕ, suc, List, Bool, true, filter, length, nat_eq, slice_index, unwrap_or, None, Some};
ghost use Rattle.std.specs.List.{AllByRecursion, list_any};
ghost use Rattle.sn_base.specs.Groups.{Row};
ghost use Rattle.sn_base.specs.Mask.{masked};
ghost use Rattle.sn_base.specs.Operators.{Op, through};
ghost use Rattle.sn_refine_laws.specs.Carrying.{CarryTo, passes};
ghost use Rattle.sn_refine_laws.specs.Dropping.{AllPartsLong, CarryAlong, passing};
ghost use Rattle.sn_pipe_items.specs.Value.{value};
ghost use Rattle.sn_report.specs.Items.{Item};
ghost use Rattle.sn_refine_laws.specs.Monotone.{is_monotone};
ghost use Rattle.sn_refine_laws.specs.Reported.{EndsFinest, IsReportedInTime, has_prefix};
ghost use Rattle.sn_fields.specs.Fields.{number_of, width_of};
ghost use Rattle.sn_fields.specs.declared.field.Field.{Field};
ghost use Rattle.sn_ops.specs.Plain.{query_rows};
ghost use Rattle.sn_refine.specs.Refined.{Windows, before, column_of, level_rows, refined_rows};
ghost use Rattle.sn_types.specs.Typed.{HasWidths, IsTyped, query_at};
ghost use Rattle.sn_types.specs.declared.typed_query.TypedQuery.{TypedQuery};

/// Where operators carry a column, rows may be kept by its numbers before the operators or after them.
pub fn filters_commute()
    ensures { (keep : ℕ → Bool) (ops : List Op) (p q : ℕ) (rows : List Row) → CarryTo ops p q →
        through ops (filter (passes keep p) rows) ≡ filter (passes keep q) (through ops rows) }
{}

/// For every refined query of a typed file and each of its levels: its rows on the tuples whose prefix passes a test are
/// those of its rows whose refinement column's prefix passes it, in the same order.
pub fn prefixes_are_asked_of_rows()
    ensures { (window q level bits : ℕ) (queries : List TypedQuery) (field : Field) (keep : ℕ → Bool) (tuples : List (List ℕ)) →
        IsTyped window queries → q < length queries → (query_at queries q).field ≡ Some field →
        list_any (nat_eq level) (query_at queries q).levels ≡ true → bits ≤ level →
        query_rows (query_at queries q) level None
        (filter (λ tuple. keep (masked (width_of field) bits (slice_index tuple (number_of field)))) tuples)
        ≡ filter (λ row. keep (masked (width_of field) bits (slice_index row (unwrap_or (query_at queries q).column 0))))
        (query_rows (query_at queries q) level None tuples) }
{}

/// No false row: the refined answers at a level after another are exactly those rows of the level's answers to all tuples
/// of the window whose refinement column, masked to the level before, was answered in the window before.
pub fn refined_rows_are_rows_of_the_level()
    ensures { (window q j w : ℕ) (queries : List TypedQuery) (field : Field) (windows : Windows) (path : List ℕ) →
        IsTyped window queries → q < length queries → (query_at queries q).field ≡ Some field → EndsFinest (query_at queries q) path → suc j < length path →
        refined_rows (query_at queries q) windows path (suc j) w
        ≡ filter (has_prefix (query_at queries q) field (slice_index path j)
        (column_of (query_at queries q) (before (refined_rows (query_at queries q) windows path j) w)))
        (level_rows (query_at queries q) (slice_index path (suc j)) (windows w)) }
{}

/// Bounded delay: of a monotone query, an address that the unrefined query answers in as many windows of consecutive numbers
/// as the path has levels is in the refined answers of the last of them.
pub fn monotone_queries_answer_in_time()
    ensures { (window q w a : ℕ) (queries : List TypedQuery) (field : Field) (windows : Windows) (path : List ℕ) →
        IsTyped window queries → q < length queries → (query_at queries q).field ≡ Some field → is_monotone (query_at queries q) ≡ true →
        EndsFinest (query_at queries q) path → ((v : ℕ) (tuples : List (List ℕ)) → windows v ≡ Some tuples → AllByRecursion HasWidths tuples) →
        IsReportedInTime (query_at queries q) windows path w a }
{}

/// Items may be dropped for the number in their carried column before the engine takes them: it makes of those that pass
/// what passes of what it makes of all, in the same order. Whatever items; Partial rows have the columns of a key.
pub fn items_may_be_dropped()
    ensures { (keep : ℕ → Bool) (places : ℕ → ℕ) (ops : List Op) (found : List Item) → CarryAlong places 0 ops → AllPartsLong 0 ops found →
        value ops (passing keep places found) ≡ filter (passes keep (places (length ops))) (value ops found) }
{}
