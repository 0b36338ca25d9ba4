//! A branch that is cut gives what it gives whole, where the engine drops items of other prefixes and tables may stay open.
ghost use Rattle.std.specs.Prelude.{◌≡◌, ◌<◌, ◌≤◌, ℕ, List, None, length, map, Option};
ghost use Rattle.std.specs.List.{AllByRecursion};
ghost use Rattle.sn_base.specs.Bags.{SameBag};
ghost use Rattle.sn_base.specs.Sorted.{sorted_rows};
ghost use Rattle.sn_engine_split.specs.Branches.{IsItemOf, branch_items, query_value};
ghost use Rattle.sn_engine_split.specs.Opened.{IsWithinLevel, Prefixes, left_in, tuples_admitted, tabled};
ghost use Rattle.sn_engine_split.specs.Wholes.{AreLeft};
ghost use Rattle.sn_ops.specs.Plain.{branch_rows, query_rows};
ghost use Rattle.sn_pipe_items.specs.Value.{value};
ghost use Rattle.sn_report.specs.Items.{Item};
ghost use Rattle.sn_types.specs.Typed.{IsTyped, HasWidths, query_at, branch_at};
ghost use Rattle.sn_types.specs.Values.{op_at};
ghost use Rattle.sn_types.specs.declared.typed_query.TypedQuery.{TypedQuery};

/// For every branch of a typed query, level, set of prefixes, number of entries, tuples, cut up to the greatest, length of chains
/// and sizes of registers: of all items that the switch sends, those of these prefixes have as their value the branch on the tuples
/// of these prefixes, as bags, in whatever order they come, whether the table stays open or not.
pub fn open_split_law()
    ensures { (window q b level cut depth : ℕ) (sizes : List ℕ) (queries : List TypedQuery) (entries : Option ℕ) (ps : Option Prefixes)
        (tuples : List (List ℕ)) (found : List Item) →
        ∥ IsTyped window queries ∥₁ → q < length queries → b < length (query_at queries q).branches → AllByRecursion HasWidths tuples →
        cut ≤ (branch_at queries q b).max_cut → IsWithinLevel level ps →
        SameBag (branch_items (query_at queries q) b level None cut depth sizes (tuples_admitted (query_at queries q) (tabled entries ps) tuples)) found →
        SameBag (value (map (op_at level) (branch_at queries q b).ops) (left_in (query_at queries q) b ps found))
        (branch_rows (query_at queries q) b level None (tuples_admitted (query_at queries q) ps tuples)) }
{}

/// For every query, level, set of prefixes and tuples: the value of the items that are left, whatever was sent and in whatever
/// order, has the rows of the unsplit query on the tuples of these prefixes. Sorted, it is the same list.
pub fn whole_queries_are_left()
    ensures { (window q level : ℕ) (queries : List TypedQuery) (ps : Option Prefixes) (tuples : List (List ℕ)) (left right : List Item) →
        ∥ IsTyped window queries ∥₁ → q < length queries → AllByRecursion HasWidths tuples →
        AreLeft queries q 0 level ps tuples left → (length (query_at queries q).branches ≡ 2 → AreLeft queries q 1 level ps tuples right) →
        sorted_rows (query_value (query_at queries q) level left right)
        ≡ sorted_rows (query_rows (query_at queries q) level None (tuples_admitted (query_at queries q) ps tuples)) }
{}

/// The sorted value of what is left of the items of a query's branches depends on the bags of the items and on the prefixes alone.
pub fn values_of_what_is_left_keep_bags()
    ensures { (window q level : ℕ) (queries : List TypedQuery) (ps : Option Prefixes) (left others_left right others_right : List Item) →
        ∥ IsTyped window queries ∥₁ → q < length queries →
        AllByRecursion (IsItemOf (branch_at queries q 0)) left → SameBag left others_left → AllByRecursion (IsItemOf (branch_at queries q 1)) right →
        SameBag right others_right →
        let query = query_at queries q in
        sorted_rows (query_value query level (left_in query 0 ps left) (left_in query 1 ps right))
        ≡ sorted_rows (query_value query level (left_in query 0 ps others_left) (left_in query 1 ps others_right)) }
{}
