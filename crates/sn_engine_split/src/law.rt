//! A branch that is cut gives what it gives whole.
ghost use Rattle.std.specs.Prelude.{◌≡◌, ◌<◌, ◌≤◌, ℕ, List, length, map, Option};
ghost use Rattle.std.specs.List.{AllByRecursion};
ghost use Rattle.sn_base.specs.Bags.{SameBag};
ghost use Rattle.sn_base.specs.Sorted.{sorted_rows};
ghost use Rattle.sn_ops.specs.Plain.{branch_rows, query_rows};
ghost use Rattle.sn_ops.specs.declared.packets.Kept.{Kept};
ghost use Rattle.sn_report.specs.Items.{Item};
ghost use Rattle.sn_pipe_items.specs.Value.{value};
ghost use Rattle.sn_engine_split.specs.Branches.{branch_items, query_value, AreSplit, IsItemOf};
ghost use Rattle.sn_types.specs.Typed.{IsTyped, HasWidths, query_at, branch_at};
ghost use Rattle.sn_types.specs.Values.{op_at};
ghost use Rattle.sn_types.specs.declared.typed_query.TypedQuery.{TypedQuery};

/// For every branch of a typed query, level, set of prefixes, tuples, cut up to the greatest, length of chains and sizes
/// of registers: the value of the items that the prefix sends is the branch on the tuples, as bags, in whatever order the
/// items come. It holds with overflow at a distinct, at a reduce, at both, and with Partial rows.
pub fn split_law()
    ensures { (window q b level cut depth : ℕ) (sizes : List ℕ) (queries : List TypedQuery) (kept : Option Kept) (tuples : List (List ℕ)) (found : List Item) →
        ∥ IsTyped window queries ∥₁ → q < length queries → b < length (query_at queries q).branches → AllByRecursion HasWidths tuples →
        cut ≤ (branch_at queries q b).max_cut →
        SameBag (branch_items (query_at queries q) b level kept cut depth sizes tuples) found →
        SameBag (value (map (op_at level) (branch_at queries q b).ops) found) (branch_rows (query_at queries q) b level kept tuples) }
{}

/// The value of items of a branch depends on their bag alone.
pub fn value_keeps_bags()
    ensures { (window q b level : ℕ) (queries : List TypedQuery) (found others : List Item) →
        ∥ IsTyped window queries ∥₁ → q < length queries → b < length (query_at queries q).branches → AllByRecursion (IsItemOf (branch_at queries q b)) found →
        SameBag found others →
        SameBag (value (map (op_at level) (branch_at queries q b).ops) found) (value (map (op_at level) (branch_at queries q b).ops) others) }
{}

/// The sorted value of the items of a query's branches depends on their bags alone.
pub fn query_values_keep_bags()
    ensures { (window q level : ℕ) (queries : List TypedQuery) (left others_left right others_right : List Item) →
        ∥ IsTyped window queries ∥₁ → q < length queries →
        AllByRecursion (IsItemOf (branch_at queries q 0)) left → SameBag left others_left → AllByRecursion (IsItemOf (branch_at queries q 1)) right →
        SameBag right others_right →
        sorted_rows (query_value (query_at queries q) level left right) ≡ sorted_rows (query_value (query_at queries q) level others_left others_right) }
{}

/// For every query, level, set of prefixes and tuples: the value of the items that the prefixes of its branches send, in
/// whatever order they come, has the rows of the unsplit query. Sorted, it is the same list.
pub fn whole_queries_are_split()
    ensures { (window q level : ℕ) (queries : List TypedQuery) (kept : Option Kept) (tuples : List (List ℕ)) (left right : List Item) →
        ∥ IsTyped window queries ∥₁ → q < length queries → AllByRecursion HasWidths tuples →
        AreSplit queries q 0 level kept tuples left → (length (query_at queries q).branches ≡ 2 → AreSplit queries q 1 level kept tuples right) →
        sorted_rows (query_value (query_at queries q) level left right) ≡ sorted_rows (query_rows (query_at queries q) level kept tuples) }
{}
