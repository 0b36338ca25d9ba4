//! What the engine makes of the items of several switches.
ghost use Rattle.std.specs.Prelude.{◌≡◌, ◌<◌, ℕ, List, Option, None, length};
ghost use Rattle.std.specs.List.{AllByRecursion, flat_map};
ghost use Rattle.sn_base.specs.Bags.{SameBag};
ghost use Rattle.sn_base.specs.Groups.{Row};
ghost use Rattle.sn_base.specs.Operators.{Op, through};
ghost use Rattle.sn_base.proofs.OperatorLemmas.{AllOf};
ghost use Rattle.sn_base.specs.Sorted.{sorted_rows};
ghost use Rattle.sn_ops.specs.Plain.{query_rows};
ghost use Rattle.sn_ops.specs.declared.packets.Kept.{Kept};
ghost use Rattle.sn_engine_split.specs.Branches.{query_value};
ghost use Rattle.sn_engine_split.specs.Opened.{Prefixes, tuples_admitted};
ghost use Rattle.sn_types.specs.Typed.{HasWidths, IsTyped, query_at};
ghost use Rattle.sn_types.specs.declared.typed_query.TypedQuery.{TypedQuery};
ghost use Rattle.sn_multi.specs.Branches.{AreLeftOfSwitches, AreOfSwitches, together};
ghost use Rattle.sn_pipe_items.specs.Value.{value};
ghost use Rattle.sn_report.specs.Items.{Item};
ghost use Rattle.sn_multi.specs.Switches.{all_items};

/// Switches that run the same prefix, each on its own rows, up to the first operator with registers: what the engine makes
/// of their items is what the operators make of all rows, as bags, in whatever order the items come, and
/// whatever the chains and sizes.
pub fn many_switches_answer_as_one()
    ensures { (cut depth : ℕ) (size : ℕ → ℕ) (ops : List Op) (flows : List (List Row)) (found : List Item) →
        AllOf ops (flat_map (λ rows. rows) flows) → SameBag (all_items depth size cut ops flows) found →
        SameBag (value ops found) (through ops (flat_map (λ rows. rows) flows)) }
{}

/// For every query, level, set of prefixes and captures: the value of the items that the switches send, in whatever order they
/// come, has the rows of the unsplit query on the tuples of all captures. Sorted, it is the same list.
pub fn many_switches_answer_queries()
    ensures { (window q level : ℕ) (queries : List TypedQuery) (kept : Option Kept) (captures : List (List (List ℕ))) (left right : List Item) →
        ∥ IsTyped window queries ∥₁ → q < length queries → AllByRecursion HasWidths (together captures) →
        AreOfSwitches queries q 0 level kept captures left →
        (length (query_at queries q).branches ≡ 2 → AreOfSwitches queries q 1 level kept captures right) →
        sorted_rows (query_value (query_at queries q) level left right) ≡ sorted_rows (query_rows (query_at queries q) level kept (together captures)) }
{}

/// For every query, level, set of prefixes and captures, where the tables of the switches may stay open: the value of the items that
/// are left, once those of other prefixes are dropped, has the rows of the unsplit query on the tuples of all captures with these
/// prefixes, in whatever order the items come. Sorted, it is the same list.
pub fn open_tables_of_many_switches_change_no_answer()
    ensures { (window q level : ℕ) (queries : List TypedQuery) (ps : Option Prefixes) (captures : List (List (List ℕ))) (left right : List Item) →
        ∥ IsTyped window queries ∥₁ → q < length queries → AllByRecursion HasWidths (together captures) →
        AreLeftOfSwitches queries q 0 level ps captures left →
        (length (query_at queries q).branches ≡ 2 → AreLeftOfSwitches queries q 1 level ps captures right) →
        sorted_rows (query_value (query_at queries q) level left right)
        ≡ sorted_rows (query_rows (query_at queries q) level None (tuples_admitted (query_at queries q) ps (together captures))) }
{}
