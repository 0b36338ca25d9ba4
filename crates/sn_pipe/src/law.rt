//! What a pipe gives over a whole window. A program never calls these functions; each states a fact about the definitions
//! that the contracts of `Pipe` cite.
ghost use Rattle.std.specs.Prelude.{◌≡◌, ℕ, ◌<◌, ◌≤◌, ◌++◌, ◌∷◌, List, Option, None, Some, false, true, length, map, take};
ghost use Rattle.std.specs.FinSet as set;
ghost use Rattle.std.specs.List.{AllByRecursion};
ghost use Rattle.std.specs.Ordering.{nat_cmp};
ghost use Rattle.sn_pipe.specs.Pipes.{IsNewPipe, PipeState, after_packet, after_packets, at_start, packets_give, passing, rows_in, rows_admitted};
ghost use Rattle.sn_types.specs.Cuts.{size_at};
ghost use Rattle.sn_pipe.specs.Prefixes.{left_in};
ghost use Rattle.sn_ops.specs.Packets.{packet_rows};
ghost use Rattle.sn_ops.specs.declared.packets.Kept.{Kept};
ghost use Rattle.sn_engine_split.specs.Branches.{IsItemOf, branch_items, is_tag_of};
ghost use Rattle.sn_types.specs.Typed.{HasWidths, IsTyped, branch_at, query_at};
ghost use Rattle.sn_types.specs.Values.{op_at};
ghost use Rattle.sn_types.specs.declared.typed_query.TypedQuery.{TypedQuery};
ghost use Rattle.sn_base.specs.Groups.{Row};
ghost use Rattle.sn_base.specs.Operators.{Had};
ghost use Rattle.sn_engine_split.specs.Opened.{is_open, tuples_admitted};
ghost use Rattle.sn_pipe.specs.AnyStage.{Stage};
ghost use Rattle.sn_pipe.specs.declared.gate.Gate.{Gate};
ghost use Rattle.sn_pipe.specs.Stages.{cleared, item_from, ops_of, stages_after_all};
ghost use Rattle.sn_pipe.specs.Windows.{HaveSizes, IsPrefix, given, left_from};
ghost use Rattle.sn_pipe_items.specs.Items.{at_packet, items, sent};
ghost use Rattle.std.specs.Option.{option_to_list};

/// From empty registers on, what the rows of a window give one after another, and then what is read out, are the items
/// of the prefix in their order. The row of each packet gives the item that stands at this packet, if there is one.
pub fn pipes_give_the_items()
    ensures window { (level depth : ℕ) (size : ℕ → ℕ) (stages : List Stage) (rows : List Row) →
        IsPrefix stages → HaveSizes depth size 0 stages → AllByRecursion (Had (ops_of level stages)) rows →
        given level (map cleared stages) rows ++ left_from level 0 false 0 (stages_after_all level (map cleared stages) rows)
        ≡ items depth size (length stages) (ops_of level stages) rows }
    ensures packet { (level depth : ℕ) (size : ℕ → ℕ) (stages : List Stage) (before later : List Row) (row : Row) →
        HaveSizes depth size 0 stages → AllByRecursion (Had (ops_of level stages)) (before ++ row ∷ later) →
        option_to_list (item_from level 0 (stages_after_all level (map cleared stages) before) row)
        ≡ at_packet (sent depth size (length stages) (ops_of level stages) (before ++ row ∷ later)) (length before) }
{}

/// From the start of a window on, with any prefix set: what `packet` gives for the tuples of the window, one after another,
/// and then what `read_out_next` gives, are the items of the prefix over the rows of the tuples that are admitted, in their
/// order.
pub fn windows_give_the_items()
    ensures { (pipe : PipeState) (kept : set.FinSet nat_cmp) (depth : ℕ) (size : ℕ → ℕ) (tuples : List (List ℕ)) →
        let start = at_start pipe kept in
        let ops = ops_of pipe.prefix.level pipe.prefix.stages in
        IsPrefix pipe.prefix.stages → HaveSizes depth size 0 pipe.prefix.stages → AllByRecursion (Had ops) (rows_in start tuples) →
        packets_give start tuples ++ left_in (after_packets start tuples).prefix ≡ items depth size (length pipe.prefix.stages) ops (rows_in start tuples) }
{}

/// A pipe that was made for a branch of a typed query, with any prefix set and over the tuples of any window: what `packet`
/// gives for them, one after another, and then what `read_out_next` gives, are the items of the branch's prefix in their
/// order.
pub fn new_pipes_give_the_items()
    ensures { (window q b level cut depth : ℕ) (queries : List TypedQuery) (coarser : Option Gate) (sizes : List ℕ) (pipe : PipeState)
        (kept : set.FinSet nat_cmp) (tuples : List (List ℕ)) →
        let query = query_at queries q in
        let ops = (branch_at queries q b).ops in
        ∥ IsTyped window queries ∥₁ → q < length queries → b < length query.branches → cut ≤ (branch_at queries q b).max_cut →
        IsNewPipe query b level coarser (take cut ops) depth sizes pipe → AllByRecursion HasWidths tuples →
        packets_give (at_start pipe kept) tuples ++ left_in (after_packets (at_start pipe kept) tuples).prefix
        ≡ items depth (size_at ops sizes) cut (map (op_at level) ops) (rows_admitted query b level coarser kept tuples) }
{}

/// The start of a window is the same whatever came before it: tuples, read-outs and other windows. So what is said of a
/// pipe as it was made is said of each window.
pub fn windows_start_afresh()
    ensures packet { (pipe : PipeState) (kept : set.FinSet nat_cmp) (tuple : List ℕ) → at_start (after_packet pipe tuple) kept ≡ at_start pipe kept }
    ensures read { (pipe : PipeState) (kept : set.FinSet nat_cmp) (place : ℕ) →
        at_start (record pipe { prefix = record pipe.prefix { place = place } }) kept ≡ at_start pipe kept }
    ensures window { (pipe : PipeState) (kept later : set.FinSet nat_cmp) → at_start (at_start pipe kept) later ≡ at_start pipe later }
{}

/// The rows that a pipe admits are the packet rows of the tuples that pass: of those whose refinement field is a prefix of
/// the set, where a level stands before it and its table has an entry for each prefix, and else of all. With as many prefixes as
/// entries the table isn't open yet.
pub fn pipes_admit_the_kept()
    ensures all { (query : TypedQuery) (b level : ℕ) (members : set.FinSet nat_cmp) (tuples : List (List ℕ)) →
        rows_admitted query b level None members tuples ≡ packet_rows query b level None tuples }
    ensures kept { (query : TypedQuery) (b level : ℕ) (gate : Gate) (kept : Kept) (tuples : List (List ℕ)) →
        gate.bits ≡ kept.bits → is_open gate.entries kept.members.now ≡ false →
        rows_admitted query b level (Some gate) kept.members.now tuples ≡ packet_rows query b level (Some kept) tuples }
    ensures opened { (query : TypedQuery) (b level : ℕ) (gate : Gate) (members : set.FinSet nat_cmp) (tuples : List (List ℕ)) →
        is_open gate.entries members ≡ true → rows_admitted query b level (Some gate) members tuples ≡ packet_rows query b level None tuples }
    ensures passing { (query : TypedQuery) (b level : ℕ) (coarser : Option Gate) (members : set.FinSet nat_cmp) (tuples : List (List ℕ)) →
        rows_admitted query b level coarser members tuples ≡ packet_rows query b level None (tuples_admitted query (passing coarser members) tuples) }
{}

/// The items of the prefix of a branch have the columns of their tags, and tags of that prefix: an engine that knows the
/// cut takes each of them.
pub fn items_are_of_their_branch()
    ensures { (window q b level cut depth : ℕ) (queries : List TypedQuery) (kept : Option Kept) (sizes : List ℕ) (tuples : List (List ℕ)) →
        ∥ IsTyped window queries ∥₁ → q < length queries → b < length (query_at queries q).branches → cut ≤ (branch_at queries q b).max_cut →
        AllByRecursion HasWidths tuples →
        AllByRecursion (λ item. IsItemOf (branch_at queries q b) item × (is_tag_of (branch_at queries q b).ops cut item.tag ≡ true))
        (branch_items (query_at queries q) b level kept cut depth sizes tuples) }
{}
