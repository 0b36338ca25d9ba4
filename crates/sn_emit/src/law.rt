//! What a lane gives over a window. A program never calls these functions; each states a fact about the definitions that
//! the contracts of `Emitter` cite.
ghost use Rattle.std.specs.Prelude.{◌≡◌, ℕ, ◌<◌, ◌≤◌, ◌+◌, ◌^◌, ◌++◌, ◌∷◌, [], List, length, map, sum};
ghost use Rattle.std.specs.FinSet as set;
ghost use Rattle.std.specs.List.{AllByRecursion};
ghost use Rattle.std.specs.Ordering.{nat_cmp};
ghost use Rattle.sn_emit.specs.declared.sender.Sender.{Sender};
ghost use Rattle.sn_emit.specs.declared.tables.Tables.{Tables};
ghost use Rattle.sn_emit.specs.Lanes.{emitted_by};
ghost use Rattle.sn_emit.specs.Plans.{AreLanesOf, AreNewLanes, IsLaneOf, Placed, items_of};
ghost use Rattle.sn_emit.specs.Runs.{ReadsOut};
ghost use Rattle.sn_emit.specs.Senders.{frames_left, packet_frames, row_frame, sender_after, sender_start};
ghost use Rattle.sn_pipe.specs.Pipes.{after_packets, packets_give};
ghost use Rattle.sn_pipe.specs.Prefixes.{left_in};
ghost use Rattle.sn_report.specs.Items.{Frame};
ghost use Rattle.sn_report.specs.declared.frame.Frame.TheVariants.{End};
ghost use Rattle.sn_types.specs.declared.typed_query.TypedQuery.{TypedQuery};
ghost use Rattle.sn_types.specs.Typed.{HasWidths, IsTyped, branch_at, query_at};
ghost use Rattle.sn_plan_fit.specs.Capped.{capped};

/// A lane gives over a window, from its start to the first `None` of its read-out, the frames of its piece's items in
/// their order and then one End, and it counts the items.
pub fn lanes_give_their_items()
    ensures frames { (window : ℕ) (tables : Tables) (number : ℕ) (queries : List TypedQuery) (x : Placed) (s t : Sender) (kept : set.FinSet nat_cmp)
        (tuples : List (List ℕ)) (frames : List Frame) →
        ∥ IsTyped window queries ∥₁ → x.query < length queries → x.piece.branch < length (query_at queries x.query).branches →
        x.piece.cut ≤ (branch_at queries x.query x.piece.branch).max_cut → IsLaneOf queries tables x s → AllByRecursion HasWidths tuples →
        ReadsOut number (sender_after (sender_start s kept) tuples) frames t →
        packet_frames (sender_start s kept) tuples ++ frames ≡ map (row_frame s.lane) (items_of queries tables x kept tuples) ++ End s.lane number ∷ [] }
    ensures count { (window : ℕ) (tables : Tables) (number : ℕ) (queries : List TypedQuery) (x : Placed) (s t : Sender) (kept : set.FinSet nat_cmp)
        (tuples : List (List ℕ)) (frames : List Frame) →
        ∥ IsTyped window queries ∥₁ → x.query < length queries → x.piece.branch < length (query_at queries x.query).branches →
        x.piece.cut ≤ (branch_at queries x.query x.piece.branch).max_cut → IsLaneOf queries tables x s → AllByRecursion HasWidths tuples →
        ReadsOut number (sender_after (sender_start s kept) tuples) frames t →
        t.given ≡ capped (length (items_of queries tables x kept tuples)) }
{}

/// Lanes as they were made are those of their pieces, each at the start of a window with an empty prefix set.
pub fn new_lanes_are_at_the_start()
    ensures lanes { (queries : List TypedQuery) (tables : Tables) (pieces : List Placed) (lanes : List Sender) → AreNewLanes queries tables pieces lanes →
        AreLanesOf queries tables pieces lanes }
    ensures start { (queries : List TypedQuery) (tables : Tables) (pieces : List Placed) (lanes : List Sender) → AreNewLanes queries tables pieces lanes →
        map (λ s. sender_start s set.empty) lanes ≡ lanes }
{}

/// Where each lane counted its items, `emitted` is the number of all items, or 2^64 - 1 where that is greater.
pub fn emitted_counts_the_items()
    ensures { (lanes : List Sender) (counts : List ℕ) → map (λ s. s.given) lanes ≡ map capped counts → emitted_by lanes ≡ capped (sum counts) }
{}
