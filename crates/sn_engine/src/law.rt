//! What an engine has after any list of frames.
ghost use Rattle.std.specs.Prelude.{◌≡◌, ◌<◌, ◌+◌, ◌++◌, ℕ, List, None, Option, Some, filter, fold, length};
ghost use Rattle.std.specs.List.{find, AllByRecursion};
ghost use Rattle.sn_base.specs.declared.lane.Lane.{Lane};
ghost use Rattle.sn_report.specs.Items.{Frame};
ghost use Rattle.sn_engine.specs.declared.intake.Intake.{Intake};
ghost use Rattle.sn_engine.specs.Intakes.{is_lane, is_row, lane_at, after_frame, items_at, items_for, total, AreIntakes};
ghost use Rattle.sn_engine.specs.Taking.{AreTaken};
ghost use Rattle.sn_engine.specs.Answers.{part_of, parts_of};
ghost use Rattle.sn_engine.specs.Keeping.{all_left};
ghost use Rattle.sn_refine.specs.Steps.{Set};
ghost use Rattle.sn_base.specs.Bags.{SameBag};
ghost use Rattle.sn_base.specs.Sorted.{sorted_rows};
ghost use Rattle.sn_ops.specs.Plain.{query_rows};
ghost use Rattle.sn_engine_split.specs.Opened.{Prefixes, tuples_admitted};
ghost use Rattle.sn_engine_split.specs.Wholes.{AreLeft};
ghost use Rattle.sn_types.specs.Typed.{IsTyped, HasWidths, query_at};
ghost use Rattle.sn_types.specs.declared.typed_query.TypedQuery.{TypedQuery};

/// After any list of frames, in any order between the lanes, each lane has the items that it had and those of its own
/// frames after them, in their order.
pub fn frames_are_gathered()
    ensures { (frames : List Frame) (lanes : List Intake) (lane : Lane) (x : Intake) → find (is_lane lane) lanes ≡ Some x →
        items_at (fold after_frame lanes frames) lane ≡ items_at lanes lane ++ items_for lane frames }
{}

/// After frames that are taken one after another, as many items have come as there are Row frames among them.
pub fn items_are_counted()
    ensures { (queries : List TypedQuery) (closed : Option ℕ) (lanes : List Intake) (frames : List Frame) → AreTaken queries closed lanes frames →
        total (fold after_frame lanes frames) ≡ total lanes + length (filter is_row frames) }
{}

/// Equal bags of frames have equal answers with the same prefixes, and equally many items, in whatever order they come.
pub fn the_order_of_frames_is_free()
    ensures { (window : ℕ) (queries : List TypedQuery) (sets : List Set) (lanes : List Intake) (frames others : List Frame) → ∥ IsTyped window queries ∥₁ →
        AreIntakes queries (fold after_frame lanes frames) → SameBag frames others →
        (parts_of queries (all_left queries sets (fold after_frame lanes frames)) ≡ parts_of queries (all_left queries sets (fold after_frame lanes others))) ×
        (total (fold after_frame lanes frames) ≡ total (fold after_frame lanes others)) }
{}

/// Where the items of a lane are what is left of those that a switch sent, and so are those of the lane of the other branch, on the
/// same tuples and with the same prefixes: the answer has the rows of the unsplit query on the tuples of these prefixes, sorted.
pub fn answers_are_those_of_the_query()
    ensures { (window : ℕ) (queries : List TypedQuery) (lanes : List Intake) (x : Intake) (ps : Option Prefixes) (tuples : List (List ℕ)) →
        ∥ IsTyped window queries ∥₁ → x.query < length queries → AllByRecursion HasWidths tuples →
        AreLeft queries x.query 0 x.level ps tuples x.items →
        (length (query_at queries x.query).branches ≡ 2 → AreLeft queries x.query 1 x.level ps tuples (items_at lanes (lane_at x.query x.place 1))) →
        let query = query_at queries x.query in
        (part_of queries lanes x).rows ≡ sorted_rows (query_rows query x.level None (tuples_admitted query ps tuples)) }
{}
