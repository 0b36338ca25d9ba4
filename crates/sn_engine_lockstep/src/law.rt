//! What a plan answers over windows. A program never calls these functions. The first two say what the definitions that the contracts
//! of `Driver` cite come to; the others are about windows one after another, each with the prefixes that the one before it answered.
ghost use Rattle.std.specs.Prelude.{◌≡◌, ℕ, List, None, map};
ghost use Rattle.std.specs.List.{AllByRecursion};
ghost use Rattle.sn_engine_lockstep.specs.declared.source.Source.{Source};
ghost use Rattle.sn_engine_lockstep.specs.Early.{early_by, early_from, early_total, plan_early};
ghost use Rattle.sn_engine_lockstep.specs.Sources.{source_of, sources_of};
ghost use Rattle.sn_engine_lockstep.specs.Windows.{answers_from, parts_from, plan_answers, sent_by};
ghost use Rattle.sn_engine_lockstep.specs.Work.{AreIdle, done, left_done};
ghost use Rattle.sn_emit.specs.declared.sender.Sender.{Sender};
ghost use Rattle.sn_emit.specs.Making.{CanMake};
ghost use Rattle.sn_emit.specs.Plans.{AreNewLanes, Placed, pieces_from};
ghost use Rattle.sn_emit.specs.declared.tables.Tables.{Tables};
ghost use Rattle.sn_engine.specs.Answers.{parts_of};
ghost use Rattle.sn_engine.specs.Intakes.{intakes_of, total};
ghost use Rattle.sn_plan_fit.specs.Fits.{AreEntriesOf, Fits};
ghost use Rattle.sn_plan_grammar.specs.declared.plan.Entry.{Entry};
ghost use Rattle.sn_refine.specs.Steps.{Set, windows_of};
ghost use Rattle.sn_switch.specs.declared.switch.Switch.{Switch};
ghost use Rattle.sn_switch.specs.Texts.{IsSwitch};
ghost use Rattle.sn_types.specs.declared.typed_query.TypedQuery.{TypedQuery};
ghost use Rattle.sn_types.specs.Typed.{HasWidths, IsTyped};
ghost use Rattle.sn_windows.specs.Rising.{AreRising, Window};

/// A driver as it was made is between two windows, and each of its lanes can be made and has its source.
pub fn new_drivers_are_idle()
    ensures idle { (queries : List TypedQuery) (tables : Tables) (entries : List Entry) (senders : List Sender) → AreEntriesOf queries entries →
        AreNewLanes queries tables (pieces_from 0 entries) senders →
        AreIdle queries tables (pieces_from 0 entries) senders (intakes_of 0 entries) }
    ensures can { (window : ℕ) (queries : List TypedQuery) (s : Switch) (entries : List Entry) → ∥ IsTyped window queries ∥₁ → IsSwitch s →
        Fits queries s entries → AllByRecursion (CanMake queries) (pieces_from 0 entries) }
    ensures sources { (q : ℕ) (entries : List Entry) → sources_of q entries ≡ map source_of (pieces_from q entries) }
{}

/// What `close` answers of the items with the prefixes of their sources is, query by query and level by level, the answer to the
/// tuples with these prefixes, and the number of the items of all pieces: whatever the cuts, chains and sizes, and whether tables
/// stay open or not. Early are those that leave the switch before the cut of their piece.
pub fn answers_are_those_of_the_window()
    ensures parts { (typed_for : ℕ) (tables : Tables) (window : ℕ) (queries : List TypedQuery) (entries : List Entry) (kept : Source → Set)
        (tuples : List (List ℕ)) →
        ∥ IsTyped typed_for queries ∥₁ → AreEntriesOf queries entries → AllByRecursion (CanMake queries) (pieces_from 0 entries) →
        AllByRecursion HasWidths tuples →
        parts_of queries (map (left_done queries tables kept tuples window) (pieces_from 0 entries)) ≡ parts_from queries kept tuples 0 entries }
    ensures count { (typed_for : ℕ) (tables : Tables) (window : ℕ) (queries : List TypedQuery) (entries : List Entry) (kept : Source → Set)
        (tuples : List (List ℕ)) →
        ∥ IsTyped typed_for queries ∥₁ → AreEntriesOf queries entries → AllByRecursion (CanMake queries) (pieces_from 0 entries) →
        AllByRecursion HasWidths tuples →
        total (map (done queries tables kept tuples window) (pieces_from 0 entries)) ≡ sent_by queries tables (pieces_from 0 entries) kept tuples }
    ensures early { (queries : List TypedQuery) (tables : Tables) (window : ℕ) (kept : Source → Set) (tuples : List (List ℕ)) (pieces : List Placed) →
        early_total (map (done queries tables kept tuples window) pieces) ≡ early_by queries tables pieces kept tuples }
{}

/// Windows that are given by rising number, each with the prefixes that the one before it answered, get the refined answers
/// along the plan, and the number of the items that its pieces send of what their tables admit. Those that were left out held
/// no record.
pub fn windows_get_the_answers_of_the_plan()
    ensures { (queries : List TypedQuery) (tables : Tables) (entries : List Entry) (given : List Window) → AreEntriesOf queries entries → AreRising None given →
        answers_from queries tables entries None given ≡ map (λ g. plan_answers queries tables entries (windows_of given) g.0) given }
{}

/// The items of such windows that leave the switch before the cut of their piece, counted over the tuples that the lanes admit,
/// are as many as the pieces send so of the tuples that come to them.
pub fn windows_count_what_is_early()
    ensures { (queries : List TypedQuery) (tables : Tables) (entries : List Entry) (given : List Window) → AreEntriesOf queries entries → AreRising None given →
        early_from queries tables entries None given ≡ map (λ g. plan_early queries tables entries (windows_of given) g.0) given }
{}
