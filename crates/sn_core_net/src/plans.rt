//! What holds of the nets of all plans. A program never calls these functions.
ghost use Rattle.std.specs.Prelude.{◌≡◌, ◌<◌, ℕ, List, None, length, map, true};
ghost use Rattle.std.specs.List.{AllByRecursion};
ghost use Rattle.sn_core.specs.Calls.{AreAllowed, Call, after_calls, answers_taken, made, supplies_of};
ghost use Rattle.sn_core.specs.Due.{Tuples, answers_of, windows_of};
ghost use Rattle.sn_core.specs.Needs.{is_done};
ghost use Rattle.sn_core.specs.Nets.{Lane};
ghost use Rattle.sn_core.specs.Numbers.{DontFall};
ghost use Rattle.sn_core.specs.Workings.{AreLawful};
ghost use Rattle.sn_engine_lockstep.specs.Windows.{answers_from, plan_answers};
ghost use Rattle.sn_emit.specs.Making.{CanMake};
ghost use Rattle.sn_emit.specs.Plans.{pieces_from, tables_of};
ghost use Rattle.sn_emit.specs.declared.tables.Tables.{Tables};
ghost use Rattle.sn_plan_fit.specs.Fits.{AreEntriesOf, Fits};
ghost use Rattle.sn_core_net.specs.PlanWorkings.{AreLanesFor, HaveWidths, given_of, workings};
ghost use Rattle.sn_pipe.specs.Pipes.{PipeState};
ghost use Rattle.sn_plan_grammar.specs.declared.plan.Entry.{Entry};
ghost use Rattle.sn_refine.specs.Steps.{windows_of as given_windows};
ghost use Rattle.sn_report.specs.Items.{Item};
ghost use Rattle.sn_switch.specs.Texts.{IsSwitch};
ghost use Rattle.sn_switch.specs.declared.switch.Switch.{Switch};
ghost use Rattle.sn_types.specs.Typed.{IsTyped};
ghost use Rattle.sn_types.specs.declared.typed_query.TypedQuery.{TypedQuery};

/// The pipes of every plan are lawful: what is proved of the nets of lawful workings holds of its nets.
pub fn plans_have_lawful_workings()
    ensures { (queries : List TypedQuery) (entries : List Entry) → AreLawful (workings queries entries) }
{}

/// The answers of a plan's net, one window after another, are those that a plan gives these windows where each has the
/// prefixes that the window before answered: whatever the cuts, chains and sizes.
pub fn nets_answer_each_window()
    ensures { (typed_for : ℕ) (tables : Tables) (queries : List TypedQuery) (entries : List Entry) (lanes : List (Lane PipeState Item))
        (windows : List (Tuples (List ℕ))) →
        ∥ IsTyped typed_for queries ∥₁ → AreEntriesOf queries entries → AllByRecursion (CanMake queries) (pieces_from 0 entries) →
        AreLanesFor queries tables (pieces_from 0 entries) lanes → 0 < length lanes → HaveWidths windows →
        answers_of (workings queries entries) lanes None windows ≡ answers_from queries tables entries None (map given_of windows) }
{}

/// Every schedule gives the answers of the plan: a net of a plan that fits, made with a lane for each piece, is given tuples
/// whose windows don't fall, and its events come in any order. Where it is done, the answers that were taken are those of the
/// plan for each window that was given: the refined answers, and the number of the items that its pieces send.
pub fn schedules_give_the_answers_of_the_plan()
    ensures { (typed_for room : ℕ) (queries : List TypedQuery) (s : Switch) (entries : List Entry) (lanes : List (Lane PipeState Item))
        (calls : List (Call (List ℕ))) →
        let w = workings queries entries in
        let windows = windows_of (supplies_of calls) in
        ∥ IsTyped typed_for queries ∥₁ → IsSwitch s → Fits queries s entries → AreLanesFor queries (tables_of s) (pieces_from 0 entries) lanes → 0 < room →
        0 < length lanes →
        AreAllowed w (made w room lanes) calls → DontFall 0 (supplies_of calls) → HaveWidths windows →
        is_done (after_calls w (made w room lanes) calls) ≡ true →
        answers_taken w (made w room lanes) calls
        ≡ map (λ x. plan_answers queries (tables_of s) entries (given_windows (map given_of windows)) x.number) windows }
{}
