//! Laws on what happens in machines, with nothing to run.
ghost use Rattle.std.specs.Prelude.{◌≡◌, ℕ, List, None, Some, true};
ghost use Rattle.sn_core.specs.Calls.{made};
ghost use Rattle.sn_core.specs.Events.{given};
ghost use Rattle.sn_core.specs.Needs.{is_over};
ghost use Rattle.sn_core.specs.Standing.{IsNet};
ghost use Rattle.sn_core.specs.Workings.{AreLawful};
ghost use Rattle.sn_core.specs.declared.event.Event.{Event};
ghost use Rattle.sn_core.specs.declared.supply.Supply.{Supply};
ghost use Rattle.sn_core.specs.declared.supply.Supply.TheVariants as Supply;
ghost use Rattle.sn_core.specs.declared.supply.Window.TheVariants as Window;
ghost use Rattle.sn_core_drive.specs.Schedules.{IsRun};
ghost use Rattle.sn_core_drive.specs.declared.note.Note.{Note};
ghost use Rattle.sn_engine_lockstep.specs.declared.source.Source.{Source};
ghost use Rattle.sn_emit.specs.Plans.{pieces_from};
ghost use Rattle.sn_emit.specs.declared.tables.Tables.{Tables};
ghost use Rattle.sn_engine.specs.declared.intake.Intake.{Intake};
ghost use Rattle.sn_core_net.specs.States.{State, Works};
ghost use Rattle.sn_core_net.specs.PlanWorkings.{AreLanesFor, workings, workings_of};
ghost use Rattle.sn_plan_grammar.specs.declared.plan.Entry.{Entry};
ghost use Rattle.sn_core_drive.specs.Lanes.{new_state};
ghost use Rattle.sn_core_drive.specs.Plain.{plain_state, plain_turns};
ghost use Rattle.sn_core_drive.specs.Turns.{events_in, parted, turns_on};
ghost use Rattle.sn_types.specs.declared.answers.Answers.{Answers};
ghost use Rattle.sn_types.specs.declared.typed_query.TypedQuery.{TypedQuery};

/// There is one run from a supply to the next, by the number that was drawn last: whatever is reported of answers, its events, the number
/// that was drawn at last and the state that it leaves are those of the turns.
#[tactic(auto, using(crate::proofs::TurnLemmas::run_turns_on))]
pub fn runs_are_turns()
    ensures { (w : Works) → AreLawful w → (reported : Answers → Answers) (x : ℕ) (s : State) (next : Supply (List ℕ)) (notes : List Note) (y : ℕ) (t : State) →
        s.waiting ≡ None → IsNet w (given s next) →
        IsRun w reported x (given s next) notes y t → turns_on w x s next ≡ record { events = events_in notes; number = y; state = t } }
{}

/// What happens up to the close of a window is the same, whichever tuple of a later window is given or the end.
#[tactic(auto, using(crate::proofs::CloseLemmas::same_front))]
pub fn closes_depend_on_no_later_supply()
    ensures { (w : Works) → AreLawful w → (since : List Event) (x : ℕ) (s : State) (next : Supply (List ℕ)) (number : ℕ) → s.window ≡ Window.Begun number →
        is_over number (Some next) ≡ true → IsNet w (given s next) → IsNet w (given s Supply.End) →
        (parted since (turns_on w x s next).events).0 ≡ (parted since (turns_on w x s Supply.End).events).0 }
{}

/// What happens is the same whatever the folds of a distinct's registers are.
#[tactic(auto, using(crate::proofs::StateLemmas::turns_on_same))]
pub fn only_keys_of_a_distinct_count()
    ensures { (queries : List TypedQuery) (intakes : List Intake) (sources : List Source) (x : ℕ) (s : State) (next : Supply (List ℕ)) →
        let w = workings_of queries intakes sources in turns_on w x (plain_state s) next ≡ plain_turns (turns_on w x s next) }
{}

/// But for these folds, there is one machine of a plan to which nothing was given.
pub fn machines_of_a_plan_are_made_alike()
    ensures { (room : ℕ) (queries : List TypedQuery) (tables : Tables) (entries : List Entry) (w : Works) (s : State) → w ≡ workings queries entries →
        s ≡ made w room s.lanes → AreLanesFor queries tables (pieces_from 0 entries) s.lanes →
        plain_state s ≡ new_state room queries tables entries }
{}
