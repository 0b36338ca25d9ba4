//! What answers windows: any machine whose state is that of a net.
ghost use Rattle.std.specs.Prelude.{◌≡◌, ◌<◌, ◌≤◌, ℕ, List, IfOk, None, OnErr, OnOk, is_none, length, map, true};
ghost use Rattle.std.specs.Int.{bit_at};
ghost use Rattle.std.specs.Option.{option_map};
ghost use Rattle.sn_core.specs.Calls.{made};
ghost use Rattle.sn_core.specs.Due.{due, windows_of};
ghost use Rattle.sn_core.specs.Events.{after_event, given, without_answers};
ghost use Rattle.sn_core.specs.Needs.{first_need_that_fails, is_done, wants};
ghost use Rattle.sn_core.specs.Numbers.{DontFall};
ghost use Rattle.sn_core.specs.Standing.{IsNet, IsNoEarlier};
ghost use Rattle.sn_core.specs.Workings.{AreLawful};
ghost use Rattle.sn_core.specs.declared.event.Event.TheVariants as Happens;
ghost use Rattle.sn_core.specs.declared.supply.Supply.{Supply as Given};
ghost use Rattle.sn_core_drive.specs.Telling.{Tells};
ghost use Rattle.sn_engine_lockstep.specs.Windows.{plan_answers};
ghost use Rattle.sn_emit.specs.Plans.{pieces_from, tables_of};
ghost use Rattle.sn_plan_fit.specs.Fits.{Fits};
ghost use Rattle.sn_core_net.specs.Marks.{bit_of};
ghost use Rattle.sn_core_net.specs.States.{State, Works};
ghost use Rattle.sn_core_net.specs.Steps.{IsOneOf, takes_memory};
ghost use Rattle.sn_core_net.specs.PlanWorkings.{AreLanesFor, HaveWidths, given_of, workings};
ghost use Rattle.sn_refine.specs.Steps.{windows_of as given_windows};
ghost use Rattle.sn_switch.specs.Texts.{IsSwitch};
ghost use Rattle.sn_types.specs.declared.answers.Answers.{Answers as Found};
ghost use Rattle.sn_types.specs.declared.typed_query.TypedQuery.{TypedQuery};

use sn_base::memory::Memory;
use sn_core::event::Event;
use sn_core::supply::Supply;
use sn_fields::tuple::Tuple;
use sn_plan_grammar::plan::Plan;
use sn_switch::switch::Switch;
use sn_types::answers::Answers;
use sn_types::typed::Typed;

/// A machine: its state is that of a net, each call does to it what it does to a net, and its answers are reported.
pub trait Machine: Sized + Drop {
    /// The pipes and answers over which it is made. No call changes them.
    ghost works: { Self → Works };

    /// What it holds.
    ghost state: { Self → State };

    /// What machines of this kind report of answers.
    ghost reported: { Found → Found };

    /// The machine of a plan that fits, with room for this many frames in each lane, at least 1. Nothing was given to it.
    fn make(t: &Typed, s: &Switch, plan: &Plan, room: u32) -> Result<Self, Memory>
        requires switch { IsSwitch s.now }
        requires fits { Fits t.now.queries s.now plan.now.entries }
        requires some_room { 1 ≤ room }
        ensures works { IfOk result (λ machine. works machine ≡ workings t.now.queries plan.now.entries) }
        ensures state { IfOk result (λ machine. state machine ≡ made (works machine) room (state machine).lanes) }
        ensures lanes { IfOk result (λ machine. AreLanesFor t.now.queries (tables_of s.now) (pieces_from 0 plan.now.entries) (state machine).lanes) }
        ensures some_lane { IfOk result (λ machine. 0 < length (state machine).lanes) }
        ensures stands { IfOk result (λ machine. IsNet (works machine) (state machine)) }
        // Whatever follows, what is due are the answers of the plan for each window that is given.
        ensures due { IfOk result (λ machine. (following : List (Given (List ℕ))) → let windows = windows_of following in DontFall 0 following →
            HaveWidths windows →
            due (works machine) (state machine) following ≡ map
            (λ x. plan_answers t.now.queries (tables_of s.now) plan.now.entries (given_windows (map given_of windows)) x.number) windows) };

    /// Whether it is to be given a tuple or the end. Takes no memory.
    fn wants(&self) -> bool
        ensures { result ≡ wants (state self.now) };

    /// Gives a tuple of a window, or the end, where one is wanted. The numbers of windows don't fall. Takes no memory.
    fn give(&mut self, next: Supply<Tuple>)
        requires wants { wants (state self.old) ≡ true }
        requires rises { IsNoEarlier next (state self.old).window }
        ensures state { state self.new ≡ given (state self.old) next }
        ensures works { works self.new ≡ works self.old };

    /// Whether every need of an event holds. A lane that it names must be one of the machine's. Takes no memory.
    fn enabled(&self, event: Event) -> bool
        requires { IsOneOf (length (state self.now).lanes) event }
        ensures { result ≡ is_none (first_need_that_fails (state self.now) event) };

    /// The lanes that may be read out: bit n is 1 exactly where the read-out of lane n may happen. So there are at most 64 of them. Takes
    /// no memory.
    fn read_outs(&self) -> u64
        ensures { (lane : ℕ) → bit_at result lane ≡ bit_of (is_none (first_need_that_fails (state self.now) (Happens.ReadOut lane))) };

    /// The lanes whose first frame may be delivered: bit n is 1 exactly where the delivery of lane n may happen. So there are at most 64
    /// of them. Takes no memory.
    fn deliveries(&self) -> u64
        ensures { (lane : ℕ) → bit_at result lane ≡ bit_of (is_none (first_need_that_fails (state self.now) (Happens.Deliver lane))) };

    /// Does an event whose needs hold. A lane that it names must be one of the machine's. After an `Err` the state is as it was.
    fn happen(&mut self, event: Event) -> Result<(), Memory>
        requires lane { IsOneOf (length (state self.old).lanes) event }
        requires may { first_need_that_fails (state self.old) event ≡ None }
        ensures ok { OnOk result (state self.new ≡ after_event (works self.old) (state self.old) event) }
        ensures err { OnErr result (state self.new ≡ state self.old) }
        ensures memory { OnErr result (takes_memory event ≡ true) }
        ensures works { works self.new ≡ works self.old };

    /// Takes the answers that wait, as they are reported. `None` exactly where none do. Takes no memory.
    fn take_answers(&mut self) -> Option<Answers>
        ensures answers { result ≡ option_map reported (state self.old).waiting }
        ensures rest { state self.new ≡ without_answers (state self.old) }
        ensures works { works self.new ≡ works self.old };

    /// Whether all is done: the end was given, no window is begun or closed, and no answers wait. Takes no memory.
    fn done(&self) -> bool
        ensures { result ≡ is_done (state self.now) };

    /// What is proved of every net holds of it.
    ghost lawful: { (machine : Self) → AreLawful (works machine) };

    /// Whatever is reported keeps the window, the number of items, and which parts there are.
    ghost tells: { (queries : List TypedQuery) (answers : Found) → Tells queries answers (reported answers) };
}
