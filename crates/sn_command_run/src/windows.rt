//! A plan at work, window by window.
ghost use Rattle.std.specs.Prelude.{◌≡◌, ◌<◌, ◌+◌, ℕ, List, [], ◌∷◌, ◌++◌, length, IfOk, OnOk};
ghost use Rattle.std.specs.List.{AllByRecursion};
ghost use Rattle.sn_command_capture.specs.Wording.{Holds, HoldsSome};
ghost use Rattle.sn_core.specs.Calls.{made};
ghost use Rattle.sn_emit.specs.Plans.{pieces_from, tables_of};
ghost use Rattle.sn_plan_fit.specs.Fits.{Fits};
ghost use Rattle.sn_core_net.specs.PlanWorkings.{AreLanesFor, workings};
ghost use Rattle.sn_out.specs.Text.{IsPartOf};
ghost use Rattle.sn_command_run.specs.Along.{IsAtHand, IsIdle, plan_of};
ghost use Rattle.sn_command_run.specs.Planned.{reported_at};
ghost use Rattle.sn_switch.specs.Texts.{IsSwitch};
ghost use Rattle.sn_windows.specs.Rising.{Window};

use crate::along::Along;
use crate::form::Form;
use crate::reported::last_reported;
use sn_base::memory::Memory;
use sn_core::supply::Supply;
use sn_core_drive::driving::advance;
use sn_core_drive::machine::Machine;
use sn_emit::tables::Tables;
use sn_fields::tuple::Tuple;
use sn_gen::draws::Draws;
use sn_plan_grammar::plan::Plan;
use sn_switch::switch::Switch;
use sn_types::answers::Answers;
use sn_types::typed::Typed;

/// How many frames a lane may hold.
const ROOM: u32 = 64;

/// How many items were sent with those of one window more.
pub fn sum_of(before: u64, more: u64) -> Result<u64, Memory>
    ensures { IfOk result (λ sum. sum ≡ before + more) }
{
    match before.checked_add(more) {
        Some(sum) => Ok(sum),
        None => Err(Memory),
    }
}

impl<M: Machine> Along<M> {
    /// A plan that fits, before any window. Its answers are to be written in this form.
    pub fn make(form: Form, typed: Typed, switch: &Switch, plan: Plan) -> Result<Along<M>, Memory>
        requires switch { IsSwitch switch.now }
        requires fits { Fits typed.queries switch.now plan.entries }
        ensures plan { IfOk result (λ a. plan_of a ≡ record { queries = typed.queries; tables = tables_of switch.now; entries = plan.entries }) }
        ensures form { IfOk result (λ a. a.form ≡ form) }
        ensures begun { IfOk result (λ a. IsAtHand M.Machine a [] 0 []) }
        ensures works { IfOk result (λ a. M.works a.machine ≡ workings typed.queries plan.entries) }
        ensures new { IfOk result (λ a. M.state a.machine ≡ made (M.works a.machine) 64 (M.state a.machine).lanes) }
        ensures pipes { IfOk result (λ a. AreLanesFor typed.queries (tables_of switch.now) (pieces_from 0 plan.entries) (M.state a.machine).lanes) }
    {
        let machine = M::make(&typed, switch, &plan, ROOM)?;
        Ok(Along {
            alloc: typed.alloc,
            typed,
            plan,
            tables: Tables::of(switch),
            machine,
            draws: Draws { number: 0 },
            form,
            emitted: 0,
        })
    }

    /// Takes the next tuple of the current window, which has this number.
    pub fn take_tuple(&mut self, number: u64, tuple: &Tuple) -> Result<(), Memory>
        requires { Holds (IsAtHand M.Machine self.old) number }
        ensures given { OnOk result ((closed : List Window) (tuples : List (List ℕ)) → IsAtHand M.Machine self.old closed number tuples →
            IsAtHand M.Machine self.new closed number (tuples ++ tuple.now ∷ [])) }
        ensures plan { plan_of self.new ≡ plan_of self.old }
        ensures form { self.new.form ≡ self.old.form }
    {
        tuple.widths();
        let next = Supply::Numbered(number, *tuple);
        advance(self.alloc, &mut self.machine, &mut self.draws, next)?;
        Ok(())
    }

    /// Takes the first tuple of a later window, and gives the answers of the current one.
    pub fn pass_window(
        &mut self,
        at_hand: u64,
        number: u64,
        tuple: &Tuple,
    ) -> Result<Answers, Memory>
        requires hand { HoldsSome (IsAtHand M.Machine self.old) at_hand }
        requires above { at_hand < number }
        ensures answers { IfOk result (λ answers. (closed : List Window) (tuples : List (List ℕ)) → 0 < length tuples →
            IsAtHand M.Machine self.old closed at_hand tuples →
            answers ≡ reported_at M.reported (plan_of self.old) (closed ++ (at_hand, tuples) ∷ []) at_hand) }
        ensures fit { IfOk result (λ answers. AllByRecursion (IsPartOf self.new.typed.queries) answers.parts) }
        ensures begun { OnOk result ((closed : List Window) (tuples : List (List ℕ)) → 0 < length tuples → IsAtHand M.Machine self.old closed at_hand tuples →
            IsAtHand M.Machine self.new (closed ++ (at_hand, tuples) ∷ []) number (tuple.now ∷ [])) }
        ensures plan { plan_of self.new ≡ plan_of self.old }
        ensures form { self.new.form ≡ self.old.form }
    {
        tuple.widths();
        let first = Supply::Numbered(number, *tuple);
        let notes = advance(self.alloc, &mut self.machine, &mut self.draws, first)?;
        let Some(answers) = last_reported(notes.up_to_answers()) else {
            unreachable!();
        };
        self.emitted = sum_of(self.emitted, answers.emitted)?;
        Ok(answers)
    }

    /// Gives the answers of the current window, which is the last one.
    pub fn close_window(&mut self, number: u64) -> Result<Answers, Memory>
        requires { HoldsSome (IsAtHand M.Machine self.old) number }
        ensures answers { IfOk result (λ answers. (closed : List Window) (tuples : List (List ℕ)) → 0 < length tuples →
            IsAtHand M.Machine self.old closed number tuples →
            answers ≡ reported_at M.reported (plan_of self.old) (closed ++ (number, tuples) ∷ []) number) }
        ensures fit { IfOk result (λ answers. AllByRecursion (IsPartOf self.new.typed.queries) answers.parts) }
        ensures closed { OnOk result ((closed : List Window) (tuples : List (List ℕ)) → 0 < length tuples → IsAtHand M.Machine self.old closed number tuples →
            IsIdle M.Machine self.new (closed ++ (number, tuples) ∷ [])) }
        ensures plan { plan_of self.new ≡ plan_of self.old }
        ensures form { self.new.form ≡ self.old.form }
    {
        let end = Supply::End;
        let notes = advance(self.alloc, &mut self.machine, &mut self.draws, end)?;
        let Some(answers) = last_reported(notes.up_to_answers()) else {
            unreachable!();
        };
        self.emitted = sum_of(self.emitted, answers.emitted)?;
        Ok(answers)
    }
}
