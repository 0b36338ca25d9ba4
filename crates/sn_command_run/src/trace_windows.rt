//! A plan at work, window by window.
ghost use Rattle.std.specs.Prelude.{◌≡◌, ◌<◌, ℕ, List, [], ◌∷◌, ◌++◌, length, IfOk, OnOk};
ghost use Rattle.std.specs.List.{AllByRecursion};
ghost use Rattle.sn_command_capture.specs.Wording.{Holds, HoldsSome};
ghost use Rattle.sn_plan_fit.specs.Fits.{Fits};
ghost use Rattle.sn_out.specs.Text.{IsPartOf};
ghost use Rattle.sn_command_run.specs.Along.{plan_of};
ghost use Rattle.sn_command_run.specs.Planned.{reported_at};
ghost use Rattle.sn_switch.specs.Texts.{IsSwitch};
ghost use Rattle.sn_command_run.specs.TraceWatching.{IsAtWork, IsIdle};
ghost use Rattle.sn_command_run.specs.TraceWording.{lines_before};
ghost use Rattle.sn_windows.specs.Rising.{Window};
ghost use Rattle.sn_emit.specs.Plans.{tables_of};

use crate::along::Along;
use crate::form::Form;
use crate::reported::last_reported;
use crate::traced::Traced;
use crate::windows::sum_of;
use sn_base::memory::Memory;
use sn_core::supply::Supply;
use sn_core_drive::driving::advance;
use sn_core_drive::lines::follow;
use sn_core_drive::machine::Machine;
use sn_fields::tuple::Tuple;
use sn_gen::draws::Draws;
use sn_plan_grammar::plan::Plan;
use sn_switch::switch::Switch;
use sn_types::answers::Answers;
use sn_types::typed::Typed;

impl<M: Machine> Traced<M> {
    /// A plan that fits, before any window. Its machine is driven by draws that follow this number.
    pub fn make(
        schedule: u32,
        typed: Typed,
        switch: &Switch,
        plan: Plan,
    ) -> Result<Traced<M>, Memory>
        requires switch { IsSwitch switch.now }
        requires fits { Fits typed.queries switch.now plan.entries }
        ensures plan { IfOk result (λ a. plan_of a.along ≡ record { queries = typed.queries; tables = tables_of switch.now; entries = plan.entries }) }
        ensures schedule { IfOk result (λ a. a.schedule ≡ schedule) }
        ensures begun { IfOk result (λ a. IsAtWork M.Machine a [] 0 []) }
    {
        let mut along: Along<M> = Along::make(Form::Blocks, typed, switch, plan)?;
        along.draws = Draws {
            number: u64::from(schedule),
        };
        let lines = Vec::new(along.alloc);
        Ok(Traced {
            along,
            schedule,
            lines,
        })
    }

    /// Takes the next tuple of the current window, which has this number.
    pub fn take_tuple(&mut self, number: u64, tuple: &Tuple) -> Result<(), Memory>
        requires { Holds (IsAtWork M.Machine self.old) number }
        ensures given { OnOk result ((closed : List Window) (tuples : List (List ℕ)) → IsAtWork M.Machine self.old closed number tuples →
            IsAtWork M.Machine self.new closed number (tuples ++ tuple.now ∷ [])) }
        ensures plan { plan_of self.new.along ≡ plan_of self.old.along }
        ensures schedule { self.new.schedule ≡ self.old.schedule }
    {
        tuple.widths();
        let next = Supply::Numbered(number, *tuple);
        let notes = advance(
            self.along.alloc,
            &mut self.along.machine,
            &mut self.along.draws,
            next,
        )?;
        let all = notes.all()?;
        follow(self.along.alloc, &mut self.lines, all.as_slice())?;
        Ok(())
    }

    /// Takes the first tuple of a later window. Gives the lines and the answers of the current one.
    pub fn pass_window(
        &mut self,
        at_hand: u64,
        number: u64,
        tuple: &Tuple,
    ) -> Result<(Vec<u8>, Answers), Memory>
        requires hand { HoldsSome (IsAtWork M.Machine self.old) at_hand }
        requires above { at_hand < number }
        ensures lines { IfOk result (λ found. (closed : List Window) (tuples : List (List ℕ)) → 0 < length tuples →
            IsAtWork M.Machine self.old closed at_hand tuples →
            found.0.items ≡ lines_before self.old.schedule (plan_of self.old.along) (closed ++ (at_hand, tuples) ∷ []) at_hand) }
        ensures answers { IfOk result (λ found. (closed : List Window) (tuples : List (List ℕ)) → 0 < length tuples →
            IsAtWork M.Machine self.old closed at_hand tuples →
            found.1 ≡ reported_at M.reported (plan_of self.old.along) (closed ++ (at_hand, tuples) ∷ []) at_hand) }
        ensures fit { IfOk result (λ found. AllByRecursion (IsPartOf self.new.along.typed.queries) found.1.parts) }
        ensures begun { OnOk result ((closed : List Window) (tuples : List (List ℕ)) → 0 < length tuples → IsAtWork M.Machine self.old closed at_hand tuples →
            IsAtWork M.Machine self.new (closed ++ (at_hand, tuples) ∷ []) number (tuple.now ∷ [])) }
        ensures plan { plan_of self.new.along ≡ plan_of self.old.along }
        ensures schedule { self.new.schedule ≡ self.old.schedule }
    {
        tuple.widths();
        let first = Supply::Numbered(number, *tuple);
        let notes = advance(
            self.along.alloc,
            &mut self.along.machine,
            &mut self.along.draws,
            first,
        )?;
        let all = notes.all()?;
        let lines = follow(self.along.alloc, &mut self.lines, all.as_slice())?;
        let Some(answers) = last_reported(all) else {
            unreachable!();
        };
        self.along.emitted = sum_of(self.along.emitted, answers.emitted)?;
        Ok((lines, answers))
    }

    /// Gives the lines and the answers of the current window, which is the last one.
    pub fn close_window(&mut self, number: u64) -> Result<(Vec<u8>, Answers), Memory>
        requires { HoldsSome (IsAtWork M.Machine self.old) number }
        ensures lines { IfOk result (λ found. (closed : List Window) (tuples : List (List ℕ)) → 0 < length tuples →
            IsAtWork M.Machine self.old closed number tuples →
            found.0.items ≡ lines_before self.old.schedule (plan_of self.old.along) (closed ++ (number, tuples) ∷ []) number) }
        ensures answers { IfOk result (λ found. (closed : List Window) (tuples : List (List ℕ)) → 0 < length tuples →
            IsAtWork M.Machine self.old closed number tuples →
            found.1 ≡ reported_at M.reported (plan_of self.old.along) (closed ++ (number, tuples) ∷ []) number) }
        ensures fit { IfOk result (λ found. AllByRecursion (IsPartOf self.new.along.typed.queries) found.1.parts) }
        ensures closed { OnOk result ((closed : List Window) (tuples : List (List ℕ)) → 0 < length tuples → IsAtWork M.Machine self.old closed number tuples →
            IsIdle M.Machine self.new (closed ++ (number, tuples) ∷ [])) }
        ensures plan { plan_of self.new.along ≡ plan_of self.old.along }
        ensures schedule { self.new.schedule ≡ self.old.schedule }
    {
        let end = Supply::End;
        let notes = advance(
            self.along.alloc,
            &mut self.along.machine,
            &mut self.along.draws,
            end,
        )?;
        let all = notes.all()?;
        let lines = follow(self.along.alloc, &mut self.lines, all.as_slice())?;
        let Some(answers) = last_reported(all) else {
            unreachable!();
        };
        self.along.emitted = sum_of(self.along.emitted, answers.emitted)?;
        Ok((lines, answers))
    }
}
