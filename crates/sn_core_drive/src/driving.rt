//! What drives a machine from one supply to the next.
ghost use Rattle.std.specs.Prelude.{◌≡◌, ◌<◌, ◌++◌, ◌∷◌, [], ℕ, List, IfOk, OnOk, None, false, true, length, map};
ghost use Rattle.sn_core.specs.Debt.{work};
ghost use Rattle.sn_core.specs.Due.{due};
ghost use Rattle.sn_core.specs.Events.{after_event, given, without_answers};
ghost use Rattle.sn_core.specs.Needs.{first_need_that_fails, wants};
ghost use Rattle.sn_core.specs.Standing.{IsNet, IsNoEarlier};
ghost use Rattle.sn_core.specs.declared.supply.Supply.{Supply as Given};
ghost use Rattle.sn_core_drive.specs.Schedules.{IsAfter, IsRun, Leads, answers_in, is_still};
ghost use Rattle.sn_core_drive.specs.declared.note.Note.TheVariants as Note;
ghost use Rattle.sn_core_net.specs.States.{State};
ghost use Rattle.sn_core_net.specs.Steps.{IsOneOf};

use crate::machine::Machine;
use crate::notes::Notes;
use crate::picking::pick;
use sn_base::memory::Memory;
use sn_core::event::Event;
use sn_core::supply::Supply;
use sn_fields::tuple::Tuple;
use sn_gen::draws::Draws;
use std::alloc::Global;

/// Whether a supply is wanted, or all is done.
fn is_still<M: Machine>(machine: &M) -> bool
    ensures { result ≡ is_still (M.state machine.now) }
{
    machine.wants() || machine.done()
}

/// Does an event that may happen, and notes it.
fn happen<M: Machine>(machine: &mut M, event: Event, notes: &mut Notes) -> Result<(), Memory>
    requires lane { IsOneOf (length (M.state machine.old).lanes) event }
    requires may { first_need_that_fails (M.state machine.old) event ≡ None }
    ensures after { OnOk result (M.state machine.new ≡ after_event (M.works machine.old) (M.state machine.old) event) }
    ensures notes { OnOk result (notes.new ≡ notes.old ++ Note.Happened event ∷ []) }
    ensures works { M.works machine.new ≡ M.works machine.old }
{
    machine.happen(event)?;
    notes.happened(event)
}

/// Takes the answers that wait, if any do, and notes them.
fn gather<M: Machine>(machine: &mut M, notes: &mut Notes) -> Result<(), Memory>
    ensures notes { OnOk result ((x y : ℕ) (s : State) → Leads (M.works machine.old) M.reported x s notes.old y (M.state machine.old) →
        Leads (M.works machine.old) M.reported x s notes.new y (M.state machine.new)) }
    ensures rest { M.state machine.new ≡ without_answers (M.state machine.old) }
    ensures works { M.works machine.new ≡ M.works machine.old }
{
    match machine.take_answers() {
        Some(answers) => notes.reported(answers),
        None => Ok(()),
    }
}

/// The event that the next draw picks happens, and its answers are taken.
fn turn<M: Machine>(machine: &mut M, draws: &mut Draws, notes: &mut Notes) -> Result<(), Memory>
    requires stands { IsNet (M.works machine.old) (M.state machine.old) }
    requires going { is_still (M.state machine.old) ≡ false }
    requires taken { (M.state machine.old).waiting ≡ None }
    ensures notes { OnOk result ((x : ℕ) (s : State) → Leads (M.works machine.old) M.reported x s notes.old draws.old.number (M.state machine.old) →
        Leads (M.works machine.old) M.reported x s notes.new draws.new.number (M.state machine.new)) }
    ensures work { OnOk result (work (M.works machine.old) (M.state machine.new) [] < work (M.works machine.old) (M.state machine.old) []) }
    ensures stands { OnOk result (IsNet (M.works machine.old) (M.state machine.new)) }
    ensures taken { OnOk result ((M.state machine.new).waiting ≡ None) }
    ensures works { M.works machine.new ≡ M.works machine.old }
{
    let event = pick(machine, draws);
    happen(machine, event, notes)?;
    gather(machine, notes)?;
    Ok(())
}

/// Events happen until a supply is wanted, or all is done.
fn settle<M: Machine>(alloc: Global, machine: &mut M, draws: &mut Draws) -> Result<Notes, Memory>
    requires stands { IsNet (M.works machine.old) (M.state machine.old) }
    requires taken { (M.state machine.old).waiting ≡ None }
    ensures run { IfOk result (λ notes. IsRun (M.works machine.old) M.reported draws.old.number (M.state machine.old) notes draws.new.number
        (M.state machine.new)) }
    ensures stands { OnOk result (IsNet (M.works machine.old) (M.state machine.new)) }
    ensures still { OnOk result (is_still (M.state machine.new) ≡ true) }
    ensures taken { OnOk result ((M.state machine.new).waiting ≡ None) }
    ensures works { M.works machine.new ≡ M.works machine.old }
{
    let mut notes = Notes::new(alloc);
    'events: loop {
        if is_still(machine) {
            return Ok(notes);
        }
        turn(machine, draws, &mut notes)?;
    }
}

/// Gives a tuple of a window, or the end, to a machine that wants one. Then events happen, each picked by a draw, until it wants
/// the next or all is done. Says which events happened, and the answers that were reported among them: those of the window before,
/// where this begins a later one or is the end. Which answers these are, the clause `due` says: what was due before are these,
/// and then what is due now.
pub fn advance<M: Machine>(
    alloc: Global,
    machine: &mut M,
    draws: &mut Draws,
    next: Supply<Tuple>,
) -> Result<Notes, Memory>
    requires stands { IsNet (M.works machine.old) (M.state machine.old) }
    requires wants { wants (M.state machine.old) ≡ true }
    requires rises { IsNoEarlier next (M.state machine.old).window }
    requires taken { (M.state machine.old).waiting ≡ None }
    ensures run { IfOk result (λ notes. IsRun (M.works machine.old) M.reported draws.old.number (given (M.state machine.old) next) notes draws.new.number
        (M.state machine.new)) }
    ensures due { IfOk result (λ notes. (following : List (Given (List ℕ))) →
        map M.reported (due (M.works machine.old) (M.state machine.old) (next ∷ following)) ≡ answers_in notes ++ map M.reported
        (due (M.works machine.old) (M.state machine.new) following)) }
    ensures stands { OnOk result (IsNet (M.works machine.old) (M.state machine.new)) }
    ensures afterwards { OnOk result (IsAfter next (M.state machine.new)) }
    ensures taken { OnOk result ((M.state machine.new).waiting ≡ None) }
    ensures works { M.works machine.new ≡ M.works machine.old }
{
    machine.give(next);
    let notes = settle(alloc, machine, draws)?;
    Ok(notes)
}
