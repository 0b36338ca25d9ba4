//! Notes of a machine that is driven.
ghost use Rattle.std.specs.Prelude.{◌≡◌, ◌++◌, ◌∷◌, [], IfOk, None, OnOk, map};
ghost use Rattle.std.specs.Option.{option_to_list};
ghost use Rattle.sn_core_drive.specs.Schedules.{answers_in};
ghost use Rattle.sn_core_drive.specs.declared.note.Note.TheVariants as Note;

use crate::note::Note;
use sn_base::memory::Memory;
use sn_base::seq::Seq;
use sn_core::event::Event;
use sn_types::answers::Answers;
use std::alloc::Global;
use std::marker::Model;

/// Notes, in order. Of events there are many and of answers few: events are held by themselves until answers come, since an event is
/// small and a note isn't. The last of them stands by itself: after most supplies there is but one, and it takes no memory.
#[derive(Drop)]
pub struct Notes {
    /// The notes up to the last answers.
    front: Seq<Note>,
    /// The events after them, but for the last.
    events: Seq<Event>,
    /// The last event after them, if there is one.
    last: Option<Event>,
}

impl Model for Notes {
    ghost use Rattle.std.specs.Prelude.{◌++◌, List, map};
    ghost use Rattle.std.specs.Option.{option_to_list};
    ghost use Rattle.sn_core_drive.specs.declared.note.Note.{Note};
    ghost use Rattle.sn_core_drive.specs.declared.note.Note.TheVariants.{Happened};

    ghost Value = { List Note };

    ghost view = { λ a. a.front ++ map Happened (a.events ++ option_to_list a.last) };
}

/// Puts events after notes.
fn move_events(notes: &mut Seq<Note>, events: &mut Seq<Event>) -> Result<(), Memory>
    ensures moved { OnOk result (notes.new ≡ notes.old ++ map Note.Happened events.old) }
    ensures none { OnOk result (events.new ≡ []) }
{
    for event in events.as_slice() {
        notes.push(Note::Happened(*event))?;
    }
    events.clear();
    Ok(())
}

/// Puts the last event, if there is one, after the others.
fn put_last(events: &mut Seq<Event>, last: &mut Option<Event>) -> Result<(), Memory>
    ensures events { OnOk result (events.new ≡ events.old ++ option_to_list last.old) }
    ensures none { OnOk result (last.new ≡ None) }
{
    match last.take() {
        Some(event) => events.push(event),
        None => Ok(()),
    }
}

impl Notes {
    /// None.
    pub fn new(alloc: Global) -> Notes
        ensures { result ≡ [] }
    {
        Notes {
            front: Seq::new(alloc),
            events: Seq::new(alloc),
            last: None,
        }
    }

    /// Notes an event.
    pub fn happened(&mut self, event: Event) -> Result<(), Memory>
        ensures { OnOk result (self.new ≡ self.old ++ Note.Happened event ∷ []) }
    {
        put_last(&mut self.events, &mut self.last)?;
        self.last = Some(event);
        Ok(())
    }

    /// Notes answers.
    pub fn reported(&mut self, answers: Answers) -> Result<(), Memory>
        ensures { OnOk result (self.new ≡ self.old ++ Note.Reported answers ∷ []) }
    {
        put_last(&mut self.events, &mut self.last)?;
        move_events(&mut self.front, &mut self.events)?;
        self.front.push(Note::Reported(answers))
    }

    /// All notes.
    pub fn all(self) -> Result<Seq<Note>, Memory>
        ensures { IfOk result (λ notes. notes ≡ self) }
    {
        let Notes {
            mut front,
            mut events,
            mut last,
        } = self;
        put_last(&mut events, &mut last)?;
        move_events(&mut front, &mut events)?;
        Ok(front)
    }

    /// The notes up to the last answers: no answers stand after them.
    pub fn up_to_answers(self) -> Seq<Note>
        ensures { answers_in result ≡ answers_in self }
    {
        self.front
    }
}
