//! The lines of events.
ghost use Rattle.std.specs.Prelude.{◌≡◌, ◌++◌, List, OnOk, IfOk};
ghost use Rattle.std.specs.List.{flat_map};
ghost use Rattle.sn_core.specs.declared.event.Event.{Event as Happening};
ghost use Rattle.sn_core_drive.specs.Lines.{close_words, deliver_words, event_line, event_words, install_words, lines_of, note_lines, packet_words, read_words};
ghost use Rattle.sn_core_drive.specs.Turns.{events_in, note_closes, parted};

use crate::note::Note;
use sn_base::bytes::push_bytes;
use sn_base::memory::Memory;
use sn_core::event::Event;
use sn_out::pieces::push_number;
use std::alloc::Global;
use std::mem;

#[tactic(auto, unfolding(crate::specs::Lines::packet_words))]
fn push_packet(text: &mut Vec<u8>) -> Result<(), Memory>
    ensures { OnOk result (text.new.items ≡ text.old.items ++ packet_words) }
{
    push_bytes(text, b"event packet")
}

#[tactic(auto, unfolding(crate::specs::Lines::read_words))]
fn push_read(text: &mut Vec<u8>) -> Result<(), Memory>
    ensures { OnOk result (text.new.items ≡ text.old.items ++ read_words) }
{
    push_bytes(text, b"event read ")
}

#[tactic(auto, unfolding(crate::specs::Lines::deliver_words))]
fn push_deliver(text: &mut Vec<u8>) -> Result<(), Memory>
    ensures { OnOk result (text.new.items ≡ text.old.items ++ deliver_words) }
{
    push_bytes(text, b"event deliver ")
}

#[tactic(auto, unfolding(crate::specs::Lines::close_words))]
fn push_close(text: &mut Vec<u8>) -> Result<(), Memory>
    ensures { OnOk result (text.new.items ≡ text.old.items ++ close_words) }
{
    push_bytes(text, b"event close")
}

#[tactic(auto, unfolding(crate::specs::Lines::install_words))]
fn push_install(text: &mut Vec<u8>) -> Result<(), Memory>
    ensures { OnOk result (text.new.items ≡ text.old.items ++ install_words) }
{
    push_bytes(text, b"event install")
}

/// Adds what an event is called.
fn push_event(text: &mut Vec<u8>, event: Event) -> Result<(), Memory>
    ensures { OnOk result (text.new.items ≡ text.old.items ++ event_words event) }
{
    match event {
        Event::Packet => push_packet(text),
        Event::ReadOut(lane) => {
            push_read(text)?;
            push_number(text, u64::from(lane))
        }
        Event::Deliver(lane) => {
            push_deliver(text)?;
            push_number(text, u64::from(lane))
        }
        Event::CloseWindow => push_close(text),
        Event::Install => push_install(text),
    }
}

/// Adds the line of an event.
fn push_event_line(text: &mut Vec<u8>, event: Event) -> Result<(), Memory>
    ensures { OnOk result (text.new.items ≡ text.old.items ++ event_line event) }
{
    push_event(text, event)?;
    push_bytes(text, b"\n")
}

/// Adds the line of a note: answers have none.
fn push_note_line(text: &mut Vec<u8>, note: &Note) -> Result<(), Memory>
    ensures { OnOk result (text.new.items ≡ text.old.items ++ note_lines note.now) }
{
    match note {
        Note::Happened(event) => push_event_line(text, *event),
        Note::Reported(_) => Ok(()),
    }
}

/// Adds the lines of notes.
fn push_note_lines(text: &mut Vec<u8>, notes: &[Note]) -> Result<(), Memory>
    ensures { OnOk result (text.new.items ≡ text.old.items ++ flat_map note_lines notes.now) }
{
    for note in notes {
        push_note_line(text, note)?;
    }
    Ok(())
}

/// Whether a window closed.
fn closes(note: &Note) -> bool
    ensures { result ≡ note_closes note.now }
{
    match note {
        Note::Happened(Event::CloseWindow) => true,
        _ => false,
    }
}

/// Adds the lines of what happened. Where a window closed, gives all lines up to its close, and keeps those after it.
pub fn follow(alloc: Global, lines: &mut Vec<u8>, notes: &[Note]) -> Result<Vec<u8>, Memory>
    ensures { IfOk result (λ front. (since : List Happening) → lines.old.items ≡ lines_of since →
        let both = parted since (events_in notes.now) in (front.items ≡ lines_of both.0) × (lines.new.items ≡ lines_of both.1)) }
{
    let mut rest = notes;
    'notes: loop {
        let Some((note, later)) = rest.split_first() else {
            return Ok(Vec::new(alloc));
        };
        push_note_line(lines, note)?;
        if closes(note) {
            let mut afterwards = Vec::new(alloc);
            push_note_lines(&mut afterwards, later)?;
            return Ok(mem::replace(lines, afterwards));
        }
        rest = later;
    }
}
