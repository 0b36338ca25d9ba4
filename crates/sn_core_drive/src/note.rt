//! What a driver notes.
use sn_core::event::Event;
use sn_types::answers::Answers;

/// What happens in a machine that is driven.
#[derive(Drop)]
pub enum Note {
    /// This event happened.
    Happened(Event),
    /// These answers were reported.
    Reported(Answers),
}
