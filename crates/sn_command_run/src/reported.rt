//! What a machine reported while it was driven.
ghost use Rattle.std.specs.Prelude.{◌≡◌, None};
ghost use Rattle.sn_core_drive.specs.Schedules.{answers_in};
ghost use Rattle.sn_engine_lockstep.specs.Known.{last_from};

use sn_base::seq::Seq;
use sn_core_drive::note::Note;
use sn_types::answers::Answers;

/// The last answers among notes.
pub fn last_reported(notes: Seq<Note>) -> Option<Answers>
    ensures { result ≡ last_from None (answers_in notes) }
{
    let mut notes = notes;
    'notes: loop {
        match notes.pop() {
            Some(Note::Reported(answers)) => return Some(answers),
            Some(Note::Happened(_)) => (),
            None => return None,
        }
    }
}
