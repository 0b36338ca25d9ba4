//! Files in memory that tell whether one of them is read from front to back, as a pipe must be.
ghost use Rattle.std.specs.Prelude.{◌≡◌, ◌≤◌, ◌⊎◌, Some, length, IfOk, OnErr, IfSome};
ghost use Rattle.std.specs.FinMap.{get};
ghost use Rattle.sn_io.specs.Inputs.{Reads};
ghost use Rattle.sn_io.specs.MemInputs.{held_by, faults_of, reported_known, read_answer, after_read};

use sn_io::inputs::{InputFault, Inputs};
use sn_io::mem_inputs::MemInputs;

/// Files in memory, of which the one named `c` should be read from front to back.
#[derive(Drop)]
pub struct Forward {
    pub files: MemInputs,
    /// The place of the next read, if no byte is read twice and none is left out.
    pub next: u64,
    /// Whether a read began at another place.
    pub strayed: bool,
}

impl Forward {
    /// Files that weren't read yet.
    pub fn new(files: MemInputs) -> Forward {
        Forward {
            files,
            next: 0,
            strayed: false,
        }
    }
}

impl Inputs for Forward {
    ghost reported = { λ s. Some (held_by s.files.files) };

    ghost faults = { λ s. faults_of s.files.files };

    ghost same_names = { λ s files name e. reported_known s.files files name e };

    fn read_at(&mut self, name: &str, at: u64, into: &mut [u8]) -> Result<usize, InputFault> {
        let count = self.files.read_at(name, at, into)?;
        if name == "c" {
            self.strayed = self.strayed || at != self.next;
            self.next = at.saturating_add(count as u64);
        }
        Ok(count)
    }
}
