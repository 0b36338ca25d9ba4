//! Files in memory that give no more than so many bytes at a call.
ghost use Rattle.std.specs.Prelude.{◌≡◌, ◌≤◌, ◌⊎◌, Some, length, min, IfOk, OnErr, IfSome};
ghost use Rattle.std.specs.FinMap.{get};
ghost use Rattle.sn_io.specs.Inputs.{Reads};
ghost use Rattle.sn_io.specs.MemInputs.{held_by, faults_of, reported_known, read_answer, after_read};

use sn_io::inputs::{InputFault, Inputs};
use sn_io::mem_inputs::MemInputs;

/// Files in memory, and how many bytes they give at most at a call.
#[derive(Drop)]
pub struct Slow {
    pub files: MemInputs,
    pub most: usize,
    ghost some: { 1 ≤ most },
}

impl Inputs for Slow {
    ghost reported = { λ s. Some (held_by s.files.files) };

    ghost faults = { λ s. faults_of s.files.files };

    ghost same_names = { λ s files name e. reported_known s.files files name e };

    fn read_at(&mut self, name: &str, at: u64, into: &mut [u8]) -> Result<usize, InputFault> {
        let most = self.most.min(into.len());
        self.files.read_at(name, at, &mut into[..most])
    }
}
