//! Files that were made.
ghost use Rattle.std.specs.Prelude.{◌≡◌, [], OnOk};
ghost use Rattle.sn_io.specs.MemInputs.{files_put};

use sn_base::memory::Memory;
use sn_base::seq::Seq;
use sn_io::inputs::{InputFault, Inputs};
use sn_io::mem_inputs::MemInputs;
use std::alloc::Global;
use std::marker::Model;

/// Files in memory, of which no read fails.
#[derive(Drop)]
pub struct MadeFiles {
    files: MemInputs,
}

impl Model for MadeFiles {
    ghost use Rattle.std.specs.Prelude.{◌≡◌, List, []};
    ghost use Rattle.sn_io.specs.MemInputs.{FileState};

    ghost Value = { List FileState };

    ghost view = { λ a. a.files.files };

    ghost invariant = { λ a. a.files.refused ≡ [] };
}

impl MadeFiles {
    /// No file.
    pub fn new(alloc: Global) -> MadeFiles
        ensures { result ≡ [] }
    {
        MadeFiles {
            files: MemInputs::new(alloc),
        }
    }

    /// Adds a file. A name that is known gets the new bytes.
    pub fn put(&mut self, name: &str, bytes: Seq<u8>) -> Result<(), Memory>
        ensures { OnOk result (self.new ≡ files_put name.now bytes self.old) }
    {
        self.files.put(name, bytes)
    }
}

impl Inputs for MadeFiles {
    ghost use Rattle.std.specs.Prelude.{Some};
    ghost use Rattle.sn_io.specs.MemInputs.{held_by};
    ghost use Rattle.sn_command_job.specs.Made.{made_known, no_faults};

    ghost reported = { λ s. Some (held_by s) };

    ghost faults = { λ s. no_faults s };

    ghost same_names = { made_known };

    fn read_at(&mut self, name: &str, at: u64, into: &mut [u8]) -> Result<usize, InputFault> {
        self.files.read_at(name, at, into)
    }
}
