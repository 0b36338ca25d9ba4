//! A sink in memory, for tests.
ghost use Rattle.std.specs.Prelude.{◌≡◌, ℕ, ◌<◌, ◌≤◌, ◌-◌, ◌^◌, ◌++◌, ◌∷◌, [], Some, IfOk, OnOk, OnErr};
ghost use Rattle.sn_io.specs.MemSink.{MemSinkState, write_answer, after_write};

use crate::known::one_more;
use crate::sink::{Failed, Sink};
use sn_base::memory::Memory;
use std::alloc::Global;
use std::marker::Model;

/// A sink in memory that takes a given number of bytes in all. Its writes are numbered from 0.
#[derive(Drop)]
pub struct MemSink {
    held: Vec<u8>,
    room: usize,
    refusals: Vec<u64>,
    write_count: u64,
    fault_count: u64,
}

impl Model for MemSink {
    ghost use Rattle.std.specs.Prelude.{◌≤◌, vec_len, vec_capacity};
    ghost use Rattle.sn_io.specs.MemSink.{MemSinkState};

    ghost Value = { MemSinkState };

    ghost view = { λ a. record { bytes = a.held.items; room = a.room; refused = a.refusals.items; writes = a.write_count; faults = a.fault_count } };

    ghost invariant = { λ a. (vec_len a.held ≤ a.room) × (a.room ≤ vec_capacity a.held) };
}

impl MemSink {
    /// A sink with room for this many bytes. Their memory is taken here, and a write takes none.
    pub fn new(alloc: Global, room: u64) -> Result<MemSink, Memory>
        ensures { IfOk result (λ sink. sink ≡ record { bytes = []; room = room; refused = []; writes = 0; faults = 0 }) }
    {
        let room = room as usize;
        let held = Vec::with_capacity(alloc, room)?;
        Ok(MemSink {
            held,
            room,
            refusals: Vec::new(alloc),
            write_count: 0,
            fault_count: 0,
        })
    }

    /// Makes the write of this number fail. The numbering ends at 2^64 - 1, the number of all later writes.
    pub fn fail_at(&mut self, call: u64) -> Result<(), Memory>
        requires { call < 2 ^ 64 - 1 }
        ensures ok { OnOk result (self.new ≡ record self.old { refused = self.old.refused ++ call ∷ [] }) }
        ensures err { OnErr result (self.new ≡ self.old) }
    {
        self.refusals.push(call)?;
        Ok(())
    }

    /// The bytes that went out.
    pub fn bytes(&self) -> &[u8]
        ensures { result.now ≡ self.now.bytes }
    {
        self.held.as_slice()
    }
}

impl Sink for MemSink {
    ghost written = { λ s. Some s.bytes };

    ghost faults = { λ s. s.faults };

    ghost empty_takes = { λ _. 0 };

    /// Takes as much of the piece as the room holds. It fails exactly where it is to, or where bytes come and the
    /// room is used up.
    fn write(&mut self, piece: &[u8]) -> Result<usize, Failed>
        ensures answer { result ≡ write_answer self.old piece.now }
        ensures after { self.new ≡ after_write self.old piece.now }
    {
        let call = self.write_count;
        self.write_count = one_more(call);
        let free = self.room - self.held.len();
        let refused = self.refusals.as_slice().contains(&call);
        if refused || (!piece.is_empty() && free == 0) {
            self.fault_count = one_more(self.fault_count);
            return Err(Failed);
        }
        let count = piece.len().min(free);
        match self.held.extend_from_slice(&piece[..count]) {
            Ok(()) => Ok(count),
            Err(_) => unreachable!(),
        }
    }
}
