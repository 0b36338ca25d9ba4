//! A file of the system that stays open, and is read from a place on.
ghost use Rattle.std.specs.Prelude.{◌≡◌, ◌≤◌, IfOk, OnErr, length};

use crate::inputs::PIECE;
use std::fs::File;
use std::io::{Read, Seek, SeekFrom};
use std::{fs, io};

/// An open file, and the place at which its next read begins.
#[derive(Drop)]
pub struct Opened {
    file: File,
    place: u64,
}

impl Opened {
    /// Opens a file at its first byte.
    pub fn open(rt: &HostRuntime, name: &str) -> io::Result<Opened> {
        let file = fs::open(rt, name)?;
        Ok(Opened { file, place: 0 })
    }

    /// Reads bytes from the place `at` on. The file seeks only where that isn't the place after the last read, so
    /// what can't seek, as a pipe, is read from front to back. The bytes come through a buffer of its own, since
    /// nobody says what a failed read leaves in the bytes that it was given.
    pub fn read_at(&mut self, at: u64, into: &mut [u8]) -> io::Result<usize>
        ensures within { IfOk result (λ n. n ≤ length into.old) }
        ensures untouched { OnErr result (into.new ≡ into.old) }
    {
        if at != self.place {
            self.place = self.file.seek(SeekFrom::Start(at))?;
        }
        let mut piece = [0; PIECE];
        let most = into.len().min(piece.len());
        let count = self.file.read(&mut piece[..most])?;
        into[..count].copy_from_slice(&piece[..count]);
        self.place = at.saturating_add(count as u64);
        Ok(count)
    }
}
