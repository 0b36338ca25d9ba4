//! The trusted edge: files of the system and the standard streams.
ghost use Rattle.std.specs.Prelude.{◌≡◌, ◌≤◌, ℕ, List, None, IfOk, OnErr, is_some, length, map, nat_eq};
ghost use Rattle.std.specs.List.{list_any};
ghost use Rattle.std.specs.Cmp.Lexicographic.{pointwise};
ghost use Rattle.std.specs.FinMap.{get};
ghost use Rattle.std.specs.String.{string_bytes};
ghost use Rattle.sn_io.specs.Known.{counts_of, none_reported};

use crate::inputs::{InputFault, Inputs};
use crate::known::{Entry, one_more, place_of, raise, read_place};
use crate::sink::{Failed, Sink};
use sn_base::memory::Memory;
use sn_base::seed::Seed;
use std::alloc::Global;
use std::io::{Stderr, Stdout, Write};
use std::marker::Model;
use std::random::RandomSource;
use std::{fs, io};

#[derive(Drop)]
enum Stream {
    Out(Stdout),
    Err(Stderr),
}

impl Stream {
    fn write(&mut self, piece: &[u8]) -> io::Result<usize>
        ensures { IfOk result (λ n. n ≤ length piece.now) }
    {
        match self {
            Stream::Out(to) => to.write(piece),
            Stream::Err(to) => to.write(piece),
        }
    }
}

/// A standard stream. Contracts see the count of its faults.
#[derive(Drop)]
pub struct RealSink {
    stream: Stream,
    fault_count: u64,
}

impl Model for RealSink {
    ghost use Rattle.std.specs.Prelude.{ℕ};

    ghost Value = { ℕ };

    ghost view = { λ a. a.fault_count };
}

impl RealSink {
    /// Standard output.
    pub fn out(rt: &HostRuntime) -> RealSink
        ensures { result ≡ 0 }
    {
        RealSink {
            stream: Stream::Out(rt.stdout()),
            fault_count: 0,
        }
    }

    /// Standard error.
    pub fn err(rt: &HostRuntime) -> RealSink
        ensures { result ≡ 0 }
    {
        RealSink {
            stream: Stream::Err(rt.stderr()),
            fault_count: 0,
        }
    }
}

/// A write that takes nothing of a piece that has bytes is a fault.
impl Sink for RealSink {
    ghost written = { λ _. None };

    ghost faults = { λ count. count };

    ghost empty_takes = { λ _. 0 };

    fn write(&mut self, piece: &[u8]) -> Result<usize, Failed> {
        match self.stream.write(piece) {
            Ok(count) if count > 0 || piece.is_empty() => Ok(count),
            _ => {
                self.fault_count = one_more(self.fault_count);
                Err(Failed)
            }
        }
    }
}

/// Files of the system, whose names are the words of a command line. Each is opened at its first read, and stays open.
#[derive(Drop)]
pub struct RealInputs {
    rt: HostRuntime,
    known: Vec<Entry>,
}

impl Model for RealInputs {
    ghost use Rattle.sn_io.specs.Known.{Known};
    ghost use Rattle.sn_io.specs.Entries.{entries};

    ghost Value = { Known };

    ghost view = { λ a. entries a.known.items };
}

impl RealInputs {
    /// Knows exactly these words as names, none of them with a fault so far.
    pub fn new(rt: &HostRuntime, alloc: Global, words: &[String]) -> Result<RealInputs, Memory>
        ensures known { IfOk result (λ files. (name : List ℕ) →
            is_some (get (counts_of files) name) ≡ list_any (λ w. pointwise nat_eq (string_bytes w) name) words.now) }
        ensures counts { IfOk result (λ files. files ≡ map (λ w. (string_bytes w, 0)) words.now) }
    {
        let mut known = Vec::new(alloc);
        for word in words {
            let Ok(name) = word.clone() else {
                return Err(Memory);
            };
            if let Err(_) = known.push(Entry {
                name,
                count: 0,
                file: None,
            }) {
                return Err(Memory);
            }
        }
        Ok(RealInputs { rt: *rt, known })
    }
}

impl Inputs for RealInputs {
    ghost reported = { λ _. None };

    ghost faults = { counts_of };

    ghost same_names = { λ s files name e. none_reported e };

    fn read_at(&mut self, name: &str, at: u64, into: &mut [u8]) -> Result<usize, InputFault> {
        let Some(place) = place_of(&self.known, name) else {
            return Err(InputFault::Missing);
        };
        match read_place(&self.rt, &mut self.known, place, at, into) {
            Ok(count) => Ok(count),
            Err(_) => {
                raise(&mut self.known, name);
                Err(InputFault::Failed)
            }
        }
    }

    /// Drawn by the system. Where it can't, 0 serves as well for all but crafted captures.
    fn seed(&self) -> Seed {
        let mut bytes = [0; 8];
        match self.rt.fill_bytes(&mut bytes) {
            Ok(()) => Seed::new(u64::from_le_bytes(bytes)),
            Err(_) => Seed::new(0),
        }
    }

    /// What the system says of its size. A name that isn't known isn't asked for.
    fn expected_bytes(&self, name: &str) -> u64 {
        if place_of(&self.known, name).is_none() {
            return 0;
        }
        match fs::metadata(&self.rt, name) {
            Ok(metadata) => metadata.len(),
            Err(_) => 0,
        }
    }
}
