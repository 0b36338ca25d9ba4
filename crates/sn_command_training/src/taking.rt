//! A training capture that is taken piece by piece.
ghost use Rattle.std.specs.Prelude.{◌≡◌, ◌≤◌, ◌+◌, ℕ, List, [], ◌++◌, IfNone, IfOk, IfSome, OnOk, length, take, drop};
ghost use Rattle.sn_command.specs.Runs.{Answers};
ghost use Rattle.sn_command_training.specs.Collecting.{HasCollected, IsCollected};
ghost use Rattle.sn_command_training.specs.Taking.{IsOfTraining, IsTaken, MayGoOn, TakesRecords, end_at};
ghost use Rattle.sn_command_training.specs.Training.{TrainingIn};
ghost use Rattle.sn_command_training.specs.declared.taking.Found.TheVariants as Found;
ghost use Rattle.sn_pcap.specs.declared.packet.Ending.TheVariants as Ending;
ghost use Rattle.sn_windows.specs.Blocks.{most_records};

use crate::collected::Collected;
use sn_base::bytes::push_bytes;
use sn_base::memory::Memory;
use sn_command::fault::Fault;
use sn_command::refusal::Refusal;
use sn_cost_training::training::Training;
use sn_pcap::header::{HEADER_BYTES, HeadFault, Header, head};
use sn_pcap::packet::{Ending, packets};
use sn_windows::windows::TooMany;
use std::alloc::Global;

/// What was found of a capture so far.
#[derive(Clone, Copy, Debug, PartialEq, Eq)]
pub(crate) enum Found {
    /// Its header isn't whole yet.
    Nothing,
    /// Its header. Records follow.
    Header(Header),
    /// The end of its whole records.
    End,
    /// That its header is refused.
    HeadFault(HeadFault),
    /// More records than may be. No tuple is held any more.
    TooMany,
}

/// A capture whose tuples are collected while it is read. No more of it is held than its header and a record that isn't whole yet.
#[derive(Drop)]
pub(crate) struct Taking {
    alloc: Global,
    found: Found,
    /// A capture of its own: the header, and the bytes after the records that were taken.
    held: Vec<u8>,
    collected: Collected,
}

impl Taking {
    /// Nothing of a capture, whose windows have this many nanoseconds.
    pub(crate) fn new(alloc: Global, window_ns: u64) -> Taking
        requires { 1 ≤ window_ns }
        ensures goes_on { MayGoOn result }
        ensures taken { (file : List ℕ) → IsTaken window_ns file 0 result }
    {
        Taking {
            alloc,
            found: Found::Nothing,
            held: Vec::new(alloc),
            collected: Collected::new(alloc, window_ns),
        }
    }

    /// Takes the next piece.
    pub(crate) fn take(&mut self, piece: &[u8]) -> Result<(), Memory>
        requires { MayGoOn self.old }
        ensures goes_on { OnOk result (MayGoOn self.new) }
        ensures taken { OnOk result ((window : ℕ) (file : List ℕ) (place : ℕ) → IsTaken window file place self.old →
            piece.now ≡ take (length piece.now) (drop place file) → IsTaken window file (place + length piece.now) self.new) }
    {
        match self.found {
            Found::Nothing => {
                push_bytes(&mut self.held, piece)?;
                self.take_header()
            }
            Found::Header(header) => {
                push_bytes(&mut self.held, piece)?;
                self.take_records(&header)
            }
            Found::End | Found::HeadFault(_) | Found::TooMany => Ok(()),
        }
    }

    /// Takes the header, once it is held, and the whole records after it.
    fn take_header(&mut self) -> Result<(), Memory>
        requires begun { self.old.found ≡ Found.Nothing }
        requires collected { HasCollected self.old.collected }
        ensures goes_on { OnOk result (MayGoOn self.new) }
        ensures taken { OnOk result ((window : ℕ) (file : List ℕ) (place : ℕ) → place ≤ length file → self.old.held.items ≡ take place file →
            IsCollected window [] self.old.collected → IsTaken window file place self.new) }
    {
        if self.held.len() < HEADER_BYTES {
            return Ok(());
        }
        match head(&self.held) {
            Ok(header) => {
                self.found = Found::Header(header);
                self.take_records(&header)
            }
            Err(fault) => {
                self.found = Found::HeadFault(fault);
                Ok(())
            }
        }
    }

    /// Takes the whole records that are held after the header, and holds the bytes after them.
    fn take_records(&mut self, header: &Header) -> Result<(), Memory>
        requires found { self.old.found ≡ Found.Header header.now }
        requires holds { 24 ≤ length self.old.held.items }
        requires collected { HasCollected self.old.collected }
        ensures goes_on { OnOk result (MayGoOn self.new) }
        ensures taken { OnOk result ((window : ℕ) (file : List ℕ) (place : ℕ) → TakesRecords window file place header.now self.old.held.items self.old.collected →
            IsTaken window file place self.new) }
    {
        let (found, ending) = packets(self.alloc, header, &self.held)?;
        let taken = self
            .collected
            .take_all(header.link, &self.held, found.as_slice())?;
        if let Err(TooMany) = taken {
            self.collected.clear();
            self.found = Found::TooMany;
            return Ok(());
        }
        let Some(end) = end_of(ending, self.held.len()) else {
            self.found = Found::End;
            return Ok(());
        };
        hold_from(&mut self.held, end);
        Ok(())
    }

    /// What a capture is trained on that was taken to its end.
    pub(crate) fn finish(self) -> Result<Training, Refusal>
        requires { MayGoOn self }
        ensures kind { IsOfTraining result }
        ensures judged { (window : ℕ) (file : List ℕ) → IsTaken window file (length file) self → Answers (TrainingIn window file) result }
        ensures few { IfOk result (λ training. length training.numbers ≤ most_records) }
    {
        match self.found {
            Found::Nothing => Err(Refusal::Refused(Fault::Head(HeadFault::Short))),
            Found::Header(_) | Found::End => Ok(self.collected.finish()?),
            Found::HeadFault(fault) => Err(Refusal::Refused(Fault::Head(fault))),
            Found::TooMany => Err(Refusal::Refused(Fault::TooLarge)),
        }
    }
}

/// Where the bytes begin that aren't of whole records, of this many that are held. `None` where no record follows.
fn end_of(ending: Ending, held: usize) -> Option<usize>
    ensures some { IfSome result (λ end. (bytes : List ℕ) → length bytes ≡ held → end ≡ end_at bytes ending) }
    ensures none { IfNone result ((n : ℕ) × (ending ≡ Ending.Bad n)) }
{
    match ending {
        Ending::Clean => Some(held),
        Ending::Cut(at) => Some(at as usize),
        Ending::Bad(_) => None,
    }
}

/// Holds the header and the bytes from this place on.
fn hold_from(held: &mut Vec<u8>, place: usize)
    requires header { HEADER_BYTES ≤ place }
    requires within { place ≤ length held.old.items }
    ensures { held.new.items ≡ take HEADER_BYTES held.old.items ++ drop place held.old.items }
{
    let rest = held.len() - place;
    held.copy_within(place.., HEADER_BYTES);
    held.truncate(HEADER_BYTES + rest);
}
