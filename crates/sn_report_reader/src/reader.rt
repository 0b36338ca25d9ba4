//! A reader of report frames, which holds no more of a file than one buffer.
ghost use Rattle.std.specs.Prelude.{◌≡◌, ◌<◌, ◌≤◌, ◌+◌, ◌^◌, ◌↔◌, None, Ok, true, length, drop, is_some, IfOk, IfSome, IsErrOf};
ghost use Rattle.std.specs.FinMap.{get};
ghost use Rattle.sn_io.specs.Counts.{OnlyRises, RoseAt};
ghost use Rattle.sn_io.specs.Inputs.{stated_file};
ghost use Rattle.sn_report_reader.specs.declared.room.Reached.TheVariants as Reached;
ghost use Rattle.sn_report_reader.specs.declared.room.TheConstants.{BUFFER_BYTES};
ghost use Rattle.sn_report_reader.specs.Reading.{ReaderState, Follows, IsStep, Moves, Reaches, ending_of, made, place_of};

use crate::room::{BUFFER_BYTES, Reached, move_front, read_piece};
use sn_base::memory::Memory;
use sn_base::row::Row;
use sn_io::inputs::{Inputs, ReadError};
use sn_report::decode::{Decoded, decode};
use sn_report::frame::Frame;
use std::alloc::Global;
use std::marker::Model;

/// The most bytes of reports that are read.
pub const MOST_BYTES: u64 = 1 << 30;

/// What stands next in reports.
#[derive(Clone, Copy, Debug, PartialEq, Eq)]
pub enum Next {
    /// A frame.
    Frame(Frame<Row>),
    /// No frame: this byte of the file is the first that shows it.
    Bad(u64),
    /// The first bytes of a frame that goes on, and the end of the file.
    Cut,
    /// The end of the file.
    End,
}

/// Reports that are read from front to back, frame by frame.
#[derive(Drop)]
pub struct Reader {
    bytes: Vec<u8>,
    start: usize,
    end: usize,
    offset: u64,
}

impl Model for Reader {
    ghost use Rattle.std.specs.Prelude.{◌≡◌, ◌≤◌, ◌+◌, ◌-◌, ◌^◌, length, take, drop};
    ghost use Rattle.sn_report_reader.specs.Reading.{ReaderState};
    ghost use Rattle.sn_report_reader.specs.declared.room.TheConstants.{BUFFER_BYTES};

    ghost Value = { ReaderState };

    ghost view = { λ a. record { offset = a.offset; held = take (a.end - a.start) (drop a.start a.bytes.items) } };

    ghost invariant = { λ a. (length a.bytes.items ≡ BUFFER_BYTES) × (a.start ≤ a.end) × (a.end ≤ BUFFER_BYTES) × (a.offset + (a.end - a.start) ≤ 2 ^ 30) };
}

/// How many bytes are read at once after those that are held, from this place of a file on.
fn room_after(held: usize, place: u64) -> usize
    requires held { held < BUFFER_BYTES }
    requires place { place < 2 ^ 30 }
    ensures some { 0 < result }
    ensures room { held + result ≤ BUFFER_BYTES }
    ensures most { place + result ≤ 2 ^ 30 }
{
    (MOST_BYTES - place).min((BUFFER_BYTES - held) as u64) as usize
}

/// Whether a file goes on past the bytes that are read.
fn goes_past<I: Inputs>(files: &mut I, name: &str) -> Result<bool, ReadError>
    ensures past { IfOk result (λ past. IfSome (stated_file (I.reported files.old) name.now) (λ file. (past ≡ true) ↔ (2 ^ 30 < length file))) }
    ensures reported { I.reported files.new ≡ I.reported files.old }
    ensures faults { OnlyRises name.now (I.faults files.old) (I.faults files.new) }
    ensures missing { IsErrOf result ReadError.Missing ↔ (get (I.faults files.old) name.now ≡ None) }
    ensures fault { IsErrOf result ReadError.ReadFault → RoseAt name.now (I.faults files.old) (I.faults files.new) }
    ensures not_large { ¬ IsErrOf result ReadError.TooLarge }
{
    let mut byte = [0; 1];
    let count = read_piece(&mut byte, 0, 1, files, name, MOST_BYTES)?;
    Ok(count > 0)
}

impl Reader {
    /// A reader at the beginning of a file.
    pub fn make(alloc: Global) -> Result<Reader, Memory>
        ensures { IfOk result (λ reader. reader ≡ made) }
    {
        Ok(Reader {
            bytes: vec![in alloc; 0; BUFFER_BYTES]?,
            start: 0,
            end: 0,
            offset: 0,
        })
    }

    /// The byte after the frames that were given.
    pub fn offset(&self) -> u64
        ensures { result ≡ self.now.offset }
    {
        self.offset
    }

    /// The bytes that are held.
    fn held(&self) -> &[u8]
        ensures { result.now ≡ self.now.held }
    {
        &self.bytes[self.start..self.end]
    }

    /// Which byte of the file this one is of those that are held.
    fn byte_at(&self, place: usize) -> u64
        requires { place < length self.now.held }
        ensures { result ≡ self.now.offset + place }
    {
        self.offset + place as u64
    }

    /// Goes on after a frame.
    fn pass(&mut self, count: usize)
        requires { count ≤ length self.old.held }
        ensures state { self.new ≡ record { offset = self.old.offset + count; held = drop count self.old.held } }
        ensures most { self.new.offset ≤ 2 ^ 30 }
    {
        self.start += count;
        self.offset += count as u64;
    }

    /// Reads bytes of the file after those that are held.
    fn read_on<I: Inputs>(&mut self, files: &mut I, name: &str) -> Result<Reached, ReadError>
        requires { length self.old.held < 136 }
        ensures reached { IfOk result (λ reached. IfSome (stated_file (I.reported files.old) name.now) (λ file. Follows file self.old →
            Reaches file self.old reached self.new)) }
        ensures offset { self.new.offset ≡ self.old.offset }
        ensures most { place_of self.new ≤ 2 ^ 30 }
        ensures more { result ≡ Ok Reached.Bytes → length self.old.held < length self.new.held }
        ensures same { (result ≡ Ok Reached.Bytes → ⊥) → self.new ≡ self.old }
        ensures missing { IsErrOf result ReadError.Missing ↔ (get (I.faults files.old) name.now ≡ None) }
        ensures fault { IsErrOf result ReadError.ReadFault → RoseAt name.now (I.faults files.old) (I.faults files.new) }
        ensures not_large { ¬ IsErrOf result ReadError.TooLarge }
        ensures reported { I.reported files.new ≡ I.reported files.old }
        ensures faults { OnlyRises name.now (I.faults files.old) (I.faults files.new) }
    {
        move_front(&mut self.bytes, self.start, self.end);
        self.end -= self.start;
        self.start = 0;
        let place = self.offset + self.end as u64;
        if place == MOST_BYTES {
            if goes_past(files, name)? {
                return Ok(Reached::Past);
            }
            return Ok(Reached::End);
        }
        let room = room_after(self.end, place);
        let count = read_piece(&mut self.bytes, self.end, room, files, name, place)?;
        if count == 0 {
            return Ok(Reached::End);
        }
        self.end += count;
        Ok(Reached::Bytes)
    }

    /// How a file ends after the bytes that are held, in which no frame is whole.
    fn ending(&self) -> Next
        ensures { result ≡ ending_of self.now }
    {
        if self.held().is_empty() {
            Next::End
        } else {
            Next::Cut
        }
    }

    /// The next frame of the reports, or why there is none. Only the first 2^30 bytes of the file are read: where it has more,
    /// `TooLarge` comes in place of `Cut` and `End`. A byte that no frame has there is `Bad`, even if the file can't be read on after
    /// it. The file is read from front to back, each byte once, so it may be a pipe. `Missing` comes exactly where the name isn't
    /// known, and `ReadFault` only where its count rose. No memory is asked for.
    pub fn next<I: Inputs>(&mut self, files: &mut I, name: &str) -> Result<Next, ReadError>
        requires follows { IfSome (stated_file (I.reported files.old) name.now) (λ file. Follows file self.old) }
        requires known { 0 < length self.old.held → is_some (get (I.faults files.old) name.now) ≡ true }

        // Where contents are known: the exact answer, and that the reader goes on following the file.
        ensures step { IfSome (stated_file (I.reported files.old) name.now) (λ file. IsStep file self.old result self.new) }
        ensures follows { IfSome (stated_file (I.reported files.new) name.now) (λ file. Follows file self.new) }

        // Over any files.
        ensures moves { Moves self.old result self.new }
        ensures known { 0 < length self.new.held → is_some (get (I.faults files.new) name.now) ≡ true }
        ensures missing { IsErrOf result ReadError.Missing ↔ (get (I.faults files.old) name.now ≡ None) }
        ensures fault { IsErrOf result ReadError.ReadFault → RoseAt name.now (I.faults files.old) (I.faults files.new) }
        ensures reported { I.reported files.new ≡ I.reported files.old }
        ensures faults { OnlyRises name.now (I.faults files.old) (I.faults files.new) }
    {
        'reading: loop {
            match decode(self.held()) {
                Decoded::Whole(frame, len) => {
                    self.pass(len);
                    return Ok(Next::Frame(frame));
                }
                Decoded::Bad(place) => return Ok(Next::Bad(self.byte_at(place))),
                Decoded::More => {}
            }
            match self.read_on(files, name)? {
                Reached::Bytes => {}
                Reached::End => return Ok(self.ending()),
                Reached::Past => return Err(ReadError::TooLarge),
            }
        }
    }
}
