//! A reader of captures, which holds no more of a file than one buffer.
ghost use Rattle.std.specs.Prelude.{◌≡◌, ◌≢◌, ◌<◌, ◌≤◌, ◌+◌, ◌-◌, ◌^◌, ◌⊎◌, ◌↔◌, ℕ, List, None, Some, true, min, max, length, take, drop, is_some, IfOk, IfErr};
ghost use Rattle.std.specs.Prelude.{OnOk, OnErr, IfSome, IsErrOf};
ghost use Rattle.std.specs.FinMap.{get};
ghost use Rattle.sn_io.specs.Counts.{OnlyRises, RoseAt};
ghost use Rattle.sn_io.specs.Inputs.{stated_file};
ghost use Rattle.sn_pcap.specs.declared.header.Header.{Header};
ghost use Rattle.sn_pcap.specs.declared.packet.Packet.{Packet};
ghost use Rattle.sn_pcap.specs.declared.packet.Ending.{Ending};
ghost use Rattle.sn_pcap.specs.declared.seen.Seen.{Seen};
ghost use Rattle.sn_pcap.specs.declared.seen.Next.TheVariants as Next;
ghost use Rattle.sn_pcap.specs.declared.seen.Last.{Last};
ghost use Rattle.sn_pcap.specs.Capture.{Records, captured, packet_at};
ghost use Rattle.sn_pcap.specs.Reading.{ReaderState, within, last_of, made, HoldsAt, Follows, HasRead, answer_of, error_of, IsSeen, IsStep, Left, HasLeft};
ghost use Rattle.sn_pcap.specs.Reading.{Takes, MovesOn, Run, AllSeen};
ghost use Rattle.sn_pcap.specs.Stands.{IsShort, IsNextPacket, IsNextEnd, IsLawful};

use crate::buffer::{BUFFER_BYTES, Buffer};
use crate::header::{HEADER_BYTES, Header};
use crate::numbers::u32_at;
use crate::packet::{Ending, MOST_CAPTURED, RECORD_BYTES, time_at};
use crate::seen::{FRONT_BYTES, Last, Next, Seen};
use sn_base::memory::Memory;
use sn_io::inputs::{InputFault, Inputs, ReadError};
use std::alloc::Global;
use std::marker::Model;

/// The most bytes of a capture that are read.
pub const MOST_BYTES: u64 = 1 << 40;

/// How many bytes are read at once of a packet that is longer than the buffer.
const PASSED_BYTES: usize = 4096;

/// A capture that is read from front to back, record by record.
#[derive(Drop)]
pub struct Reader {
    header: Header,
    offset: u64,
    buffer: Buffer,
    last: Option<Last>,
}

impl Model for Reader {
    ghost use Rattle.std.specs.Prelude.{◌≤◌, ◌^◌};
    ghost use Rattle.sn_pcap.specs.Reading.{ReaderState};

    ghost Value = { ReaderState };

    ghost view = { λ a. record { header = a.header; offset = a.offset; held = a.buffer; last = a.last } };

    ghost invariant = { λ a. a.offset ≤ 2 ^ 40 };
}

/// Reads until this many bytes from the offset on are held, or the file ends.
fn fill<I: Inputs>(
    buffer: &mut Buffer,
    files: &mut I,
    name: &str,
    offset: u64,
    want: usize,
) -> Result<(), InputFault>
    requires room { want ≤ BUFFER_BYTES }
    requires most { offset ≤ 2 ^ 40 }
    ensures kept { take (length buffer.old) buffer.new ≡ buffer.old }
    ensures holds { IfSome (stated_file (I.reported files.old) name.now) (λ file. HoldsAt file offset buffer.old → HoldsAt file offset buffer.new) }
    ensures reached { OnOk result (IfSome (stated_file (I.reported files.old) name.now) (λ file. min want (length file - offset) ≤ length buffer.new)) }
    ensures unknown { length buffer.old < want → get (I.faults files.old) name.now ≡ None → IsErrOf result InputFault.Missing }
    ensures reported { I.reported files.new ≡ I.reported files.old }
    ensures faults { OnlyRises name.now (I.faults files.old) (I.faults files.new) }
    ensures missing { IsErrOf result InputFault.Missing → get (I.faults files.old) name.now ≡ None }
    ensures unread { get (I.faults files.old) name.now ≡ None → files.new ≡ files.old }
    ensures failed { IsErrOf result InputFault.Failed → RoseAt name.now (I.faults files.old) (I.faults files.new) }
{
    'filling: loop {
        let held = buffer.len();
        if held >= want {
            return Ok(());
        }
        match buffer.read(files, name, offset + held as u64) {
            Ok(0) => return Ok(()),
            Ok(_) => {}
            Err(fault) => return Err(fault),
        }
    }
}

/// Reads a piece of a file between two places, and says how long it is. Nothing of it is held.
fn pass_piece<I: Inputs>(files: &mut I, name: &str, from: u64, to: u64) -> Result<usize, InputFault>
    requires { from < to }
    ensures most { IfOk result (λ n. n ≤ to - from) }
    ensures stand { IfOk result (λ n. IfSome (stated_file (I.reported files.old) name.now) (λ file. n ≤ length file - from)) }
    ensures none { IfOk result (λ n. IfSome (stated_file (I.reported files.old) name.now) (λ file. (n ≡ 0) ↔ (length file ≤ from))) }
    ensures reported { I.reported files.new ≡ I.reported files.old }
    ensures faults { OnlyRises name.now (I.faults files.old) (I.faults files.new) }
    ensures missing { IsErrOf result InputFault.Missing ↔ (get (I.faults files.old) name.now ≡ None) }
    ensures unchanged { IsErrOf result InputFault.Missing → files.new ≡ files.old }
    ensures failed { IsErrOf result InputFault.Failed → RoseAt name.now (I.faults files.old) (I.faults files.new) }
{
    let mut passed = [0; PASSED_BYTES];
    let most = (to - from).min(PASSED_BYTES as u64) as usize;
    let (piece, _) = passed.split_at_mut(most);
    files.read_at(name, from, piece)
}

/// Reads on from one place to another, or to the end of the file, and says how far it came. Nothing of it is held.
fn pass_over<I: Inputs>(files: &mut I, name: &str, from: u64, to: u64) -> Result<u64, InputFault>
    requires { from ≤ to }
    ensures later { IfOk result (λ place. from ≤ place) }
    ensures most { IfOk result (λ place. place ≤ to) }
    ensures reached { IfOk result (λ place. IfSome (stated_file (I.reported files.old) name.now) (λ file. from ≤ length file → place ≡ min to (length file))) }
    ensures reported { I.reported files.new ≡ I.reported files.old }
    ensures faults { OnlyRises name.now (I.faults files.old) (I.faults files.new) }
    ensures missing { IsErrOf result InputFault.Missing → get (I.faults files.old) name.now ≡ None }
    ensures unread { get (I.faults files.old) name.now ≡ None → files.new ≡ files.old }
    ensures failed { IsErrOf result InputFault.Failed → RoseAt name.now (I.faults files.old) (I.faults files.new) }
{
    let mut place = from;
    'passing: while place < to {
        match pass_piece(files, name, place, to) {
            Ok(0) => return Ok(place),
            Ok(count) => place += count as u64,
            Err(fault) => return Err(fault),
        }
    }
    Ok(place)
}

/// How many bytes of the file stand from the offset on, up to as many as are asked for. They are held, as far as
/// there is room for them.
fn stands<I: Inputs>(
    buffer: &mut Buffer,
    files: &mut I,
    name: &str,
    offset: u64,
    want: u64,
) -> Result<u64, InputFault>
    requires asked { want ≤ 2 ^ 40 }
    requires most { offset ≤ 2 ^ 40 }
    ensures kept { take (length buffer.old) buffer.new ≡ buffer.old }
    ensures holds { IfSome (stated_file (I.reported files.old) name.now) (λ file. HoldsAt file offset buffer.old → HoldsAt file offset buffer.new) }
    ensures count { IfOk result (λ count. IfSome (stated_file (I.reported files.old) name.now) (λ file. HoldsAt file offset buffer.old →
        count ≡ min want (length file - offset))) }
    ensures held { IfOk result (λ count. min count BUFFER_BYTES ≤ length buffer.new) }
    ensures most { IfOk result (λ count. count ≤ want) }
    ensures unknown { length buffer.old < min want BUFFER_BYTES → get (I.faults files.old) name.now ≡ None → IsErrOf result InputFault.Missing }
    ensures reported { I.reported files.new ≡ I.reported files.old }
    ensures faults { OnlyRises name.now (I.faults files.old) (I.faults files.new) }
    ensures missing { IsErrOf result InputFault.Missing → get (I.faults files.old) name.now ≡ None }
    ensures unread { get (I.faults files.old) name.now ≡ None → files.new ≡ files.old }
    ensures failed { IsErrOf result InputFault.Failed → RoseAt name.now (I.faults files.old) (I.faults files.new) }
{
    fill(
        buffer,
        files,
        name,
        offset,
        want.min(BUFFER_BYTES as u64) as usize,
    )?;
    let held = buffer.len() as u64;
    if want <= held {
        return Ok(want);
    }
    if held < BUFFER_BYTES as u64 {
        return Ok(held);
    }
    let place = pass_over(files, name, offset + held, offset + want)?;
    Ok(place - offset)
}

/// How a capture ends of which fewer bytes stand from the offset on than are needed. `None` where they stand, within
/// the most that are read.
#[inline(always)]
fn short<I: Inputs>(
    buffer: &mut Buffer,
    files: &mut I,
    name: &str,
    offset: u64,
    need: u64,
) -> Result<Option<Last>, InputFault>
    requires some { 0 < need }
    requires asked { need ≤ 2 ^ 40 }
    requires most { offset ≤ 2 ^ 40 }
    ensures kept { take (length buffer.old) buffer.new ≡ buffer.old }
    ensures holds { IfSome (stated_file (I.reported files.old) name.now) (λ file. HoldsAt file offset buffer.old → HoldsAt file offset buffer.new) }
    ensures ends { IfOk result (λ short. IfSome short
        (λ last. IfSome (stated_file (I.reported files.old) name.now) (λ file. HoldsAt file offset buffer.old → IsShort file offset need last))) }
    ensures whole { IfOk result (λ short. short ≡ None →
        IfSome (stated_file (I.reported files.old) name.now) (λ file. HoldsAt file offset buffer.old → offset + need ≤ length (within file))) }
    ensures held { IfOk result (λ short. short ≡ None → min need BUFFER_BYTES ≤ length buffer.new) }
    ensures limit { IfOk result (λ short. short ≡ None → offset + need ≤ 2 ^ 40) }
    ensures unknown { length buffer.old ≡ 0 → get (I.faults files.old) name.now ≡ None → IsErrOf result InputFault.Missing }
    ensures reported { I.reported files.new ≡ I.reported files.old }
    ensures faults { OnlyRises name.now (I.faults files.old) (I.faults files.new) }
    ensures missing { IsErrOf result InputFault.Missing → get (I.faults files.old) name.now ≡ None }
    ensures unread { get (I.faults files.old) name.now ≡ None → files.new ≡ files.old }
    ensures failed { IsErrOf result InputFault.Failed → RoseAt name.now (I.faults files.old) (I.faults files.new) }
{
    if need <= buffer.len() as u64 && need <= MOST_BYTES - offset {
        return Ok(None);
    }
    short_when_read(buffer, files, name, offset, need)
}

/// The same, for bytes that may not all be held yet: they are read, as far as the file has them.
fn short_when_read<I: Inputs>(
    buffer: &mut Buffer,
    files: &mut I,
    name: &str,
    offset: u64,
    need: u64,
) -> Result<Option<Last>, InputFault>
    requires some { 0 < need }
    requires asked { need ≤ 2 ^ 40 }
    requires most { offset ≤ 2 ^ 40 }
    ensures kept { take (length buffer.old) buffer.new ≡ buffer.old }
    ensures holds { IfSome (stated_file (I.reported files.old) name.now) (λ file. HoldsAt file offset buffer.old → HoldsAt file offset buffer.new) }
    ensures ends { IfOk result (λ short. IfSome short
        (λ last. IfSome (stated_file (I.reported files.old) name.now) (λ file. HoldsAt file offset buffer.old → IsShort file offset need last))) }
    ensures whole { IfOk result (λ short. short ≡ None →
        IfSome (stated_file (I.reported files.old) name.now) (λ file. HoldsAt file offset buffer.old → offset + need ≤ length (within file))) }
    ensures held { IfOk result (λ short. short ≡ None → min need BUFFER_BYTES ≤ length buffer.new) }
    ensures limit { IfOk result (λ short. short ≡ None → offset + need ≤ 2 ^ 40) }
    ensures unknown { length buffer.old ≡ 0 → get (I.faults files.old) name.now ≡ None → IsErrOf result InputFault.Missing }
    ensures reported { I.reported files.new ≡ I.reported files.old }
    ensures faults { OnlyRises name.now (I.faults files.old) (I.faults files.new) }
    ensures missing { IsErrOf result InputFault.Missing → get (I.faults files.old) name.now ≡ None }
    ensures unread { get (I.faults files.old) name.now ≡ None → files.new ≡ files.old }
    ensures failed { IsErrOf result InputFault.Failed → RoseAt name.now (I.faults files.old) (I.faults files.new) }
{
    let want = need.min(MOST_BYTES + 1 - offset);
    let count = stands(buffer, files, name, offset, want)?;
    if offset + count > MOST_BYTES {
        return Ok(Some(Last::TooLarge));
    }
    if count >= need {
        return Ok(None);
    }
    if count == 0 {
        return Ok(Some(Last::Ended(Ending::Clean)));
    }
    Ok(Some(Last::Ended(Ending::Cut(offset))))
}

/// Writes the first bytes to the beginning of `front`. Where at least [`FRONT_BYTES`] stand there, all of `front` is
/// written: a copy of a length that the compiler knows is some moves, and one of another length is a call.
#[inline(always)]
fn keep_front(bytes: &[u8], len: usize, front: &mut [u8; 128])
    requires most { len ≤ 128 }
    requires stands { len ≤ length bytes.now }
    ensures { take len front.new ≡ take len bytes.now }
{
    if bytes.len() >= FRONT_BYTES {
        let (first, _) = bytes.split_at(FRONT_BYTES);
        front.copy_from_slice(first);
    } else {
        let (first, _) = bytes.split_at(len);
        front[..len].copy_from_slice(first);
    }
}

/// Writes the packet of the record at the front of some bytes, of which this many were captured, into `seen`.
#[inline(always)]
fn see(header: &Header, bytes: &[u8], cap: u32, seen: &mut Seen)
    requires cap { cap ≡ captured header.now bytes.now 0 }
    requires stands { 16 + min cap 128 ≤ length bytes.now }
    ensures packet { IsSeen bytes.now (packet_at header.now bytes.now 0) seen.new }
    ensures cap { seen.new.cap ≡ cap }
    ensures len { seen.new.len ≡ min cap 128 }
{
    let len = cap.min(FRONT_BYTES as u32);
    let (_, following) = bytes.split_at(RECORD_BYTES);
    keep_front(following, len as usize, &mut seen.front);
    seen.time = time_at(header, bytes, 0);
    seen.wire = u32_at(header.big, bytes, 12);
    seen.cap = cap;
    seen.len = len;
}

/// Writes the packet of the record at the offset into `seen`, and gives `None`. Where no record is whole there, it says
/// how the capture ends, and there and where a read fails `seen` stays as it was. Each byte of the record is read, in
/// order.
fn look<I: Inputs>(
    header: &Header,
    offset: u64,
    buffer: &mut Buffer,
    files: &mut I,
    name: &str,
    seen: &mut Seen,
) -> Result<Option<Last>, InputFault>
    requires { offset ≤ 2 ^ 40 }
    ensures kept { take (length buffer.old) buffer.new ≡ buffer.old }
    ensures holds { IfSome (stated_file (I.reported files.old) name.now) (λ file. HoldsAt file offset buffer.old → HoldsAt file offset buffer.new) }
    ensures packet { IfOk result (λ found. found ≡ None →
        IfSome (stated_file (I.reported files.old) name.now) (λ file. HoldsAt file offset buffer.old → IsNextPacket header.now file offset seen.new)) }
    ensures last { IfOk result (λ found. IfSome found
        (λ last. IfSome (stated_file (I.reported files.old) name.now) (λ file. HoldsAt file offset buffer.old → IsNextEnd header.now file offset last))) }
    ensures lawful { IfOk result (λ found. found ≡ None → IsLawful offset seen.new) }
    ensures unseen { result ≢ Ok None → seen.new ≡ seen.old }
    ensures unknown { length buffer.old ≡ 0 → get (I.faults files.old) name.now ≡ None → IsErrOf result InputFault.Missing }
    ensures reported { I.reported files.new ≡ I.reported files.old }
    ensures faults { OnlyRises name.now (I.faults files.old) (I.faults files.new) }
    ensures missing { IsErrOf result InputFault.Missing → get (I.faults files.old) name.now ≡ None }
    ensures unread { get (I.faults files.old) name.now ≡ None → files.new ≡ files.old }
    ensures failed { IsErrOf result InputFault.Failed → RoseAt name.now (I.faults files.old) (I.faults files.new) }
{
    if let Some(last) = short(buffer, files, name, offset, RECORD_BYTES as u64)? {
        return Ok(Some(last));
    }
    let cap = u32_at(header.big, buffer.as_slice(), 8);
    if cap > MOST_CAPTURED {
        return Ok(Some(Last::Ended(Ending::Bad(offset))));
    }
    if let Some(last) = short(
        buffer,
        files,
        name,
        offset,
        RECORD_BYTES as u64 + u64::from(cap),
    )? {
        return Ok(Some(last));
    }
    see(header, buffer.as_slice(), cap, seen);
    Ok(None)
}

/// The answer once no further record comes.
fn answer_of(last: Last) -> Result<Next, ReadError>
    ensures { result ≡ answer_of last }
{
    match last {
        Last::Ended(ending) => Ok(Next::End(ending)),
        Last::TooLarge => Err(ReadError::TooLarge),
    }
}

/// The fault of a read.
fn error_of(fault: InputFault) -> ReadError
    ensures { result ≡ error_of fault }
{
    match fault {
        InputFault::Failed => ReadError::ReadFault,
        InputFault::Missing => ReadError::Missing,
    }
}

impl Reader {
    /// A reader of a capture with this header, which stands after it.
    pub fn make(alloc: Global, head: Header) -> Result<Reader, Memory>
        ensures { IfOk result (λ reader. reader ≡ made head) }
    {
        Ok(Reader {
            header: head,
            offset: HEADER_BYTES as u64,
            buffer: Buffer::new(alloc)?,
            last: None,
        })
    }

    /// Writes the next packet of the capture into `seen`, or says how its records end. Only its first 2^40 bytes are
    /// read. Where it has more, `TooLarge` comes in place of an end, unless a record there states too many captured
    /// bytes. The file is read from front to back, each byte once, so it may be a pipe. Once an end or `TooLarge`
    /// came, each later call answers the same. `Missing` comes exactly where the name isn't known, `ReadFault` only
    /// where its count rose, and `Memory` never. Where no packet is given, `seen` stays as it was.
    pub fn next<I: Inputs>(
        &mut self,
        files: &mut I,
        name: &str,
        seen: &mut Seen,
    ) -> Result<Next, ReadError>
        requires follows { IfSome (stated_file (I.reported files.old) name.now) (λ file. Follows file self.old) }
        requires known { HasRead self.old → is_some (get (I.faults files.old) name.now) ≡ true }

        // Where contents are known: the exact answer, that it takes the first of the records that are left, and that
        // the reader goes on following the file.
        ensures step { IfSome (stated_file (I.reported files.old) name.now) (λ file. result ≢ Err ReadError.ReadFault →
            IsStep file self.old result seen.new self.new) }
        ensures takes { IfSome (stated_file (I.reported files.old) name.now) (λ file. (packets : List Packet) (last : Last) →
            Left file self.old packets last → result ≢ Err ReadError.ReadFault → Takes file packets last result seen.new self.new) }
        ensures follows { IfSome (stated_file (I.reported files.new) name.now) (λ file. Follows file self.new) }

        // Over any files.
        ensures packet { result ≡ Ok Next.Packet → MovesOn self.old seen.new self.new }
        ensures unseen { result ≢ Ok Next.Packet → seen.new ≡ seen.old }
        ensures ends { (last : Last) → result ≡ answer_of last → self.new.last ≡ Some last }
        ensures again { IfSome self.old.last (λ last. result ≡ answer_of last) }
        ensures kept { IfSome self.old.last (λ last. self.new ≡ self.old) }
        ensures unread { IfSome self.old.last (λ last. files.new ≡ files.old) }
        ensures known { HasRead self.new → is_some (get (I.faults files.new) name.now) ≡ true }
        ensures missing { IsErrOf result ReadError.Missing ↔ (get (I.faults files.old) name.now ≡ None) }
        ensures unchanged { IsErrOf result ReadError.Missing → files.new ≡ files.old }
        ensures fault { IsErrOf result ReadError.ReadFault → RoseAt name.now (I.faults files.old) (I.faults files.new) }
        ensures undone { IsErrOf result ReadError.Missing ⊎ IsErrOf result ReadError.ReadFault → self.new ≡ self.old }
        ensures no_memory { ¬ IsErrOf result ReadError.Memory }
        ensures reported { I.reported files.new ≡ I.reported files.old }
        ensures faults { OnlyRises name.now (I.faults files.old) (I.faults files.new) }
    {
        if let Some(last) = self.last {
            return answer_of(last);
        }
        let held = self.buffer.len();
        match look(
            &self.header,
            self.offset,
            &mut self.buffer,
            files,
            name,
            seen,
        ) {
            Ok(None) => {
                self.pass(RECORD_BYTES as u64 + u64::from(seen.cap));
                Ok(Next::Packet)
            }
            Ok(Some(last)) => {
                self.last = Some(last);
                answer_of(last)
            }
            Err(fault) => {
                self.buffer.keep(held);
                Err(error_of(fault))
            }
        }
    }

    /// Goes on after a record.
    #[inline(always)]
    fn pass(&mut self, count: u64)
        requires { self.old.offset + count ≤ 2 ^ 40 }
        ensures { self.new ≡ record self.old { offset = self.old.offset + count; held = drop count self.old.held } }
    {
        self.offset += count;
        self.buffer
            .pass(count.min(self.buffer.len() as u64) as usize);
    }
}

/// Laws, with nothing to run: a run of calls over a whole file gives its records, one after another, and how they
/// end; and of each reader exactly one list of records is left.
pub fn reader_gives_the_records()
    ensures whole { (header : Header) (file : List ℕ) (seens : List Seen) (last : Last) (packets : List Packet) (ending : Ending) →
        Run file (made header) seens last → Records header (within file) 24 packets ending →
        AllSeen (within file) packets seens × (last ≡ last_of file ending) }
    ensures some { (file : List ℕ) (reader : ReaderState) → HasLeft file reader }
    ensures once { (file : List ℕ) (reader : ReaderState) (ps qs : List Packet) (e f : Last) → Left file reader ps e → Left file reader qs f →
        (ps ≡ qs) × (e ≡ f) }
{}
