//! The bytes of a file that are held while it is read from front to back.
ghost use Rattle.std.specs.Prelude.{◌≡◌, ◌<◌, ◌≤◌, ◌+◌, ◌-◌, ◌++◌, ◌↔◌, [], None, length, take, drop, IfOk, OnErr, IfSome, IsErrOf};
ghost use Rattle.std.specs.FinMap.{get};
ghost use Rattle.sn_io.specs.Counts.{OnlyRises, RoseAt};
ghost use Rattle.sn_io.specs.Inputs.{stated_file};

use sn_base::memory::Memory;
use sn_io::inputs::{InputFault, Inputs};
use std::alloc::Global;
use std::marker::Model;

/// How many bytes a buffer has room for.
pub const BUFFER_BYTES: usize = 65536;

/// A row of bytes, of which the front is taken off and more are read at the end.
#[derive(Drop)]
pub struct Buffer {
    bytes: Vec<u8>,
    start: usize,
    end: usize,
}

impl Model for Buffer {
    ghost use Rattle.std.specs.Prelude.{◌≡◌, ◌≤◌, ◌-◌, ℕ, List, length, take, drop};
    ghost use Rattle.sn_pcap.specs.declared.buffer.TheConstants.{BUFFER_BYTES};

    ghost Value = { List ℕ };

    ghost view = { λ a. take (a.end - a.start) (drop a.start a.bytes.items) };

    ghost invariant = { λ a. (length a.bytes.items ≡ BUFFER_BYTES) × ((a.start ≤ a.end) × (a.end ≤ BUFFER_BYTES)) };
}

/// Moves the bytes of a range to the front.
fn move_front(bytes: &mut [u8], start: usize, end: usize)
    requires order { start ≤ end }
    requires within { end ≤ length bytes.old }
    ensures { take (end - start) bytes.new ≡ take (end - start) (drop start bytes.old) }
{
    if start == 0 {
        return;
    }
    for place in 0..end - start {
        bytes[place] = bytes[start + place];
    }
}

/// Reads bytes of a file from the place `at` on, after the first ones that are held.
pub fn read_after<I: Inputs>(
    bytes: &mut [u8],
    held: usize,
    files: &mut I,
    name: &str,
    at: u64,
) -> Result<usize, InputFault>
    requires { held < length bytes.old }
    ensures kept { take held bytes.new ≡ take held bytes.old }
    ensures within { IfOk result (λ n. held + n ≤ length bytes.old) }
    ensures bytes { IfOk result (λ n. IfSome (stated_file (I.reported files.old) name.now)
        (λ file. take (held + n) bytes.new ≡ take held bytes.old ++ take n (drop at file))) }
    ensures stand { IfOk result (λ n. IfSome (stated_file (I.reported files.old) name.now) (λ file. n ≤ length file - at)) }
    ensures none { IfOk result (λ n. IfSome (stated_file (I.reported files.old) name.now) (λ file. (n ≡ 0) ↔ (length file ≤ at))) }
    ensures reported { I.reported files.new ≡ I.reported files.old }
    ensures faults { OnlyRises name.now (I.faults files.old) (I.faults files.new) }
    ensures missing { IsErrOf result InputFault.Missing ↔ (get (I.faults files.old) name.now ≡ None) }
    ensures unchanged { IsErrOf result InputFault.Missing → files.new ≡ files.old }
    ensures failed { IsErrOf result InputFault.Failed → RoseAt name.now (I.faults files.old) (I.faults files.new) }
{
    files.read_at(name, at, &mut bytes[held..])
}

impl Buffer {
    /// Holds nothing, and has the memory that it needs.
    pub fn new(alloc: Global) -> Result<Buffer, Memory>
        ensures { IfOk result (λ buffer. buffer ≡ []) }
    {
        let bytes = vec![in alloc; 0; BUFFER_BYTES]?;
        Ok(Buffer {
            bytes,
            start: 0,
            end: 0,
        })
    }

    /// How many bytes are held.
    #[inline(always)]
    pub fn len(&self) -> usize
        ensures len { result ≡ length self.now }
        ensures most { result ≤ BUFFER_BYTES }
    {
        self.end - self.start
    }

    /// The bytes that are held.
    #[inline(always)]
    pub fn as_slice(&self) -> &[u8]
        ensures { result.now ≡ self.now }
    {
        let (_, following) = self.bytes.split_at(self.start);
        let (held, _) = following.split_at(self.end - self.start);
        held
    }

    /// Takes bytes off the front.
    #[inline(always)]
    pub fn pass(&mut self, count: usize)
        requires { count ≤ length self.old }
        ensures { self.new ≡ drop count self.old }
    {
        self.start += count;
    }

    /// Holds no more than the first bytes.
    pub fn keep(&mut self, count: usize)
        requires { count ≤ length self.old }
        ensures { self.new ≡ take count self.old }
    {
        self.end = self.start + count;
    }

    /// Reads bytes of a file from the place `at` on, after those that are held. An `Err` changes nothing.
    pub fn read<I: Inputs>(
        &mut self,
        files: &mut I,
        name: &str,
        at: u64,
    ) -> Result<usize, InputFault>
        requires { length self.old < BUFFER_BYTES }
        ensures kept { take (length self.old) self.new ≡ self.old }
        ensures more { IfOk result (λ n. length self.new ≡ length self.old + n) }
        ensures most { length self.new ≤ BUFFER_BYTES }
        ensures err { OnErr result (self.new ≡ self.old) }
        ensures bytes { IfOk result (λ n. IfSome (stated_file (I.reported files.old) name.now) (λ file. self.new ≡ self.old ++ take n (drop at file))) }
        ensures stand { IfOk result (λ n. IfSome (stated_file (I.reported files.old) name.now) (λ file. n ≤ length file - at)) }
        ensures none { IfOk result (λ n. IfSome (stated_file (I.reported files.old) name.now) (λ file. (n ≡ 0) ↔ (length file ≤ at))) }
        ensures reported { I.reported files.new ≡ I.reported files.old }
        ensures faults { OnlyRises name.now (I.faults files.old) (I.faults files.new) }
        ensures missing { IsErrOf result InputFault.Missing ↔ (get (I.faults files.old) name.now ≡ None) }
        ensures unchanged { IsErrOf result InputFault.Missing → files.new ≡ files.old }
        ensures failed { IsErrOf result InputFault.Failed → RoseAt name.now (I.faults files.old) (I.faults files.new) }
    {
        move_front(&mut self.bytes, self.start, self.end);
        self.end -= self.start;
        self.start = 0;
        let count = read_after(&mut self.bytes, self.end, files, name, at)?;
        self.end += count;
        Ok(count)
    }
}
