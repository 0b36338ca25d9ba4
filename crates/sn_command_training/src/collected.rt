//! The tuples of records, collected window by window.
ghost use Rattle.std.specs.Prelude.{◌≡◌, ◌≤◌, ◌+◌, ℕ, List, [], ◌∷◌, ◌++◌, All, IfOk, OnOk, length, map};
ghost use Rattle.sn_command_training.specs.Collecting.{Collects, CollectsAll, HasCollected, IsCollected, IsOver, Seen, shown, training_of_seen};
ghost use Rattle.sn_cost_training.specs.Trained.{none};
ghost use Rattle.sn_pcap.specs.Capture.{IsWithin};
ghost use Rattle.sn_windows.specs.Blocks.{most_records};

use sn_base::link::Link;
use sn_base::memory::Memory;
use sn_base::seq::Seq;
use sn_cost_training::training::Training;
use sn_fields::tuple::{Tuple, tuple_of};
use sn_pcap::packet::Packet;
use sn_windows::windows::{MOST_RECORDS, TooMany, Windows};
use std::alloc::Global;
use std::mem;

/// The tuples of the records so far: those of the windows that are over, and those of the current one.
#[derive(Drop)]
pub(crate) struct Collected {
    alloc: Global,
    windows: Windows,
    over: Training,
    tuples: Seq<Tuple>,
    count: u64,
}

impl Collected {
    /// None so far, of windows that have this many nanoseconds.
    pub(crate) fn new(alloc: Global, window_ns: u64) -> Collected
        requires { 1 ≤ window_ns }
        ensures { IsCollected window_ns [] result }
    {
        Collected {
            alloc,
            windows: Windows::new(window_ns),
            over: Training::new(alloc),
            tuples: Seq::new(alloc),
            count: 0,
        }
    }

    /// The current window is over.
    fn next_window(&mut self) -> Result<(), Memory>
        requires { HasCollected self.old }
        ensures { OnOk result ((window : ℕ) (seen : List Seen) → IsCollected window seen self.old → IsOver window seen self.old self.new) }
    {
        let tuples = mem::replace(&mut self.tuples, Seq::new(self.alloc));
        self.over.add(self.windows.number(), tuples)
    }

    /// Takes the tuple of the next record, which has this time. `TooMany` exactly where [`MOST_RECORDS`] came before.
    fn take(&mut self, time: u64, tuple: Tuple) -> Result<Result<(), TooMany>, Memory>
        requires { HasCollected self.old }
        ensures { IfOk result (λ taken. (window : ℕ) (seen : List Seen) → IsCollected window seen self.old →
            Collects window seen (time, tuple) taken self.new) }
    {
        if self.count == MOST_RECORDS {
            return Ok(Err(TooMany));
        }
        let mut windows = self.windows;
        let Ok(number) = windows.next_number(time) else {
            unreachable!()
        };
        if number != self.windows.number() {
            self.next_window()?;
        }
        self.windows = windows;
        self.tuples.push(tuple)?;
        self.count += 1;
        Ok(Ok(()))
    }

    /// Takes the packets of a capture, one after another. `TooMany` exactly where there would be more than [`MOST_RECORDS`].
    pub(crate) fn take_all(
        &mut self,
        link: Link,
        file: &[u8],
        packets: &[Packet],
    ) -> Result<Result<(), TooMany>, Memory>
        requires within { All (IsWithin file.now) packets.now }
        requires collected { HasCollected self.old }
        ensures { IfOk result (λ taken. (window : ℕ) (seen : List Seen) → IsCollected window seen self.old →
            CollectsAll window seen (map (shown link file.now) packets.now) taken self.new) }
    {
        for packet in packets {
            let tuple = tuple_of(link, packet.wire, packet.bytes(file));
            if let Err(many) = self.take(packet.time, tuple)? {
                return Ok(Err(many));
            }
        }
        Ok(Ok(()))
    }

    /// Forgets all tuples.
    pub(crate) fn clear(&mut self)
        ensures over { self.new.over ≡ none }
        ensures tuples { self.new.tuples ≡ [] }
    {
        self.over = Training::new(self.alloc);
        self.tuples = Seq::new(self.alloc);
    }

    /// What is trained on, once no record follows.
    pub(crate) fn finish(self) -> Result<Training, Memory>
        requires { HasCollected self }
        ensures all { IfOk result (λ training. (window : ℕ) (seen : List Seen) → IsCollected window seen self → training ≡ training_of_seen window seen) }
        ensures few { IfOk result (λ training. length training.numbers ≤ most_records) }
    {
        let mut over = self.over;
        over.add(self.windows.number(), self.tuples)?;
        Ok(over)
    }
}
