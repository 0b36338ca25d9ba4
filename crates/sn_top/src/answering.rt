//! Unsplit queries answer the windows of a capture, each by itself.

use crate::unsplit::Unsplit;
use sn_base::memory::Memory;
use sn_base::seq::Seq;
use sn_command_capture::answering::Answering;
use sn_command_capture::lines::last_lines;
use sn_command_capture::stop::Stop;
use sn_fields::tuple::Tuple;
use sn_pcap::packet::Ending;

impl Answering for Unsplit<'_> {
    ghost use Rattle.std.specs.Prelude.{refl};
    ghost use Rattle.sn_command_capture.specs.Unstopped.{never_stopped};
    ghost use Rattle.sn_ops_stream.specs.Streams.{HaveCome};
    ghost use Rattle.sn_top.specs.Answers.{plain_wording};

    ghost wording = { λ a. plain_wording a.typed.now.queries };

    ghost idle = { λ a closed. Unit {0} };

    ghost hand = { λ a closed number tuples. HaveCome a.typed.now.queries tuples a.streams };

    fn first(&self) -> Result<Seq<u8>, Memory> {
        Ok(Seq::new(self.alloc))
    }

    fn packet(&mut self, _: u64, tuple: &Tuple) -> Result<(), Memory> {
        self.streams.give(tuple)
    }

    fn pass(&mut self, at_hand: u64, _: u64, tuple: &Tuple) -> Result<Seq<u8>, Stop> {
        let text = self.end_window(at_hand)?;
        self.streams.give(tuple)?;
        Ok(text)
    }

    fn close(&mut self, number: u64) -> Result<Seq<u8>, Stop> {
        let text = self.end_window(number)?;
        Ok(text)
    }

    fn unfinished(&self, _: u64) -> Result<Seq<u8>, Memory> {
        Ok(Seq::new(self.alloc))
    }

    fn last(&self, windows: u64, ending: Ending) -> Result<Seq<u8>, Memory> {
        last_lines(self.alloc, ending, windows, None)
    }

    ghost causal = { λ a closed number tuples more rising. refl };

    ghost in_time = { λ a. never_stopped (plain_wording a.typed.now.queries) (λ windows number tuples. refl) };
}
