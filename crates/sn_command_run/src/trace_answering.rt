//! A plan answers the windows of a capture by a machine that is watched.

use crate::trace_texts::{after_lines, with_block};
use crate::traced::Traced;
use sn_base::memory::Memory;
use sn_base::seq::Seq;
use sn_command_capture::answering::Answering;
use sn_command_capture::lines::last_lines;
use sn_command_capture::stop::Stop;
use sn_core_drive::machine::Machine;
use sn_fields::tuple::Tuple;
use sn_pcap::packet::Ending;

impl<M: Machine> Answering for Traced<M> {
    ghost use Rattle.std.specs.Prelude.{refl};
    ghost use Rattle.sn_command_capture.specs.Unstopped.{never_stopped};
    ghost use Rattle.sn_command_run.specs.Along.{plan_of};
    ghost use Rattle.sn_command_run.specs.TraceCausal.{trace_is_causal};
    ghost use Rattle.sn_command_run.specs.TraceWatching.{IsAtWork, IsIdle};
    ghost use Rattle.sn_command_run.specs.TraceWording.{traced_wording};

    ghost wording = { λ a. traced_wording a.schedule (plan_of a.along) M.reported };

    ghost idle = { λ a closed. IsIdle M.Machine a closed };

    ghost hand = { λ a closed number tuples. IsAtWork M.Machine a closed number tuples };

    fn first(&self) -> Result<Seq<u8>, Memory> {
        Ok(Seq::new(self.along.alloc))
    }

    fn packet(&mut self, number: u64, tuple: &Tuple) -> Result<(), Memory> {
        self.take_tuple(number, tuple)
    }

    fn pass(&mut self, at_hand: u64, number: u64, tuple: &Tuple) -> Result<Seq<u8>, Stop> {
        let (lines, answers) = self.pass_window(at_hand, number, tuple)?;
        let text = with_block(self.along.alloc, &self.along.typed, lines, &answers)?;
        Ok(text)
    }

    fn close(&mut self, number: u64) -> Result<Seq<u8>, Stop> {
        let (lines, answers) = self.close_window(number)?;
        let text = with_block(self.along.alloc, &self.along.typed, lines, &answers)?;
        Ok(text)
    }

    fn unfinished(&self, _: u64) -> Result<Seq<u8>, Memory> {
        Seq::from_slice(self.along.alloc, self.lines.as_slice())
    }

    fn last(&self, windows: u64, ending: Ending) -> Result<Seq<u8>, Memory> {
        let text = last_lines(self.along.alloc, ending, windows, Some(self.along.emitted))?;
        after_lines(self.along.alloc, self.lines.as_slice(), text.as_slice())
    }

    ghost causal = { λ a. trace_is_causal a.schedule (plan_of a.along) M.reported };

    ghost in_time = { λ a. never_stopped (traced_wording a.schedule (plan_of a.along) M.reported) (λ windows number tuples. refl) };
}
