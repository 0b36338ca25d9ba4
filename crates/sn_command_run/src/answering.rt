//! A plan answers the windows of a capture by a machine.

use crate::along::Along;
use crate::texts::{first_text, last_text, window_text};
use sn_base::memory::Memory;
use sn_base::seq::Seq;
use sn_command_capture::answering::Answering;
use sn_command_capture::stop::Stop;
use sn_core_drive::machine::Machine;
use sn_fields::tuple::Tuple;
use sn_pcap::packet::Ending;

impl<M: Machine> Answering for Along<M> {
    ghost use Rattle.sn_command_capture.specs.Unstopped.{never_stopped};
    ghost use Rattle.sn_command_run.specs.Along.{IsAtHand, IsIdle, plan_of};
    ghost use Rattle.sn_command_run.specs.Causal.{plan_is_causal, plan_never_stops};
    ghost use Rattle.sn_command_run.specs.Planned.{wording_in};

    ghost wording = { λ a. wording_in a.form M.reported (plan_of a) };

    ghost idle = { λ a closed. IsIdle M.Machine a closed };

    ghost hand = { λ a closed number tuples. IsAtHand M.Machine a closed number tuples };

    fn first(&self) -> Result<Seq<u8>, Memory> {
        first_text(self.alloc, self.form)
    }

    fn packet(&mut self, number: u64, tuple: &Tuple) -> Result<(), Memory> {
        self.take_tuple(number, tuple)
    }

    fn pass(&mut self, at_hand: u64, number: u64, tuple: &Tuple) -> Result<Seq<u8>, Stop> {
        let answers = self.pass_window(at_hand, number, tuple)?;
        let text = window_text(self.alloc, self.form, &self.typed, &answers)?;
        Ok(text)
    }

    fn close(&mut self, number: u64) -> Result<Seq<u8>, Stop> {
        let answers = self.close_window(number)?;
        let text = window_text(self.alloc, self.form, &self.typed, &answers)?;
        Ok(text)
    }

    fn unfinished(&self, _: u64) -> Result<Seq<u8>, Memory> {
        Ok(Seq::new(self.alloc))
    }

    fn last(&self, windows: u64, ending: Ending) -> Result<Seq<u8>, Memory> {
        last_text(self.alloc, self.form, ending, windows, self.emitted)
    }

    ghost causal = { λ a. plan_is_causal a.form M.reported (plan_of a) };

    ghost in_time = { λ a. never_stopped (wording_in a.form M.reported (plan_of a)) (plan_never_stops a.form M.reported (plan_of a)) };
}
