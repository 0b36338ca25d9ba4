//! A plan at work, of whose answers a summary is written.

use crate::summary::{push_shown, summary_text};
use sn_base::memory::Memory;
use sn_base::seq::Seq;
use sn_command_capture::answering::Answering;
use sn_command_capture::stop::Stop;
use sn_command_run::along::Along;
use sn_core_drive::machine::Machine;
use sn_fields::tuple::Tuple;
use sn_pcap::packet::Ending;

/// A plan at work over the windows of a job's second capture.
#[derive(Drop)]
pub struct Summing<M: Drop> {
    /// The number of the job.
    pub number: u32,
    /// How many items the plan sends of the first capture.
    pub cost: u64,
    /// How many nodes the plan's tree has.
    pub nodes: u64,
    pub along: Along<M>,
    /// What is shown of the windows that were closed.
    pub shown: Vec<u8>,
}

impl<M: Machine> Answering for Summing<M> {
    ghost use Rattle.std.specs.Prelude.{refl};
    ghost use Rattle.sn_command_capture.specs.Unstopped.{never_stopped};
    ghost use Rattle.sn_command_job.specs.Summary.{summary_wording};
    ghost use Rattle.sn_command_job.specs.Summing.{IsAtWork, IsIdle};
    ghost use Rattle.sn_command_run.specs.Along.{plan_of};

    ghost wording = { λ a. summary_wording M.reported a.number a.cost a.nodes (plan_of a.along) };

    ghost idle = { λ a closed. IsIdle M.Machine a closed };

    ghost hand = { λ a closed number tuples. IsAtWork M.Machine a closed number tuples };

    fn first(&self) -> Result<Seq<u8>, Memory> {
        Ok(Seq::new(self.along.alloc))
    }

    fn packet(&mut self, number: u64, tuple: &Tuple) -> Result<(), Memory> {
        self.along.take_tuple(number, tuple)
    }

    fn pass(&mut self, at_hand: u64, number: u64, tuple: &Tuple) -> Result<Seq<u8>, Stop> {
        let answers = self.along.pass_window(at_hand, number, tuple)?;
        push_shown(&mut self.shown, &self.along.typed, &answers)?;
        Ok(Seq::new(self.along.alloc))
    }

    fn close(&mut self, number: u64) -> Result<Seq<u8>, Stop> {
        let answers = self.along.close_window(number)?;
        push_shown(&mut self.shown, &self.along.typed, &answers)?;
        Ok(Seq::new(self.along.alloc))
    }

    fn unfinished(&self, _: u64) -> Result<Seq<u8>, Memory> {
        Ok(Seq::new(self.along.alloc))
    }

    fn last(&self, windows: u64, _: Ending) -> Result<Seq<u8>, Memory> {
        summary_text(self, windows)
    }

    ghost causal = { λ a closed number tuples more rising. refl };

    ghost in_time = { λ a. never_stopped (summary_wording M.reported a.number a.cost a.nodes (plan_of a.along)) (λ windows number tuples. refl) };
}
