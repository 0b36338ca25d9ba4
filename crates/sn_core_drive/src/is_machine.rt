//! A net is a machine that reports its answers as they are.
use crate::machine::Machine;
use sn_base::memory::Memory;
use sn_core::event::Event;
use sn_core::supply::Supply;
use sn_core_net::net::Net;
use sn_fields::tuple::Tuple;
use sn_plan_grammar::plan::Plan;
use sn_switch::switch::Switch;
use sn_types::answers::Answers;
use sn_types::typed::Typed;

impl Machine for Net {
    ghost use Rattle.sn_core_drive.specs.Telling.{nets_are_lawful, tells_itself};
    ghost use Rattle.sn_core_net.specs.Nets.{state, works};

    ghost works = { works };

    ghost state = { state };

    ghost reported = { λ answers. answers };

    fn make(t: &Typed, s: &Switch, plan: &Plan, room: u32) -> Result<Net, Memory> {
        Net::make(t, s, plan, room)
    }

    fn wants(&self) -> bool {
        self.wants()
    }

    fn give(&mut self, next: Supply<Tuple>) {
        self.give(next)
    }

    fn enabled(&self, event: Event) -> bool {
        self.enabled(event)
    }

    fn read_outs(&self) -> u64 {
        self.read_outs()
    }

    fn deliveries(&self) -> u64 {
        self.deliveries()
    }

    fn happen(&mut self, event: Event) -> Result<(), Memory> {
        self.happen(event)
    }

    fn take_answers(&mut self) -> Option<Answers> {
        self.take_answers()
    }

    fn done(&self) -> bool {
        self.done()
    }

    ghost lawful = { nets_are_lawful };

    ghost tells = { λ queries answers. tells_itself queries answers };
}
