//! A machine that doesn't tell its answers as they are.
ghost use Rattle.std.specs.Prelude.{◌≡◌};
ghost use Rattle.sn_test_machines.specs.Twist.{change_last, shorter, twisted};

use sn_base::memory::Memory;
use sn_base::seq::Seq;
use sn_core::event::Event;
use sn_core::supply::Supply;
use sn_core_drive::machine::Machine;
use sn_core_net::net::Net;
use sn_fields::tuple::Tuple;
use sn_plan_grammar::plan::Plan;
use sn_switch::switch::Switch;
use sn_types::answers::{Answers, Part};
use sn_types::typed::Typed;

/// A net of whose answers the last row of the last part is left out.
#[derive(Drop)]
pub struct Twist {
    pub net: Net,
}

/// Leaves out the last row of the last part, where that part has a row.
fn shorten_last(parts: &mut Vec<Part>)
    ensures { parts.new.items ≡ change_last shorter parts.old.items }
{
    let count = parts.len();
    if count > 0 {
        let _ = parts[count - 1].rows.pop();
    }
}

fn reported(answers: Answers) -> Answers
    ensures { result ≡ twisted answers }
{
    let mut parts = answers.parts.into_vec();
    shorten_last(&mut parts);
    Answers {
        window: answers.window,
        emitted: answers.emitted,
        parts: Seq::from_vec(parts),
    }
}

impl Machine for Twist {
    ghost use Rattle.sn_core_drive.specs.Telling.{nets_are_lawful};
    ghost use Rattle.sn_core_net.specs.Nets.{state, works};
    ghost use Rattle.sn_test_machines.specs.Twist.{twisted, twisted_tells};

    ghost works = { λ a. works a.net };

    ghost state = { λ a. state a.net };

    ghost reported = { twisted };

    fn make(t: &Typed, s: &Switch, plan: &Plan, room: u32) -> Result<Twist, Memory> {
        let net = Net::make(t, s, plan, room)?;
        Ok(Twist { net })
    }

    fn wants(&self) -> bool {
        self.net.wants()
    }

    fn give(&mut self, next: Supply<Tuple>) {
        self.net.give(next)
    }

    fn enabled(&self, event: Event) -> bool {
        self.net.enabled(event)
    }

    fn read_outs(&self) -> u64 {
        self.net.read_outs()
    }

    fn deliveries(&self) -> u64 {
        self.net.deliveries()
    }

    fn happen(&mut self, event: Event) -> Result<(), Memory> {
        self.net.happen(event)
    }

    fn take_answers(&mut self) -> Option<Answers> {
        match self.net.take_answers() {
            Some(answers) => Some(reported(answers)),
            None => None,
        }
    }

    fn done(&self) -> bool {
        self.net.done()
    }

    ghost lawful = { λ a. nets_are_lawful a.net };

    ghost tells = { twisted_tells };
}
