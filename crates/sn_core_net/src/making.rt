//! A net as it is made.
ghost use Rattle.std.specs.Prelude.{◌≡◌, ◌<◌, ◌≤◌, ℕ, List, length, map, IfOk};
ghost use Rattle.sn_core.specs.Calls.{made};
ghost use Rattle.sn_core.specs.Due.{due, windows_of};
ghost use Rattle.sn_core.specs.Numbers.{DontFall};
ghost use Rattle.sn_core.specs.Standing.{IsNet};
ghost use Rattle.sn_core.specs.declared.supply.Supply.{Supply};
ghost use Rattle.sn_engine_lockstep.specs.Windows.{plan_answers};
ghost use Rattle.sn_emit.specs.Plans.{pieces_from, tables_of};
ghost use Rattle.sn_plan_fit.specs.Fits.{Fits};
ghost use Rattle.sn_core_net.specs.Holders.{with_ring};
ghost use Rattle.sn_core_net.specs.Nets.{state, works};
ghost use Rattle.sn_core_net.specs.PlanWorkings.{AreLanesFor, HaveWidths, given_of, workings};
ghost use Rattle.sn_refine.specs.Steps.{windows_of as given_windows};
ghost use Rattle.sn_switch.specs.Texts.{IsSwitch};

use crate::holder::Holder;
use crate::marks::Marks;
use crate::net::Net;
use sn_base::memory::Memory;
use sn_base::seq::Seq;
use sn_core::supply::Window;
use sn_emit::making::senders;
use sn_emit::sender::Sender;
use sn_engine::engine::Engine;
use sn_engine_lockstep::source::sources;
use sn_plan_grammar::plan::Plan;
use sn_switch::switch::Switch;
use sn_types::typed::Typed;
use std::alloc::Global;

/// Lanes that hold no frames yet, each with room for this many.
fn holders(alloc: Global, senders: Vec<Sender>, room: u32) -> Result<Vec<Holder>, Memory>
    ensures { IfOk result (λ lanes. lanes.items ≡ map (with_ring room) senders.items) }
{
    let mut lanes = Seq::new(alloc);
    for sender in senders {
        let holder = Holder::make(alloc, sender, room)?;
        lanes.push(holder)?;
    }
    Ok(lanes.into_vec())
}

impl Net {
    /// The net of a plan that fits, with room for this many frames in each lane, at least 1. Nothing was given to it.
    pub fn make(t: &Typed, s: &Switch, plan: &Plan, room: u32) -> Result<Net, Memory>
        requires switch { IsSwitch s.now }
        requires fits { Fits t.now.queries s.now plan.now.entries }
        requires some_room { 1 ≤ room }
        ensures works { IfOk result (λ net. works net ≡ workings t.now.queries plan.now.entries) }
        ensures state { IfOk result (λ net. state net ≡ made (works net) room (state net).lanes) }
        ensures lanes { IfOk result (λ net. AreLanesFor t.now.queries (tables_of s.now) (pieces_from 0 plan.now.entries) (state net).lanes) }
        ensures some_lane { IfOk result (λ net. 0 < length (state net).lanes) }
        ensures stands { IfOk result (λ net. IsNet (works net) (state net)) }
        // Whatever follows, what is due are the answers of the plan for each window that is given.
        ensures due { IfOk result (λ net. (following : List (Supply (List ℕ))) → let windows = windows_of following in DontFall 0 following →
            HaveWidths windows →
            due (works net) (state net) following ≡ map
            (λ x. plan_answers t.now.queries (tables_of s.now) plan.now.entries (given_windows (map given_of windows)) x.number) windows) }
    {
        let senders = senders(t, s, plan)?;
        let lanes = holders(t.alloc, senders, room)?;
        let sources = sources(t.alloc, plan.entries.as_slice())?;
        let engine = Engine::make(t.alloc, t, plan)?;
        let installs = Vec::new(t.alloc);
        let marks = Marks::of(&lanes, room);
        Ok(Net {
            room,
            held: None,
            window: Window::Idle,
            lanes,
            engine,
            sources,
            installs,
            waiting: None,
            marks,
        })
    }
}
