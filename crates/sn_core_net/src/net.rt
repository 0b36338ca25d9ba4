//! The net: a switch, its lanes, and an engine.
ghost use Rattle.std.specs.Prelude.{◌≡◌, ◌≤◌, ◌||◌, length, map, true};
ghost use Rattle.sn_core.specs.Standing.{IsNet};
ghost use Rattle.sn_engine.specs.Intakes.{emptied};
ghost use Rattle.sn_core_net.specs.Facts.{are_named, are_own, are_roomy, are_unread, ends_agree, may_be_read, names_of};
ghost use Rattle.sn_engine_lockstep.specs.Known.{AreKnown, are_known_prop};
ghost use Rattle.sn_core_net.specs.Marks.{AreMarksFrom, are_marks_prop};
ghost use Rattle.sn_core_net.specs.Reports.{window_number};
ghost use Rattle.sn_core_net.specs.States.{last_of, state_of, works_of};

use crate::holder::Holder;
use crate::marks::Marks;
use sn_base::members::Members;
use sn_base::seq::Seq;
use sn_core::supply::{Supply, Window};
use sn_engine::engine::Engine;
use sn_engine_lockstep::source::Source;
use sn_fields::tuple::Tuple;
use sn_types::answers::Answers;

/// A switch whose lanes hold frames for an engine, which takes them one by one. What happens next is chosen from outside, among
/// the events whose needs hold: the answers are the same whatever is chosen.
#[derive(Drop)]
pub struct Net {
    /// How many frames a lane may hold.
    pub room: u32,
    /// What was given and isn't used up.
    pub held: Option<Supply<Tuple>>,
    pub window: Window,
    /// The lanes in the switch: the pieces of the plan in their order.
    pub lanes: Vec<Holder>,
    pub engine: Engine,
    /// By lane: whose prefixes it admits.
    pub sources: Seq<Source>,
    /// By lane: the prefixes to install, from the answers of the window that was closed last.
    pub installs: Vec<Members>,
    /// The answers that wait to be taken.
    pub waiting: Option<Answers>,
    /// What the lanes hold.
    pub marks: Marks,
    ghost matched: { length lanes.items ≡ length engine.lanes.items },
    // so that each lane has a bit
    ghost few: { length lanes.items ≤ 64 },
    ghost roomy: { are_roomy room lanes.items ≡ true },
    ghost named: { are_named (names_of lanes.items) (map emptied engine.lanes.items) ≡ true },
    ghost unread: { (may_be_read window held || are_unread lanes.items) ≡ true },
    ghost own: { are_own (window_number window) lanes.items ≡ true },
    ghost agreed: { ends_agree window engine.lanes.items ≡ true },
    ghost known: { AreKnown engine.t.queries sources } by { are_known_prop engine.t.queries sources },
    ghost marked: { AreMarksFrom 0 room lanes.items marks } by { are_marks_prop 0 room lanes.items marks },
    ghost standing: { ∥ IsNet (works_of engine.t.queries engine.lanes.items sources)
        (state_of room held window lanes.items engine.lanes.items installs.items (last_of engine.closed engine.kept) waiting) ∥₁ },
}
