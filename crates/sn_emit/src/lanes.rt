//! All lanes of a plan.
ghost use Rattle.std.specs.Prelude.{◌≡◌, ◌≢◌, ℕ, ◌<◌, ◌≤◌, List, IfOk, IfSome, length, slice_get, slice_set};
ghost use Rattle.std.specs.List.{AllByRecursion};
ghost use Rattle.std.specs.Bool.{then_some};
ghost use Rattle.std.specs.Option.{option_map};
ghost use Rattle.sn_emit.specs.Lanes.{emitted_by};
ghost use Rattle.sn_emit.specs.Making.{CanEncode, CanMake};
ghost use Rattle.sn_emit.specs.Plans.{AreLanesOf, AreNewLanes, Placed, pieces_from, tables_of};
ghost use Rattle.sn_emit.specs.Runs.{IsReadOut};
ghost use Rattle.sn_emit.specs.Senders.{row_frame, sender_next, sender_start};
ghost use Rattle.sn_emit.specs.declared.tables.Tables.{Tables};
ghost use Rattle.sn_plan_fit.specs.Fits.{Fits};
ghost use Rattle.sn_pipe.specs.Pipes.{item_of};
ghost use Rattle.sn_switch.specs.Texts.{IsSwitch};
ghost use Rattle.sn_types.specs.declared.typed_query.TypedQuery.{TypedQuery};

use crate::given::Given;
use crate::making::senders_of;
use crate::sender::Sender;
use crate::tables::Tables;
use sn_base::members::Members;
use sn_base::memory::Memory;
use sn_fields::tuple::Tuple;
use sn_plan_grammar::plan::Plan;
use sn_switch::switch::Switch;
use sn_types::typed::Typed;
use std::marker::Model;

/// How many frames with rows all lanes gave, or 2^64 - 1 where they are more.
fn emitted(lanes: &[Sender]) -> u64
    ensures { result ≡ emitted_by lanes.now }
{
    let mut sum = 0u64;
    for lane in lanes {
        sum = sum.saturating_add(lane.given());
    }
    sum
}

/// The lanes of a plan, one for each piece in the plan's order, and by its number.
#[derive(Drop)]
pub struct Emitter {
    lanes: Vec<Sender>,
}

impl Model for Emitter {
    ghost use Rattle.std.specs.Prelude.{List};
    ghost use Rattle.std.specs.Coded.{codes, coded_ℕ};
    ghost use Rattle.std.specs.FinSet as set;
    ghost use Rattle.std.specs.Ordering.{nat_cmp};
    ghost use Rattle.sn_emit.specs.Lanes.{AreFew};
    ghost use Rattle.sn_emit.specs.declared.sender.Sender.{Sender};

    ghost Value = { List Sender };

    ghost coded = { Prim.hlevel (codes, set.code {R = nat_cmp} coded_ℕ) };

    ghost view = { λ a. a.lanes.items };

    ghost invariant = { λ a. AreFew a.lanes.items };
}

impl Emitter {
    /// The lanes of a plan that fits, each at the start of a window, with an empty prefix set. All memory that they ever
    /// need is taken here.
    pub fn make(t: &Typed, s: &Switch, plan: &Plan) -> Result<Emitter, Memory>
        requires switch { IsSwitch s.now }
        requires fits { Fits t.now.queries s.now plan.now.entries }
        ensures { IfOk result (λ lanes. AreNewLanes t.now.queries (tables_of s.now) (pieces_from 0 plan.now.entries) lanes) }
    {
        let tables = Tables::of(s);
        Emitter::of(t, tables, plan)
    }

    /// The lanes of pieces that can be made, each at the start of a window, with an empty prefix set, in a switch with this room. All
    /// memory that they ever need is taken here.
    pub fn of(t: &Typed, tables: Tables, plan: &Plan) -> Result<Emitter, Memory>
        requires some_depth { 1 ≤ tables.depth }
        requires most_depth { tables.depth ≤ 4 }
        requires few { length plan.now.entries ≤ 8 }
        requires most { length (pieces_from 0 plan.now.entries) ≤ 64 }
        requires can { AllByRecursion (CanMake t.now.queries) (pieces_from 0 plan.now.entries) }
        ensures { IfOk result (λ lanes. AreNewLanes t.now.queries tables (pieces_from 0 plan.now.entries) lanes) }
    {
        let lanes = senders_of(t, tables, plan)?;
        Ok(Emitter { lanes })
    }

    /// How many lanes there are: one for each piece, at most 64.
    pub fn lanes(&self) -> u32
        ensures { result ≡ length self.now }
    {
        self.lanes.len() as u32
    }

    /// Gives a tuple to a lane, before its read-out. `true` exactly where the lane gives a frame, which is then written into `into`: most
    /// lanes give none, and a frame takes longer to move than to find out so. Takes no memory.
    pub fn give(&mut self, lane: u32, tuple: &Tuple, into: &mut Given) -> bool
        requires lane { lane < length self.old }
        requires unread { IfSome (slice_get self.old lane) (λ s. s.pipe.prefix.place ≡ 0) }
        ensures frame { IfSome (slice_get self.old lane) (λ s. then_some result into.new ≡ option_map (row_frame s.lane) (item_of s.pipe tuple.now)) }
        ensures after { IfSome (slice_get self.old lane) (λ s. self.new ≡ slice_set self.old lane (sender_next s tuple.now)) }
        ensures lanes { (queries : List TypedQuery) (tables : Tables) (pieces : List Placed) → AreLanesOf queries tables pieces self.old →
            AreLanesOf queries tables pieces self.new }
        ensures range { IfSome (then_some result into.new) CanEncode }
    {
        self.lanes[lane as usize].packet(tuple, into)
    }

    /// The frame that a lane gives for a tuple, before its read-out. Takes no memory.
    pub fn packet(&mut self, lane: u32, tuple: &Tuple) -> Option<Given>
        requires lane { lane < length self.old }
        requires unread { IfSome (slice_get self.old lane) (λ s. s.pipe.prefix.place ≡ 0) }
        ensures frame { IfSome (slice_get self.old lane) (λ s. result ≡ option_map (row_frame s.lane) (item_of s.pipe tuple.now)) }
        ensures after { IfSome (slice_get self.old lane) (λ s. self.new ≡ slice_set self.old lane (sender_next s tuple.now)) }
        ensures lanes { (queries : List TypedQuery) (tables : Tables) (pieces : List Placed) → AreLanesOf queries tables pieces self.old →
            AreLanesOf queries tables pieces self.new }
        ensures range { IfSome result CanEncode }
    {
        let mut frame = Given::unsent();
        if self.give(lane, tuple, &mut frame) {
            Some(frame)
        } else {
            None
        }
    }

    /// The next frame of a lane's read-out: the rows, then one End, then `None`. Takes no memory.
    pub fn read_out(&mut self, lane: u32, window: u64) -> Option<Given>
        requires lane { lane < length self.old }
        ensures frame { IfSome (slice_get self.old lane) (λ s. IfSome (slice_get self.new lane) (λ t. IsReadOut window s result t)) }
        ensures count { length self.new ≡ length self.old }
        ensures others { (other : ℕ) → other ≢ lane → slice_get self.new other ≡ slice_get self.old other }
        ensures lanes { (queries : List TypedQuery) (tables : Tables) (pieces : List Placed) → AreLanesOf queries tables pieces self.old →
            AreLanesOf queries tables pieces self.new }
        ensures range { IfSome result CanEncode }
    {
        self.lanes[lane as usize].read_out(window)
    }

    /// Begins a window of a lane: empty registers, this prefix set, and nothing given. Takes no memory.
    pub fn next_window(&mut self, lane: u32, kept: Members)
        requires { lane < length self.old }
        ensures after { IfSome (slice_get self.old lane) (λ s. self.new ≡ slice_set self.old lane (sender_start s kept)) }
        ensures lanes { (queries : List TypedQuery) (tables : Tables) (pieces : List Placed) → AreLanesOf queries tables pieces self.old →
            AreLanesOf queries tables pieces self.new }
    {
        self.lanes[lane as usize].next_window(kept);
    }

    /// How many frames with rows the lanes gave, each since its last `next_window` or since `make`; or 2^64 - 1 where they
    /// are more. Takes no memory.
    pub fn emitted(&self) -> u64
        ensures { result ≡ emitted_by self.now }
    {
        emitted(&self.lanes)
    }
}
