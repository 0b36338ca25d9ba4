//! What tests begin with: texts that are read, rows, frames and packets.
ghost use Rattle.std.specs.Prelude.{◌≡◌, ◌≤◌, length, IfSome};
ghost use Rattle.sn_plan_fit.specs.Fits.{Fits};
ghost use Rattle.sn_switch.specs.Texts.{IsSwitch};

use sn_base::lane::Lane;
use sn_base::link::Link;
use sn_base::row::Row;
use sn_base::short_row::ShortRow;
use sn_fields::tuple::{Tuple, tuple_of};
use sn_plan_fit::fits;
use sn_plan_grammar::plan::Plan;
use sn_report::frame::{Frame, Item, Tag};
use sn_switch::switch::Switch;
use sn_types::answers::{Answers, EitherRows, Part};
use sn_types::typed::Typed;
use sn_types_read::read::read;
use std::alloc::Global;

/// Sums over destinations.
pub(crate) const COUNTS: &[u8] =
    b"window 1000000 query q { packets | map ip.dst as d, 1 as n | reduce d: sum(n) width 16; }";

/// Destinations, each once.
pub(crate) const DISTINCT: &[u8] =
    b"window 1000000 query q { packets | map ip.dst as d | distinct; }";

/// With one register of one slot.
pub(crate) const ONE_SLOT: &[u8] = b"plan query q path 0; piece 0 0 cut 2 slots 1 stages 1;";

/// Destinations with more than one source.
pub(crate) const SPREAD: &[u8] =
    b"window 1000000 query q { packets | map ip.dst as d, ip.src as s | distinct | map d as d, 1 as n | reduce d: sum(n) width 16 | filter n > 1; }";

/// All of it in the switch, with one register of one slot for the distinct and one for the reduce.
pub(crate) const TWO_SLOTS: &[u8] = b"plan query q path 0; piece 0 0 cut 5 slots 1, 1 stages 1, 3;";

/// Destinations with more than one packet, at two levels.
pub(crate) const REFINED: &[u8] =
    b"window 1000000 query q { refine ip.dst: 8, 32; packets | map ip.dst as d, 1 as n | reduce d: sum(n) width 16 | filter n > 1; }";

/// With nothing in the switch.
pub(crate) const TWO_LEVELS: &[u8] = b"plan query q path 8, 32; piece 8 0 cut 0; piece 32 0 cut 0;";

/// A switch of five stages, whose chains have one register.
pub(crate) const FIVE: &[u8] = b"stages 5; actions 2; bits 1000; meta 1000; chain 1; slots 1;";

/// A switch of four.
pub(crate) const FOUR: &[u8] = b"stages 4; actions 2; bits 1000; meta 1000; chain 1; slots 1;";

/// The number of 10.0.0.0.
pub(crate) const NET: u64 = 167772160;

/// A TCP SYN from 10.0.0.0 to 10.0.0.0.
const SYN: [u8; 54] = [
    2, 0, 0, 0, 0, 2, 2, 0, 0, 0, 0, 1, 8, 0, //
    0x45, 0, 0, 0x28, 0, 0, 0, 0, 0x40, 6, 0, 0, 10, 0, 0, 0, 10, 0, 0, 0, //
    4, 0, 0, 0x50, 0, 0, 0, 0, 0, 0, 0, 0, 0x50, 2, 0, 0, 0, 0, 0, 0,
];

/// The tuple of a SYN from 10.0.0.s to 10.0.0.d.
pub(crate) fn syn(source: u8, destination: u8) -> Tuple {
    let mut bytes = SYN;
    bytes[29] = source;
    bytes[33] = destination;
    tuple_of(Link::Ethernet, 54, &bytes)
}

pub(crate) fn row(columns: &[u64]) -> ShortRow
    requires { length columns.now ≤ 8 }
    ensures { result ≡ columns.now }
{
    match ShortRow::new(columns) {
        Some(row) => row,
        None => unreachable!(),
    }
}

pub(crate) fn wide_row(columns: &[u128]) -> Row
    requires { length columns.now ≤ 8 }
    ensures { result ≡ columns.now }
{
    match Row::new(columns) {
        Some(row) => row,
        None => unreachable!(),
    }
}

/// A lane of the first branch of a query.
pub(crate) fn lane(query: u8, level: u8) -> Lane {
    Lane {
        query,
        level,
        branch: 0,
    }
}

/// A frame of the first lane.
pub(crate) fn sent(tag: Tag, row: ShortRow) -> Frame<ShortRow> {
    Frame::Row(lane(0, 0), Item { tag, row })
}

/// The rows of an answer by its number.
pub(crate) fn rows(answers: &Answers, part: usize) -> &[ShortRow] {
    match answers.parts.as_slice().get(part) {
        Some(part) => short_rows(part),
        None => &[],
    }
}

/// The rows of an answer, which are short, and none of one whose rows aren't.
pub(crate) fn short_rows(part: &Part) -> &[ShortRow] {
    match part.rows.either() {
        EitherRows::Short(rows) => rows.as_slice(),
        EitherRows::Wide(_) => &[],
    }
}

pub(crate) fn queries(alloc: Global, text: &[u8]) -> Option<Typed> {
    if text.len() > 1000 {
        return None;
    }
    read(alloc, text).ok()
}

fn switch(alloc: Global, text: &[u8]) -> Option<Switch>
    ensures { IfSome result (λ s. IsSwitch s) }
{
    if text.len() > 1000 {
        return None;
    }
    match sn_switch::parse(alloc, text) {
        Ok(switch) => Some(switch),
        Err(_) => None,
    }
}

pub(crate) fn plan(alloc: Global, text: &[u8]) -> Option<Plan> {
    if text.len() > 1000 {
        return None;
    }
    match sn_plan::parse(alloc, text) {
        Ok((plan, _)) => Some(plan),
        Err(_) => None,
    }
}

/// Queries, and a plan of them that fits a switch.
#[derive(Drop)]
pub(crate) struct Fitting {
    pub(crate) typed: Typed,
    pub(crate) switch: Switch,
    pub(crate) plan: Plan,
}

/// What these texts tell. `None` where one of them isn't read, or the plan doesn't fit.
pub(crate) fn fitting_of(
    alloc: Global,
    queries_text: &[u8],
    switch_text: &[u8],
    plan_text: &[u8],
) -> Option<Fitting>
    ensures switch { IfSome result (λ f. IsSwitch f.switch) }
    ensures fits { IfSome result (λ f. Fits f.typed.queries f.switch f.plan.entries) }
{
    let typed = queries(alloc, queries_text)?;
    let switch = switch(alloc, switch_text)?;
    let plan = plan(alloc, plan_text)?;
    match fits(&typed, &switch, &plan) {
        Ok(()) => Some(Fitting {
            typed,
            switch,
            plan,
        }),
        Err(_) => None,
    }
}
