//! Items that leave the switch before the cut of their piece.
ghost use Rattle.std.specs.Prelude.{◌≡◌, ◌<◌, ◌^◌};
ghost use Rattle.sn_engine.specs.Intakes.{total};
ghost use Rattle.sn_engine_lockstep.specs.Early.{early_in, early_total, is_early};

use sn_engine::intake::Intake;
use sn_engine::items::AnyItems;
use sn_report::frame::{Item, Tag};

/// Whether a row comes to an operator before the cut, or is a key with a fold.
fn is_early(cut: u32, tag: Tag) -> bool
    ensures { result ≡ is_early cut tag }
{
    match tag {
        Tag::At(place) => u32::from(place) < cut,
        Tag::Partial(_) => true,
    }
}

/// How many of the items of a piece with this cut are early.
fn early_in<R>(cut: u32, items: &[Item<R>]) -> usize
    ensures { result ≡ early_in cut items.now }
{
    items.iter().filter(|item| is_early(cut, item.tag)).count()
}

/// How many of the items of a lane are early.
fn early_of(lane: &Intake) -> usize
    ensures { result ≡ early_in lane.now.cut lane.now.items }
{
    match lane.items.kind() {
        AnyItems::Short(items) => early_in(lane.cut, items.as_slice()),
        AnyItems::Wide(items) => early_in(lane.cut, items.as_slice()),
    }
}

/// How many of the items of all lanes are early.
pub(crate) fn early_total(lanes: &[Intake]) -> u64
    requires { total lanes.now < 2 ^ 64 }
    ensures { result ≡ early_total lanes.now }
{
    let mut early = 0;
    for lane in lanes {
        early += early_of(lane) as u64;
    }
    early
}
