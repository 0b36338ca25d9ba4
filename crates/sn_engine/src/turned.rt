//! Items that get another tag.
ghost use Rattle.std.specs.Prelude.{◌≡◌, Some, map, suc};
ghost use Rattle.sn_engine.specs.Turns.{turn};
ghost use Rattle.sn_pipe_items.specs.Value.{is_at};
ghost use Rattle.sn_report.specs.Frames.{operator_of};

use sn_report::frame::{Item, Tag};

/// Whether an item with this tag stands after the operator of a tag.
fn is_after(held: Tag, own: Tag) -> bool
    ensures { result ≡ is_at (suc (operator_of held)) own }
{
    let number = match held {
        Tag::At(number) | Tag::Partial(number) => number,
    };
    match own {
        Tag::At(place) => place as u32 == number as u32 + 1,
        Tag::Partial(_) => false,
    }
}

/// Gives an item this tag, if it stands after its operator.
fn turn<R>(item: &mut Item<R>, held: Tag)
    ensures { item.new ≡ turn (Some held) item.old }
{
    if is_after(held, item.tag) {
        item.tag = held;
    }
}

/// Gives this tag to the items that stand after its operator.
pub(crate) fn turn_all<R>(items: &mut [Item<R>], held: Tag)
    ensures { items.new ≡ map (turn (Some held)) items.old }
{
    for item in items.iter_mut() {
        turn(item, held);
    }
}
