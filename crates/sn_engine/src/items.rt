//! The items of a lane.
ghost use Rattle.std.specs.Prelude.{◌≡◌, ◌++◌, ◌∷◌, [], length, map, OnOk, OnErr};
ghost use Rattle.sn_engine.specs.AnyItems.{items_in};
ghost use Rattle.sn_engine.specs.Turns.{turn};
ghost use Rattle.sn_report.specs.Items.{item_by};

use crate::lane_row::{LaneRow, all_widened};
use crate::turned::turn_all;
use sn_base::memory::Memory;
use sn_base::row::Row;
use sn_base::short_row::ShortRow;
use sn_report::frame::{Item, Tag};
use std::alloc::Global;
use std::marker::Model;
use std::mem;

/// Items over rows of one kind.
#[derive(Drop)]
pub enum AnyItems {
    Short(Vec<Item<ShortRow>>),
    Wide(Vec<Item<Row>>),
}

/// The items of a lane, in the order in which they came: over short rows until one comes that these don't hold, and over wide ones
/// from then on, in later windows too. Contracts see the items alone.
#[derive(Drop)]
pub struct Items {
    alloc: Global,
    held: AnyItems,
}

impl Model for Items {
    ghost use Rattle.std.specs.Prelude.{List};
    ghost use Rattle.sn_report.specs.Items.{Item};

    ghost Value = { List Item };

    ghost use Rattle.sn_engine.specs.AnyItems.{items_in};

    ghost view = { λ a. items_in a.held };
}

/// Moves the items of a list after those of another. An `Err` changes nothing.
fn append<T: Drop>(items: &mut Vec<T>, more: &mut Vec<T>) -> Result<(), Memory>
    ensures ok { OnOk result (items.new.items ≡ items.old.items ++ more.old.items) }
    ensures moved { OnOk result (more.new.items ≡ []) }
    ensures err { OnErr result (items.new.items ≡ items.old.items) }
    ensures left { OnErr result (more.new.items ≡ more.old.items) }
{
    items.append(more)?;
    Ok(())
}

/// Moves items over short rows after others of either kind. An `Err` changes nothing.
fn append_short(
    alloc: Global,
    items: &mut AnyItems,
    more: &mut Vec<Item<ShortRow>>,
) -> Result<(), Memory>
    ensures ok { OnOk result (items_in items.new ≡ items_in items.old ++ more.old.items) }
    ensures moved { OnOk result (more.new.items ≡ []) }
    ensures err { OnErr result (items_in items.new ≡ items_in items.old) }
    ensures left { OnErr result (more.new.items ≡ more.old.items) }
{
    match items {
        AnyItems::Short(items) => append(items, more),
        AnyItems::Wide(items) => {
            let mut wide = all_widened(alloc, more.as_slice())?;
            append(items, &mut wide)?;
            more.clear();
            Ok(())
        }
    }
}

/// Moves items over wide rows after others of either kind. An `Err` changes nothing.
fn append_wide(alloc: Global, items: &mut AnyItems, more: &mut Vec<Item<Row>>) -> Result<(), Memory>
    ensures ok { OnOk result (items_in items.new ≡ items_in items.old ++ more.old.items) }
    ensures moved { OnOk result (more.new.items ≡ []) }
    ensures err { OnErr result (items_in items.new ≡ items_in items.old) }
    ensures left { OnErr result (more.new.items ≡ more.old.items) }
{
    let mut wide = match items {
        AnyItems::Wide(items) => return append(items, more),
        AnyItems::Short(items) => all_widened(alloc, items.as_slice())?,
    };
    append(&mut wide, more)?;
    *items = AnyItems::Wide(wide);
    Ok(())
}

impl Items {
    ghost use Rattle.sn_engine.specs.AnyItems.{items_in};

    /// No item yet. Takes no memory.
    pub fn new(alloc: Global) -> Items
        ensures { result ≡ [] }
    {
        Items {
            alloc,
            held: AnyItems::Short(Vec::new(alloc)),
        }
    }

    /// These items.
    pub(crate) fn of(alloc: Global, held: AnyItems) -> Items
        ensures { result ≡ items_in held }
    {
        Items { alloc, held }
    }

    /// Adds an item after the others.
    pub fn push<R: LaneRow>(&mut self, item: &Item<R>) -> Result<(), Memory>
        ensures ok { OnOk result (self.new ≡ self.old ++ item_by R.columns item.now ∷ []) }
        ensures err { OnErr result (self.new ≡ self.old) }
    {
        R::push_to(self.alloc, item, &mut self.held)
    }

    /// Moves all items of another list after these. Where there are none yet, the lists change places, so that both keep a room. An `Err`
    /// changes nothing.
    pub(crate) fn append(&mut self, from: &mut Items) -> Result<(), Memory>
        ensures ok { OnOk result (self.new ≡ self.old ++ from.old) }
        ensures moved { OnOk result (from.new ≡ []) }
        ensures err { OnErr result (self.new ≡ self.old) }
        ensures left { OnErr result (from.new ≡ from.old) }
    {
        if self.len() == 0 {
            mem::swap(&mut self.held, &mut from.held);
            return Ok(());
        }
        match &mut from.held {
            AnyItems::Short(more) => append_short(self.alloc, &mut self.held, more),
            AnyItems::Wide(more) => append_wide(self.alloc, &mut self.held, more),
        }
    }

    /// Gives the tag to the items that stand after its operator. Takes no memory.
    pub(crate) fn turn(&mut self, held: Option<Tag>)
        ensures { self.new ≡ map (turn held) self.old }
    {
        if let Some(tag) = held {
            match &mut self.held {
                AnyItems::Short(items) => turn_all(items, tag),
                AnyItems::Wide(items) => turn_all(items, tag),
            }
        }
    }

    /// How many items there are.
    pub fn len(&self) -> usize
        ensures { result ≡ length self.now }
    {
        match &self.held {
            AnyItems::Short(items) => items.as_slice().len(),
            AnyItems::Wide(items) => items.as_slice().len(),
        }
    }

    /// Drops all items. Their room is kept.
    pub fn clear(&mut self)
        ensures { self.new ≡ [] }
    {
        match &mut self.held {
            AnyItems::Short(items) => items.clear(),
            AnyItems::Wide(items) => items.clear(),
        }
    }

    /// The items, over rows of their kind.
    pub fn kind(&self) -> &AnyItems
        ensures { items_in result.now ≡ self.now }
    {
        &self.held
    }
}
