//! Rows of a kind that is known, among items of either kind.
ghost use Rattle.std.specs.Prelude.{◌≡◌, ◌++◌, ◌∷◌, [], IfOk, IfSome, OnOk, OnErr};
ghost use Rattle.sn_engine.specs.AnyItems.{items_in};
ghost use Rattle.sn_report.specs.Items.{item_by};

use crate::items::AnyItems;
use sn_base::any_row::AnyRow;
use sn_base::memory::Memory;
use sn_base::row::Row;
use sn_base::short_row::ShortRow;
use sn_report::frame::Item;
use std::alloc::Global;

/// A row of a kind that is known, among items of either kind.
pub trait LaneRow: AnyRow {
    /// Adds an item after others of either kind. Where it fits none of their rows, all are made wide.
    fn push_to(alloc: Global, item: &Item<Self>, items: &mut AnyItems) -> Result<(), Memory>
        ensures ok { OnOk result (items_in items.new ≡ items_in items.old ++ item_by Self.columns item.now ∷ []) }
        ensures err { OnErr result (items_in items.new ≡ items_in items.old) };
}

/// The row as a short one, if each of its columns has 64 bits.
pub(crate) fn narrow(row: &Row) -> Option<ShortRow>
    ensures { IfSome result (λ short. short ≡ row.now) }
{
    let mut short = ShortRow::empty();
    for column in row.as_slice() {
        let Ok(word) = u64::try_from(*column) else {
            return None;
        };
        short.push(word);
    }
    Some(short)
}

/// Adds an item.
fn add_item<R: Drop>(items: &mut Vec<Item<R>>, item: Item<R>) -> Result<(), Memory>
    ensures ok { OnOk result (items.new.items ≡ items.old.items ++ item ∷ []) }
    ensures err { OnErr result (items.new.items ≡ items.old.items) }
{
    items.push(item)?;
    Ok(())
}

/// The item over a wide row.
fn widened(item: &Item<ShortRow>) -> Item<Row>
    ensures { result ≡ item.now }
{
    Item {
        tag: item.tag,
        row: Row::of_short(&item.row),
    }
}

/// The items over wide rows.
pub(crate) fn all_widened(alloc: Global, items: &[Item<ShortRow>]) -> Result<Vec<Item<Row>>, Memory>
    ensures { IfOk result (λ wide. wide.items ≡ items.now) }
{
    let mut wide = Vec::new(alloc);
    for item in items {
        wide.push(widened(item))?;
    }
    Ok(wide)
}

/// Makes a row without columns a copy of another. The first columns are read one by one, each as it was written: two that are read at
/// once right after they were written one by one are waited for until they have reached the processor's cache.
#[tactic(auto, using(crate::proofs::FewColumns::no_column, crate::proofs::FewColumns::one_column, crate::proofs::FewColumns::two_columns, crate::proofs::FewColumns::three_columns))]
fn fill_row(row: &mut ShortRow, from: &ShortRow)
    requires { row.old ≡ [] }
    ensures { row.new ≡ from.now }
{
    let Some(first) = from.get(0) else {
        return;
    };
    row.push(first);
    let Some(second) = from.get(1) else {
        return;
    };
    row.push(second);
    let Some(third) = from.get(2) else {
        return;
    };
    row.push(third);
    if from.len() != 3 {
        *row = *from;
    }
}

/// Adds an item over a short row, which is written in its place: a row made elsewhere would be read again right after.
fn push_short(items: &mut Vec<Item<ShortRow>>, item: &Item<ShortRow>) -> Result<(), Memory>
    ensures ok { OnOk result (items.new.items ≡ items.old.items ++ item.now ∷ []) }
    ensures err { OnErr result (items.new.items ≡ items.old.items) }
{
    let last = items.len();
    items.push(Item {
        tag: item.tag,
        row: ShortRow::empty(),
    })?;
    fill_row(&mut items[last].row, &item.row);
    Ok(())
}

impl LaneRow for ShortRow {
    fn push_to(_alloc: Global, item: &Item<ShortRow>, items: &mut AnyItems) -> Result<(), Memory> {
        match items {
            AnyItems::Short(items) => push_short(items, item),
            AnyItems::Wide(items) => add_item(items, widened(item)),
        }
    }
}

impl LaneRow for Row {
    fn push_to(alloc: Global, item: &Item<Row>, items: &mut AnyItems) -> Result<(), Memory> {
        let mut wide = match items {
            AnyItems::Wide(items) => return add_item(items, *item),
            AnyItems::Short(items) => match narrow(&item.row) {
                Some(row) => return add_item(items, Item { tag: item.tag, row }),
                None => all_widened(alloc, items.as_slice())?,
            },
        };
        wide.push(*item)?;
        *items = AnyItems::Wide(wide);
        Ok(())
    }
}
