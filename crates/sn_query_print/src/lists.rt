//! Lists of items.
ghost use Rattle.std.specs.Prelude.{◌≡◌, List, ◌∷◌, OnOk};
ghost use Rattle.sn_text_rules.specs.declared.symbols.TheConstants.{COMMA};
ghost use Rattle.sn_text_rules.specs.Tokens.{Mark, plain, symbol};
ghost use Rattle.sn_text_rules.specs.Rules.{items_spelled};
ghost use Rattle.sn_query_print.specs.Printing.{state, puts, list_spelled};

use crate::printer::Printer;
use sn_base::memory::Memory;
use std::alloc::Global;

/// The items of a list, and how each is written.
pub(crate) trait Shown {
    type Item;

    ghost spell: { Self.Item → List Mark };

    /// Writes an item.
    fn put(alloc: Global, item: &Self::Item, out: &mut Printer) -> Result<(), Memory>
        ensures { OnOk result (state out.new ≡ puts (state out.old) (spell item.now)) };
}

/// Writes items one after the other.
pub(crate) fn put_each<S: Shown>(
    alloc: Global,
    items: &[S::Item],
    out: &mut Printer,
) -> Result<(), Memory>
    ensures { OnOk result (state out.new ≡ puts (state out.old) (items_spelled S.spell items.now)) }
{
    for item in items {
        S::put(alloc, item, out)?;
    }
    Ok(())
}

fn put_more<S: Shown>(alloc: Global, items: &[S::Item], out: &mut Printer) -> Result<(), Memory>
    ensures { OnOk result (state out.new ≡ puts (state out.old) (items_spelled (λ item. plain (symbol COMMA) ∷ S.spell item) items.now)) }
{
    for item in items {
        out.symbol(3)?;
        S::put(alloc, item, out)?;
    }
    Ok(())
}

/// Writes items with commas between them.
pub(crate) fn put_list<S: Shown>(
    alloc: Global,
    items: &[S::Item],
    out: &mut Printer,
) -> Result<(), Memory>
    ensures { OnOk result (state out.new ≡ puts (state out.old) (list_spelled S.spell items.now)) }
{
    match items {
        [] => Ok(()),
        [first, rest @ ..] => {
            S::put(alloc, first, out)?;
            put_more::<S>(alloc, rest, out)?;
            Ok(())
        }
    }
}
