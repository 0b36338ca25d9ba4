//! The text of a cost table, a line for each entry.
ghost use Rattle.std.specs.Prelude.{◌≡◌, ◌≤◌, ◌<◌, ◌+◌, ◌++◌, ◌^◌, codes, length, take, IfOk, OnOk};
ghost use Rattle.sn_cost.specs.Entries.{front_of};
ghost use Rattle.sn_plan_choices.specs.Costs.{HasPlaces, entry_in};
ghost use Rattle.sn_switch.specs.Texts.{IsSwitch};
ghost use Rattle.sn_types.specs.Typed.{branch_at, query_at};
ghost use Rattle.sonata_entries.specs.Table.{branches_text, entry_text, fronts_text, list_text, options_text, table_text};

use sn_base::bytes::push_bytes;
use sn_base::memory::Memory;
use sn_base::seq::Seq;
use sn_out::pieces::push_number;
use sn_plan_choices::costs::CostTable;
use sn_plan_choices::setting::{Setting, branch_option, options};
use sn_switch::switch::Switch;
use sn_types::typed::Typed;
use std::alloc::Global;

/// Adds words and then numbers, with a comma and a space between these. Without a number it adds nothing.
fn push_list(text: &mut Vec<u8>, words: &[u8], numbers: &[u32]) -> Result<(), Memory>
    ensures { OnOk result (text.new.items ≡ text.old.items ++ list_text words.now numbers.now) }
{
    let mut between = words;
    for number in numbers {
        push_bytes(text, between)?;
        push_number(text, u64::from(*number))?;
        between = b", ".as_slice();
    }
    Ok(())
}

/// Adds the line of an entry: the query, the levels of the path up to the piece, its branch, its cut, the sizes of its registers and what
/// it costs.
fn push_entry(
    text: &mut Vec<u8>,
    name: &[u8],
    levels: &[u32],
    b: u32,
    option: Setting,
    cost: u64,
) -> Result<(), Memory>
    requires { option.used ≤ 2 }
    ensures { OnOk result (text.new.items ≡ text.old.items ++ entry_text name.now levels.now b (option.cut, take option.used option.sizes) cost) }
{
    push_bytes(text, name)?;
    push_list(text, b" levels ", levels)?;
    push_bytes(text, b" branch ")?;
    push_number(text, u64::from(b))?;
    push_bytes(text, b" cut ")?;
    push_number(text, u64::from(option.cut))?;
    push_list(text, b" slots ", &option.sizes[..option.used as usize])?;
    push_bytes(text, b" cost ")?;
    push_number(text, cost)?;
    push_bytes(text, b"\n")
}

/// Adds the entries of a branch at a front, by its options.
fn push_options(
    text: &mut Vec<u8>,
    t: &Typed,
    s: &Switch,
    table: &CostTable,
    q: u32,
    front: u32,
    levels: &[u32],
    b: u32,
) -> Result<(), Memory>
    requires switch { IsSwitch s.now }
    requires places { HasPlaces table.now (q + 1) }
    requires query { q < length t.now.queries }
    requires front { front < 16 }
    requires levels { levels.now ≡ front_of front (query_at t.now.queries q).levels }
    requires branch { b < length (query_at t.now.queries q).branches }
    ensures { OnOk result (text.new.items ≡ text.old.items ++ options_text s.now (entry_in table.now) t.now.queries q front b) }
{
    let name = t.name(q);
    for n in 0..options(t, s, q, b) {
        let option = branch_option(s, t.branch(q, b), n);
        let cost = table.entry(q, front, b, n);
        push_entry(text, name.as_bytes(), levels, b, option, cost)?;
    }
    Ok(())
}

/// The levels of a front of a path: of these levels those whose bit is set in its number.
fn levels_of(alloc: Global, levels: &[u32], front: u32) -> Result<Seq<u32>, Memory>
    ensures { IfOk result (λ found. found ≡ front_of front levels.now) }
{
    let mut found = Seq::new(alloc);
    let mut bits = front;
    for level in levels {
        if bits % 2 == 1 {
            found.push(*level)?;
        }
        bits /= 2;
    }
    Ok(found)
}

/// Adds the entries of a front, branch by branch.
fn push_branches(
    text: &mut Vec<u8>,
    t: &Typed,
    s: &Switch,
    table: &CostTable,
    q: u32,
    front: u32,
) -> Result<(), Memory>
    requires switch { IsSwitch s.now }
    requires places { HasPlaces table.now (q + 1) }
    requires query { q < length t.now.queries }
    requires front { front < 16 }
    ensures { OnOk result (text.new.items ≡ text.old.items ++ branches_text s.now (entry_in table.now) t.now.queries q front) }
{
    let levels = levels_of(t.alloc, t.levels(q), front)?;
    for b in 0..t.branches(q) {
        push_options(text, t, s, table, q, front, levels.as_slice(), b)?;
    }
    Ok(())
}

/// Adds the entries of a query, front by front.
fn push_fronts(
    text: &mut Vec<u8>,
    t: &Typed,
    s: &Switch,
    table: &CostTable,
    q: u32,
) -> Result<(), Memory>
    requires switch { IsSwitch s.now }
    requires places { HasPlaces table.now (q + 1) }
    requires query { q < length t.now.queries }
    ensures { OnOk result (text.new.items ≡ text.old.items ++ fronts_text s.now (entry_in table.now) t.now.queries q) }
{
    for front in 1..1u32 << t.levels(q).len() {
        push_branches(text, t, s, table, q, front)?;
    }
    Ok(())
}

/// The text of a cost table of these queries and this switch.
///
/// # Errors
/// Out of memory.
pub fn table_text(t: &Typed, s: &Switch, table: &CostTable) -> Result<Seq<u8>, Memory>
    requires switch { IsSwitch s.now }
    requires places { HasPlaces table.now (length t.now.queries) }
    ensures { IfOk result (λ text. text ≡ table_text s.now (entry_in table.now) t.now.queries) }
{
    let mut text = Vec::new(t.alloc);
    for q in 0..t.queries() {
        push_fronts(&mut text, t, s, table, q)?;
    }
    Ok(Seq::from_vec(text))
}
