//! A window at a front of a query.
ghost use Rattle.std.specs.Prelude.{◌≡◌, ℕ, ◌<◌, ◌≤◌, ◌+◌, ◌-◌, ◌*◌, ◌^◌, length, nat_eq, true, IfOk, OnOk};
ghost use Rattle.std.specs.List.{list_any};
ghost use Rattle.std.specs.FinSet as set;
ghost use Rattle.sn_base.specs.Sorted.{sorted_rows};
ghost use Rattle.sn_plan_choices.specs.Costs.{HasPlaces};
ghost use Rattle.sn_cost.specs.Adding.{Adds, AreSmall, HasRoom, kept_counts, of_branches, with_fee};
ghost use Rattle.sn_cost.specs.Training.{AddsFront, HasFrontRoom, IsNext, admitted, answered_by, fee_of, kept_size, sees_nothing, stays_open};
ghost use Rattle.sn_cost_counts.specs.Standing.{ArePacked};
ghost use Rattle.sn_engine_split.specs.Opened.{is_open};
ghost use Rattle.sn_ops.specs.Packets.{OfALevel};
ghost use Rattle.sn_ops.specs.Plain.{query_rows};
ghost use Rattle.sn_refine.specs.Refined.{Windows};
ghost use Rattle.sn_refine.specs.Steps.{prefixes_of};
ghost use Rattle.sn_switch.specs.Texts.{IsSwitch};
ghost use Rattle.sn_types.specs.Typed.{query_at};
ghost use Rattle.sn_windows.specs.Rising.{IsAbove};
ghost use Rattle.sn_windows.specs.Blocks.{most_records};

use crate::branches::add_branches;
use crate::fronts::Fronts;
use crate::rows::add_query_rows;
use sn_base::members::Members;
use sn_base::memory::Memory;
use sn_cost_tally::firsts::Firsts;
use sn_cost_tally::room::Room;
use sn_fields::tuple::Tuple;
use sn_ops::lists::plain_list;
use sn_ops::packets::Kept;
use sn_plan_choices::costs::CostTable;
use sn_refine::members::members;
use sn_switch::switch::Switch;
use sn_types::answers::AnswerRows;
use sn_types::typed::Typed;

/// Whether a table with this many entries stays open, since there are more prefixes.
fn is_open(entries: Option<u32>, members: &Members) -> bool
    ensures { result ≡ is_open entries members.now }
{
    match entries {
        Some(entries) => (entries as u64) < members.len(),
        None => false,
    }
}

/// Whether a table with this many entries stays open for these prefixes.
fn stays_open(entries: Option<u32>, kept: Option<Kept>) -> bool
    ensures { result ≡ stays_open entries kept.entry }
{
    match kept {
        Some(kept) => is_open(entries, kept.members),
        None => false,
    }
}

/// The prefixes by which a table with this many entries admits tuples. It admits all where it stays open.
fn admitted<'a>(entries: Option<u32>, kept: Option<Kept<'a>>) -> Option<Kept<'a>>
    ensures { result ≡ admitted entries kept.entry }
{
    let Some(kept) = kept else {
        return None;
    };
    if is_open(entries, kept.members) {
        return None;
    }
    Some(kept)
}

/// Whether a level sees no tuple of any window, since no prefix is kept.
fn sees_nothing(kept: Option<Kept>) -> bool
    ensures { result ≡ sees_nothing kept.entry }
{
    match kept {
        Some(kept) => kept.members.len() == 0,
        None => false,
    }
}

/// What installed prefixes cost.
fn fee_of(s: &Switch, installed: Option<Kept>) -> u64
    requires { fee_of s.now installed ≤ 2 ^ 56 }
    ensures { result ≡ fee_of s.now installed.entry }
{
    match installed {
        Some(kept) => s.weight as u64 * kept.members.len(),
        None => 0,
    }
}

/// Adds the counts of a window at a level to the entries of a front, of the tuples that a table admits by the prefixes that are kept.
fn count_front(
    room: &mut Room,
    t: &Typed,
    s: &Switch,
    q: u32,
    front: u32,
    level: u32,
    kept: Option<Kept>,
    tuples: &[Tuple],
    packed: &[Option<Firsts>],
    table: &mut CostTable,
) -> Result<(), Memory>
    requires switch { IsSwitch s.now }
    requires query { q < length t.now.queries }
    requires level { list_any (nat_eq level) (query_at t.now.queries q).levels ≡ true }
    requires kept { OfALevel (query_at t.now.queries q) kept }
    requires few { length tuples.now ≤ most_records }
    requires packed { ArePacked (query_at t.now.queries q) tuples.now packed.now }
    requires places { HasPlaces table.old (q + 1) }
    requires front { front < 16 }
    requires room { (b : ℕ) → b < 2 → HasRoom table.old q front b (s.now.weight * kept_size kept) }
    ensures small { let query = query_at t.now.queries q in OnOk result ((b : ℕ) → b < length query.branches →
        AreSmall (kept_counts s.now query level (admitted s.now.entries kept.entry) tuples.now b)) }
    ensures adds { let query = query_at t.now.queries q in let installed = admitted s.now.entries kept.entry in OnOk result
        (Adds table.old table.new (of_branches q front (length query.branches) (λ b. with_fee (fee_of s.now installed) (kept_counts s.now query level installed tuples.now b)))) }
{
    let installed = admitted(s.entries, kept);
    let fee = fee_of(s, installed);
    add_branches(
        room, t, s, q, front, level, installed, tuples, packed, fee, table,
    )
}

/// The prefixes that a level answers of the tuples of a window that are kept.
fn answered(
    t: &Typed,
    q: u32,
    level: u32,
    kept: Option<Kept>,
    tuples: &[Tuple],
) -> Result<Members, Memory>
    requires query { q < length t.now.queries }
    requires level { list_any (nat_eq level) (query_at t.now.queries q).levels ≡ true }
    requires kept { OfALevel (query_at t.now.queries q) kept }
    ensures { let query = query_at t.now.queries q in IfOk result
        (λ answered. answered ≡ prefixes_of query (sorted_rows (query_rows query level kept.entry tuples.now))) }
{
    let rows = plain_list(t.alloc, t, q, level, kept, tuples)?;
    members(t.alloc, t, q, &AnswerRows::sorted(rows)?)
}

/// Adds the counts of a window at a level to the entries of a front, of the tuples that a table admits by the prefixes that are kept, and
/// gives the prefixes that the level answers of the tuples that are kept. Unless the table stays open these are the same tuples, and one
/// pass over them finds both.
fn count_and_answer(
    room: &mut Room,
    t: &Typed,
    s: &Switch,
    q: u32,
    front: u32,
    level: u32,
    kept: Option<Kept>,
    tuples: &[Tuple],
    packed: &[Option<Firsts>],
    table: &mut CostTable,
) -> Result<Members, Memory>
    requires switch { IsSwitch s.now }
    requires query { q < length t.now.queries }
    requires level { list_any (nat_eq level) (query_at t.now.queries q).levels ≡ true }
    requires kept { OfALevel (query_at t.now.queries q) kept }
    requires few { length tuples.now ≤ most_records }
    requires packed { ArePacked (query_at t.now.queries q) tuples.now packed.now }
    requires places { HasPlaces table.old (q + 1) }
    requires front { front < 16 }
    requires room { (b : ℕ) → b < 2 → HasRoom table.old q front b (s.now.weight * kept_size kept) }
    ensures small { let query = query_at t.now.queries q in OnOk result ((b : ℕ) → b < length query.branches →
        AreSmall (kept_counts s.now query level (admitted s.now.entries kept.entry) tuples.now b)) }
    ensures adds { let query = query_at t.now.queries q in let installed = admitted s.now.entries kept.entry in OnOk result
        (Adds table.old table.new (of_branches q front (length query.branches) (λ b. with_fee (fee_of s.now installed) (kept_counts s.now query level installed tuples.now b)))) }
    ensures answers { let query = query_at t.now.queries q in IfOk result
        (λ answered. answered ≡ prefixes_of query (sorted_rows (query_rows query level kept.entry tuples.now))) }
{
    if stays_open(s.entries, kept) {
        count_front(room, t, s, q, front, level, kept, tuples, packed, table)?;
        return answered(t, q, level, kept, tuples);
    }
    let fee = fee_of(s, kept);
    let rows = add_query_rows(
        room, t, s, q, front, level, kept, tuples, packed, fee, table,
    )?;
    members(t.alloc, t, q, &AnswerRows::sorted(rows)?)
}

/// Adds the counts of a window at a front to its entries, and gives the prefixes that the front answers. Its last level sees the tuples whose
/// prefix the front without that level answered in the window before. Where there is none it sends nothing and answers nothing. No one asks what
/// the finest level answers.
pub(crate) fn add_front(
    room: &mut Room,
    t: &Typed,
    s: &Switch,
    q: u32,
    front: u32,
    fronts: &Fronts,
    w: u64,
    tuples: &[Tuple],
    packed: &[Option<Firsts>],
    table: &mut CostTable,
) -> Result<Members, Memory>
    requires switch { IsSwitch s.now }
    requires query { q < length t.now.queries }
    requires some { 0 < front }
    requires front { front < 2 ^ length (query_at t.now.queries q).levels }
    requires above { IsAbove fronts.now.last w }
    requires few { length tuples.now ≤ most_records }
    requires packed { ArePacked (query_at t.now.queries q) tuples.now packed.now }
    requires places { HasPlaces table.old (q + 1) }
    requires room { HasFrontRoom table.old q front s.now.weight fronts.now.sets }
    ensures adds { OnOk result (AddsFront s.now q (query_at t.now.queries q) front fronts.now.last fronts.now.sets w tuples.now table.old table.new) }
    ensures few { IfOk result (λ answered. set.len answered ≤ length tuples.now) }
    ensures answers { let query = query_at t.now.queries q in IfOk result (λ answered. (windows : Windows) →
        IsNext query windows fronts.now.last fronts.now.sets w tuples.now → front < 2 ^ (length query.levels - 1) → answered ≡ answered_by query windows front w) }
{
    let levels = t.levels(q);
    let top = front.ilog2();
    let level = levels[top as usize];
    let none = Members::new(t.alloc);
    let kept = fronts.kept_after(levels, front - (1 << top), w, &none);
    if sees_nothing(kept) {
        return Ok(Members::new(t.alloc));
    }
    if top as usize + 1 == levels.len() {
        count_front(room, t, s, q, front, level, kept, tuples, packed, table)?;
        return Ok(Members::new(t.alloc));
    }
    count_and_answer(room, t, s, q, front, level, kept, tuples, packed, table)
}
