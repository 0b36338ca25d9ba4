//! The counts of a window.
ghost use Rattle.std.specs.Prelude.{◌≡◌, ℕ, ◌<◌, ◌≤◌, ◌+◌, length, nat_eq, option_copied, true, IfOk, OnOk};
ghost use Rattle.std.specs.List.{list_any};
ghost use Rattle.sn_plan_choices.specs.Costs.{HasPlaces};
ghost use Rattle.sn_cost.specs.Adding.{Adds, AreSmall, HasRoom, kept_counts, of_branches, with_fee};
ghost use Rattle.sn_cost_counts.specs.Standing.{ArePacked, IsPacked};
ghost use Rattle.sn_ops.specs.Packets.{OfALevel};
ghost use Rattle.sn_switch.specs.Texts.{IsSwitch};
ghost use Rattle.sn_types.specs.Kinds.{AreBelow};
ghost use Rattle.sn_types.specs.Typed.{branch_at, query_at};
ghost use Rattle.sn_windows.specs.Blocks.{most_records};

use crate::adding::add_counts;
use crate::registers::registers;
use sn_base::any_row::AnyRow;
use sn_base::memory::Memory;
use sn_base::row::Row;
use sn_base::seq::Seq;
use sn_base::short_row::ShortRow;
use sn_cost_counts::branch::counts_of;
use sn_cost_counts::branch_at::BranchAt;
use sn_cost_tally::firsts::Firsts;
use sn_cost_tally::room::Room;
use sn_fields::tuple::Tuple;
use sn_ops::packets::Kept;
use sn_plan_choices::costs::CostTable;
use sn_plan_choices::setting::options;
use sn_switch::switch::Switch;
use sn_types::typed::Typed;

/// The counts of a branch at a level, over the tuples of a window that are kept, whose packet rows are of a kind.
fn counts_over<R: AnyRow>(
    room: &mut Room,
    t: &Typed,
    s: &Switch,
    q: u32,
    b: u32,
    level: u32,
    kept: Option<Kept>,
    tuples: &[Tuple],
    packed: Option<&Firsts>,
) -> Result<Seq<u64>, Memory>
    requires switch { IsSwitch s.now }
    requires query { q < length t.now.queries }
    requires branch { b < length (query_at t.now.queries q).branches }
    requires level { list_any (nat_eq level) (query_at t.now.queries q).levels ≡ true }
    requires kept { OfALevel (query_at t.now.queries q) kept }
    requires below { AreBelow R.Number.limit (branch_at t.now.queries q b).fields }
    requires few { length tuples.now ≤ most_records }
    requires packed { IsPacked (query_at t.now.queries q) b tuples.now (option_copied packed) }
    ensures counts { IfOk result (λ counts. counts ≡ kept_counts s.now (query_at t.now.queries q) level kept.entry tuples.now b) }
    ensures small { IfOk result (λ counts. AreSmall counts) }
{
    let at = BranchAt {
        t,
        q,
        b,
        level,
        kept,
        tuples,
    };
    counts_of::<R>(room, &at, &registers(s), packed)
}

/// The counts of a branch at a level, over the tuples of a window that are kept. Its packet rows are short where it isn't wide: that
/// is asked once, and then no row is.
fn kept_counts(
    room: &mut Room,
    t: &Typed,
    s: &Switch,
    q: u32,
    b: u32,
    level: u32,
    kept: Option<Kept>,
    tuples: &[Tuple],
    packed: Option<&Firsts>,
) -> Result<Seq<u64>, Memory>
    requires switch { IsSwitch s.now }
    requires query { q < length t.now.queries }
    requires branch { b < length (query_at t.now.queries q).branches }
    requires level { list_any (nat_eq level) (query_at t.now.queries q).levels ≡ true }
    requires kept { OfALevel (query_at t.now.queries q) kept }
    requires few { length tuples.now ≤ most_records }
    requires packed { IsPacked (query_at t.now.queries q) b tuples.now (option_copied packed) }
    ensures counts { IfOk result (λ counts. counts ≡ kept_counts s.now (query_at t.now.queries q) level kept.entry tuples.now b) }
    ensures small { IfOk result (λ counts. AreSmall counts) }
{
    if t.is_wide(q, b) {
        counts_over::<Row>(room, t, s, q, b, level, kept, tuples, packed)
    } else {
        counts_over::<ShortRow>(room, t, s, q, b, level, kept, tuples, packed)
    }
}

/// Adds the counts of all branches at a level, over the tuples of a window that are kept, each with a fee, to their entries at a front.
pub(crate) fn add_branches(
    room: &mut Room,
    t: &Typed,
    s: &Switch,
    q: u32,
    prefix: u32,
    level: u32,
    kept: Option<Kept>,
    tuples: &[Tuple],
    packed: &[Option<Firsts>],
    fee: u64,
    table: &mut CostTable,
) -> Result<(), Memory>
    requires switch { IsSwitch s.now }
    requires query { q < length t.now.queries }
    requires level { list_any (nat_eq level) (query_at t.now.queries q).levels ≡ true }
    requires kept { OfALevel (query_at t.now.queries q) kept }
    requires few { length tuples.now ≤ most_records }
    requires packed { ArePacked (query_at t.now.queries q) tuples.now packed.now }
    requires places { HasPlaces table.old (q + 1) }
    requires prefix { prefix < 16 }
    requires room { (b : ℕ) → b < 2 → HasRoom table.old q prefix b fee }
    ensures small { let query = query_at t.now.queries q in OnOk result ((b : ℕ) → b < length query.branches →
        AreSmall (kept_counts s.now query level kept.entry tuples.now b)) }
    ensures adds { let query = query_at t.now.queries q in OnOk result
        (Adds table.old table.new (of_branches q prefix (length query.branches) (λ b. with_fee fee (kept_counts s.now query level kept.entry tuples.now b)))) }
{
    for b in 0..t.branches(q) {
        let own = packed[b as usize].as_ref();
        let counts = kept_counts(room, t, s, q, b, level, kept, tuples, own)?;
        add_counts(
            table,
            q,
            prefix,
            b,
            options(t, s, q, b),
            counts.as_slice(),
            fee,
        );
    }
    Ok(())
}
