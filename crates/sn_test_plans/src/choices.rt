//! Plans, their choices and their costs.
ghost use Rattle.std.specs.Prelude.{IfSome, length};
ghost use Rattle.sn_switch.specs.Texts.{IsSwitch};
ghost use Rattle.sn_plan_fit.specs.Fits.{Fits};
ghost use Rattle.sn_plan_choices.specs.Costs.{HasPlaces};

use crate::texts::{COUNTS, DEEP, FIVE, JOINED, NARROW, REFINED, TWO, plan, queries, switch};
use sn_base::seq::Seq;
use sn_plan::print;
use sn_plan_choices::costs::CostTable;
use sn_plan_fit::fits;
use sn_plan_grammar::plan::Plan;
use sn_plan_lists::choosing::choices_of;
use sn_plan_lists::costing::cost_of;
use sn_plan_lists::naming::plan_of;
use sn_switch::switch::Switch;
use sn_types::typed::Typed;

/// What the pieces of branch 0 cost: of a query, a front, and an option.
type Count = (u32, u32, u32, u64);

/// Writes an entry, if it has a place.
fn put(t: &Typed, table: &mut CostTable, count: Count)
    requires { HasPlaces table.old (length t.now.queries) }
    ensures { HasPlaces table.new (length t.now.queries) }
{
    if count.0 >= t.queries() || count.1 >= 16 || count.2 >= 256 || count.3 >= 100 {
        return;
    }
    table.set(count.0, count.1, 0, count.2, count.3);
}

/// A table with these entries, and 0 elsewhere.
fn table(t: &Typed, s: &Switch, counts: &[Count]) -> Option<CostTable>
    ensures { IfSome result (λ table. HasPlaces table (length t.now.queries)) }
{
    let mut table = CostTable::make(t, s).ok()?;
    for count in counts {
        put(t, &mut table, *count);
    }
    Some(table)
}

/// The choices of a plan, the text of the plan that they name, and the plan's cost.
#[derive(Drop)]
struct Reported {
    choices: Seq<u32>,
    text: Seq<u8>,
    cost: u64,
}

fn tell(t: &Typed, s: &Switch, plan: &Plan, counts: &[Count]) -> Option<Reported>
    requires switch { IsSwitch s.now }
    requires fits { Fits t.now.queries s.now plan.now.entries }
{
    let table = table(t, s, counts)?;
    let choices = choices_of(t, s, plan).ok()?;
    let named = plan_of(t, s, choices.as_slice()).ok()?;
    Some(Reported {
        choices,
        text: print(t.alloc, &named).ok()?,
        cost: cost_of(t, s, &table, plan),
    })
}

/// What is reported of these texts. `None` where one of them isn't read, or the plan doesn't fit.
fn answer(
    rt: &HostRuntime,
    queries_text: &[u8],
    switch_text: &[u8],
    plan_text: &[u8],
    counts: &[Count],
) -> Option<Reported> {
    let typed = queries(rt.alloc(), queries_text)?;
    let switch = switch(rt.alloc(), switch_text)?;
    let plan = plan(rt.alloc(), plan_text)?;
    match fits(&typed, &switch, &plan) {
        Ok(()) => tell(&typed, &switch, &plan, counts),
        Err(_) => None,
    }
}

/// Whether these choices are those of the plan, and name it again.
fn names(
    rt: &HostRuntime,
    queries_text: &[u8],
    switch_text: &[u8],
    plan_text: &[u8],
    want: &[u32],
) -> bool {
    match answer(rt, queries_text, switch_text, plan_text, &[]) {
        None => false,
        Some(reported) => reported.choices.as_slice() == want
            && reported.text.as_slice() == plan_text,
    }
}

#[test]
fn chooses_for_two_queries(rt: HostRuntime) {
    let text =
        b"plan\nquery a path 0;\npiece 0 0 cut 2 slots 1 stages 1;\nquery b path 0;\npiece 0 0 cut 0;\n";
    let counts = [
        (0, 1, 0, 5),
        (0, 1, 1, 5),
        (0, 1, 2, 1),
        (1, 1, 0, 5),
        (1, 1, 1, 5),
        (1, 1, 2, 3),
    ];
    let reported = answer(&rt, TWO, NARROW, text, &counts).expect(&rt, "a plan that fits");
    assert_eq!(rt; reported.choices.as_slice(), [0, 2, 1, 0, 0].as_slice());
    assert_eq!(rt; reported.text.as_slice(), text.as_slice());
    assert_eq!(rt; reported.cost, 6);
}

#[test]
fn chooses_stages(rt: HostRuntime) {
    let one = b"plan\nquery q path 0;\npiece 0 0 cut 2 slots 1 stages 1;\n";
    assert!(rt; names(&rt, COUNTS, FIVE, one, &[0, 2, 1]));
    let two = b"plan\nquery q path 0;\npiece 0 0 cut 5 slots 1, 1 stages 1, 3;\n";
    assert!(rt; names(&rt, DEEP, FIVE, two, &[0, 5, 1, 3]));
    let chains = b"plan\nquery q path 0;\npiece 0 0 cut 2 slots 1 stages 1, 2;\n";
    let switch = b"stages 4; actions 2; bits 1000; meta 1000; chain 2; slots 1;";
    assert!(rt; names(&rt, COUNTS, switch, chains, &[0, 2, 1, 2]));
}

#[test]
fn chooses_sizes(rt: HostRuntime) {
    let plan = b"plan\nquery q path 0;\npiece 0 0 cut 4 slots 4, 1 stages 1, 3;\n";
    let switch = b"stages 5; actions 2; bits 1000; meta 1000; chain 1; slots 1, 4;";
    // Cuts 0 and 1 have one option each, cuts 2 and 3 two each, and in cut 4 the sizes 4 and 1 come after 1 and 1, and 1 and 4.
    assert!(rt; names(&rt, DEEP, switch, plan, &[0, 8, 1, 3]));
}

#[test]
fn chooses_levels(rt: HostRuntime) {
    let counts = [
        (0, 1, 0, 4),
        (0, 1, 2, 2),
        (0, 2, 0, 4),
        (0, 2, 2, 2),
        (0, 3, 0, 2),
        (0, 3, 2, 1),
    ];
    let both =
        b"plan\nquery q path 8, 32;\npiece 8 0 cut 2 slots 1 stages 1;\npiece 32 0 cut 2 slots 1 stages 2;\n";
    let reported = answer(&rt, REFINED, FIVE, both, &counts).expect(&rt, "a plan that fits");
    assert_eq!(rt; reported.choices.as_slice(), [1, 2, 1, 2, 2].as_slice());
    assert_eq!(rt; reported.text.as_slice(), both.as_slice());
    assert_eq!(rt; reported.cost, 3);
    let finest = b"plan\nquery q path 32;\npiece 32 0 cut 0;\n";
    let reported = answer(&rt, REFINED, FIVE, finest, &counts).expect(&rt, "a plan that fits");
    assert_eq!(rt; reported.choices.as_slice(), [0, 0].as_slice());
    assert_eq!(rt; reported.text.as_slice(), finest.as_slice());
    assert_eq!(rt; reported.cost, 4);
}

#[test]
fn chooses_for_two_branches(rt: HostRuntime) {
    let text = b"plan\nquery q path 32;\npiece 32 0 cut 0;\npiece 32 1 cut 2 slots 1 stages 1;\n";
    assert!(rt; names(&rt, JOINED, FIVE, text, &[0, 0, 2, 1]));
}
