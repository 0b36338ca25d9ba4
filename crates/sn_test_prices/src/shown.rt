//! What prices show of three small spaces, worked by hand.
ghost use Rattle.std.specs.Prelude.{◌≤◌, IfSome, length};
ghost use Rattle.sn_switch.specs.Texts.{IsSwitch};
ghost use Rattle.sn_plan_choices.specs.Costs.{HasPlaces};

use sn_plan_choices::costs::CostTable;
use sn_prices_bound::bound::bound;
use sn_prices_grammar::prices::Shown;
use sn_switch::switch::Switch;
use sn_types::typed::Typed;
use sn_types_read::read::read;
use std::alloc::Global;

/// What a piece costs: of a query, a front, a branch and an option.
pub(crate) type Count = (u32, u32, u32, u32, u64);

/// Writes an entry, if it has a place.
fn put(t: &Typed, table: &mut CostTable, count: Count)
    requires { HasPlaces table.old (length t.now.queries) }
    ensures { HasPlaces table.new (length t.now.queries) }
{
    if count.0 >= t.queries() || count.1 >= 16 || count.2 >= 2 || count.3 >= 256 || count.4 >= 100 {
        return;
    }
    table.set(count.0, count.1, count.2, count.3, count.4);
}

/// A table with these entries, and 0 elsewhere.
pub(crate) fn table(t: &Typed, s: &Switch, counts: &[Count]) -> Option<CostTable>
    ensures { IfSome result (λ table. HasPlaces table (length t.now.queries)) }
{
    let mut table = CostTable::make(t, s).ok()?;
    for count in counts {
        put(t, &mut table, *count);
    }
    Some(table)
}

pub(crate) fn queries(alloc: Global, text: &[u8]) -> Option<Typed> {
    if text.len() > 1000 {
        return None;
    }
    read(alloc, text).ok()
}

pub(crate) fn switch(alloc: Global, text: &[u8]) -> Option<Switch>
    ensures { IfSome result (λ s. IsSwitch s) }
{
    if text.len() > 1000 {
        return None;
    }
    match sn_switch::parse(alloc, text) {
        Ok(switch) => Some(switch),
        Err(_) => None,
    }
}

fn prices(alloc: Global, text: &[u8]) -> Option<Shown>
    ensures { IfSome result (λ x. length x.prices.limits ≤ 64) }
{
    if text.len() > 1000 {
        return None;
    }
    match sn_prices_text::parse(alloc, text, 0) {
        Ok(shown) => Some(shown),
        Err(_) => None,
    }
}

/// A space: its queries, its switch and what its pieces cost.
#[derive(Drop)]
pub(crate) struct Space<'a> {
    pub(crate) queries: &'a [u8],
    pub(crate) switch: &'a [u8],
    pub(crate) counts: &'a [Count],
}

/// What a text of prices shows of a space. `None` where a text isn't read.
fn shown(rt: &HostRuntime, space: &Space<'_>, text: &[u8]) -> Option<u128> {
    let typed = queries(rt.alloc(), space.queries)?;
    let switch = switch(rt.alloc(), space.switch)?;
    let table = table(&typed, &switch, space.counts)?;
    let shown = prices(rt.alloc(), text)?;
    bound(&typed, &switch, &table, &shown.prices).ok()
}

/// Two queries of which a switch has room for one register, in stage 1.
///
/// Without the switch either costs 5, with its register a costs 1 and b 3.
pub(crate) fn two() -> Space<'static> {
    Space {
        queries: b"window 1000000 query a { packets | map ip.dst as d, 1 as n | reduce d: sum(n) width 8; } query b { packets | map ip.src as s, 1 as n | reduce s: sum(n) width 8; }",
        switch: b"stages 2; actions 1; bits 41; meta 100; chain 1; slots 1;",
        counts: &[
            (0, 1, 0, 0, 5),
            (0, 1, 0, 1, 5),
            (0, 1, 0, 2, 1),
            (1, 1, 0, 0, 5),
            (1, 1, 0, 1, 5),
            (1, 1, 0, 2, 3),
        ],
    }
}

#[test]
fn shows_what_two_queries_share(rt: HostRuntime) {
    for (text, want) in [
        // Each alone: 1 + 3.
        (b"cost 0; prices 1; least 0; done".as_slice(), 4),
        // a has least of 5 and 1 + 2, b of 5 and 3 + 2, and the register is worth 2: 3 + 5 - 2.
        (
            b"cost 0; prices 1; limit stages 1, 1 bits 0 plus 1 divisor 1 price 2; least 0; done",
            6,
        ),
        // By bits, of which the stage has 41: the same.
        (
            b"cost 0; prices 1; limit stages 1, 1 divisor 41 price 2; least 0; done",
            6,
        ),
        // 5 + 5 - 5.
        (
            b"cost 0; prices 1; limit stages 1, 1 divisor 41 price 5; least 0; done",
            5,
        ),
        // In halves: of 10 and 2 + 3, of 10 and 6 + 3, less 3: 5 + 9 - 3 halves, which are 5.5.
        (
            b"cost 0; prices 2; limit stages 1, 1 divisor 41 price 3; least 0; done",
            6,
        ),
        // Twice the same limit: 2 and 1 make 3, 4 + 5 - 3.
        (
            b"cost 0; prices 1; limit stages 1, 1 divisor 41 price 2; limit stages 0, 1 divisor 42 price 9; limit stages 1, 31 divisor 21 price 1; least 0; done",
            6,
        ),
        // A price of 0, and limits of stages that the switch doesn't have.
        (
            b"cost 0; prices 1; limit stages 1, 1 divisor 1 price 0; limit stages 2, 31 divisor 1 price 9; least 0; done",
            4,
        ),
        // Worth more than the queries have.
        (
            b"cost 0; prices 1; limit stages 1, 1 divisor 1 price 4294967295; least 0; done",
            0,
        ),
        (
            b"cost 0; prices 4294967295; limit stages 0, 31 bits 4294967295 plus 4294967295 divisor 1 price 4294967295; least 0; done",
            0,
        ),
    ] {
        assert_eq!(rt; shown(&rt, &two(), text), Some(want));
    }
}

/// A query of two levels and two branches on a switch of three stages, with a register in each: the levels of a path that isn't the first place
/// theirs in stage 2 alone, since a membership table stands before.
///
/// Along 32 alone the branches cost 4 and 4, with their registers 2 and 1; along 8 and 32 at 8 3 and 3, 1 and 1, and at 32 2 and 2, 0 and 0.
/// The registers have 49 and 65 bits.
pub(crate) fn joined() -> Space<'static> {
    Space {
        queries: b"window 1000000 query q { refine ip.dst: 8, 32; packets | map ip.dst as d, 1 as n | reduce d: sum(n) width 16; packets | map ip.dst as d, ip.len as m | reduce d: sum(m) width 32; join d; }",
        switch: b"stages 3; actions 1; bits 65; meta 1000; chain 1; slots 1;",
        counts: &[
            (0, 2, 0, 0, 4),
            (0, 2, 0, 1, 4),
            (0, 2, 0, 2, 2),
            (0, 2, 1, 0, 4),
            (0, 2, 1, 1, 4),
            (0, 2, 1, 2, 1),
            (0, 1, 0, 0, 3),
            (0, 1, 0, 1, 3),
            (0, 1, 0, 2, 1),
            (0, 1, 1, 0, 3),
            (0, 1, 1, 1, 3),
            (0, 1, 1, 2, 1),
            (0, 3, 0, 0, 2),
            (0, 3, 0, 1, 2),
            (0, 3, 1, 0, 2),
            (0, 3, 1, 1, 2),
        ],
    }
}

#[test]
fn shows_the_cheapest_path(rt: HostRuntime) {
    for (text, want) in [
        // 2 + 1 along 32 alone, 1 + 1 + 0 + 0 along both.
        (b"cost 0; prices 1; least 0; done".as_slice(), 2),
        // A register pays 1: 3 + 2 along 32, 2 + 2 + 1 + 1 along both, and two stages are worth 2.
        (
            b"cost 0; prices 1; limit stages 1, 2 bits 0 plus 1 divisor 1 price 1; least 0; done",
            3,
        ),
        // It pays 1 in stage 1 and 3 in stage 2: 3 + 2, or 2 + 2 + 2 + 2, less 1 and 3.
        (
            b"cost 0; prices 1; limit stages 1, 1 bits 0 plus 1 divisor 1 price 1; limit stages 2, 2 bits 0 plus 1 divisor 1 price 3; least 0; done",
            1,
        ),
        // By bits over 50 the register of 49 bits weighs nothing and that of 65 one: 2 + 3, or 1 + 3 + 0 + 2, less 2 in two stages.
        (
            b"cost 0; prices 1; limit stages 1, 2 divisor 50 price 2; least 0; done",
            1,
        ),
        // (2 * 49 + 10) / 100 and (2 * 65 + 10) / 100 are 1, and so is the stage's: 4 + 4, or 3 + 3 + 2 + 2, less 3 in two stages.
        (
            b"cost 0; prices 1; limit stages 1, 2 bits 2 plus 10 divisor 100 price 3; least 0; done",
            2,
        ),
    ] {
        assert_eq!(rt; shown(&rt, &joined(), text), Some(want));
    }
}

/// A distinct in chains of two on a switch of four stages: its registers have 65 bits, or 260 where they have four slots, which no stage has.
///
/// It costs 90, with registers of one slot 20, and with larger ones it would cost nothing. A row in the switch takes 64 bits of metadata.
pub(crate) fn chained() -> Space<'static> {
    Space {
        queries: b"window 1000000 query q { packets | map ip.dst as d, ip.src as s | distinct; }",
        switch: b"stages 4; actions 1; bits 200; meta 100; chain 2; slots 1, 4;",
        counts: &[(0, 1, 0, 0, 90), (0, 1, 0, 1, 90), (0, 1, 0, 2, 20)],
    }
}

#[test]
fn shows_chains_and_metadata(rt: HostRuntime) {
    for (text, want) in [
        // The larger registers don't count.
        (b"cost 0; prices 1; least 0; done".as_slice(), 20),
        // 64 / 60 and 100 / 60 are 1: of 90, 90 + 5 and 20 + 5, less 5.
        (
            b"cost 0; prices 1; limit meta divisor 60 price 5; least 0; done",
            20,
        ),
        // 64 / 10 is 6, 100 / 10 is 10: of 90, 90 + 12 and 20 + 12, less 20.
        (
            b"cost 0; prices 1; limit meta divisor 10 price 2; least 0; done",
            12,
        ),
        // 90 is less than 20 + 80: less 80.
        (
            b"cost 0; prices 1; limit meta divisor 60 price 80; least 0; done",
            10,
        ),
        // Registers pay 4 in stage 1 and 1 in stages 2 and 3: 20 + 1 + 1, less 4, 1 and 1.
        (
            b"cost 0; prices 1; limit stages 1, 1 bits 0 plus 1 divisor 1 price 4; limit stages 2, 3 bits 0 plus 1 divisor 1 price 1; least 0; done",
            16,
        ),
        // They pay 1 in stages 1 and 2 and 10 in stage 3: 20 + 1 + 1, less 1, 1 and 10.
        (
            b"cost 0; prices 1; limit stages 1, 2 bits 0 plus 1 divisor 1 price 1; limit stages 3, 3 bits 0 plus 1 divisor 1 price 10; least 0; done",
            10,
        ),
        // All four stages are worth 3 each, since 200 / 65 is 3, and a register pays 1 in each: 20 + 2 - 12.
        (
            b"cost 0; prices 1; limit stages 0, 3 divisor 65 price 1; least 0; done",
            10,
        ),
    ] {
        assert_eq!(rt; shown(&rt, &chained(), text), Some(want));
    }
}
