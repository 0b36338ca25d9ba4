//! The cost of a plan.
ghost use Rattle.std.specs.Prelude.{◌≡◌, ◌≤◌, ◌<◌, ◌+◌, ◌^◌, length};
ghost use Rattle.std.specs.List.{AllByRecursion};
ghost use Rattle.sn_switch.specs.Texts.{IsSwitch};
ghost use Rattle.sn_plan_fit.specs.Fits.{Fits};
ghost use Rattle.sn_plan_choices.specs.Costs.{entry_in, HasPlaces};
ghost use Rattle.sn_plan_lists.specs.Bounds.{HasBounds};
ghost use Rattle.sn_plan_lists.specs.Chosen.{plan_choices};
ghost use Rattle.sn_plan_lists.specs.Costs.{piece_cost, entry_cost, plan_cost};
ghost use Rattle.sn_plan_lists.specs.Theorems.{plans_of};

use crate::choosing::branch_of;
use crate::numbers::{front_of, option_number};
use sn_plan_choices::costs::CostTable;
use sn_plan_grammar::plan::{Entry, Piece, Plan};
use sn_switch::switch::Switch;
use sn_types::typed::Typed;
use sn_types::typed_query::TypedQuery;

/// The entry of a piece of query n on a path: of the front of the path up to its level, its branch and its option.
fn piece_cost(
    s: &Switch,
    c: &CostTable,
    n: u32,
    query: &TypedQuery,
    path: &[u32],
    piece: &Piece,
) -> u64
    requires switch { IsSwitch s.now }
    requires bounds { HasBounds query.now }
    requires known { piece.now.branch < length query.now.branches }
    requires places { HasPlaces c.now (n + 1) }
    ensures value { result ≡ piece_cost s.now (entry_in c.now) n query.now path.now piece.now }
    ensures small { result ≤ 2 ^ 56 }
{
    let option = option_number(s, branch_of(query, piece), piece);
    let front = front_of(query.levels.as_slice(), path, piece.level);
    c.entry(n, front, piece.branch, option)
}

/// The cost of an entry: the sum over its pieces.
fn entry_cost(s: &Switch, c: &CostTable, n: u32, query: &TypedQuery, entry: &Entry) -> u64
    requires switch { IsSwitch s.now }
    requires bounds { HasBounds query.now }
    requires known { AllByRecursion (λ p. p.branch < length query.now.branches) entry.now.pieces }
    requires few { length entry.now.pieces ≤ 8 }
    requires places { HasPlaces c.now (n + 1) }
    ensures value { result ≡ entry_cost s.now (entry_in c.now) n query.now entry.now }
    ensures small { result ≤ 2 ^ 59 }
{
    let path = entry.levels.as_slice();
    let mut cost = 0;
    for piece in entry.pieces.as_slice() {
        cost += piece_cost(s, c, n, query, path, piece);
    }
    cost
}

/// The cost of a plan that fits, query by query.
fn cost_along(t: &Typed, s: &Switch, c: &CostTable, plan: &Plan) -> u64
    requires switch { IsSwitch s.now }
    requires fits { Fits t.now.queries s.now plan.now.entries }
    requires places { HasPlaces c.now (length t.now.queries) }
    ensures { result ≡ plan_cost s.now (entry_in c.now) 0 t.now.queries plan.now.entries }
{
    let mut cost = 0;
    let mut number = 0;
    let mut rest = plan.entries.as_slice();
    for query in t.queries.as_slice() {
        let Some((entry, after)) = rest.split_first() else {
            return cost;
        };
        cost += entry_cost(s, c, number, query, entry);
        rest = after;
        number += 1;
    }
    cost
}

/// The cost of a plan that fits: the sum of the entries of its pieces. The table is one of these queries, and the switch is one that a text can stand
/// for. It takes no memory.
pub fn cost_of(t: &Typed, s: &Switch, c: &CostTable, plan: &Plan) -> u64
    requires switch { IsSwitch s.now }
    requires fits { Fits t.now.queries s.now plan.now.entries }
    requires places { HasPlaces c.now (length t.now.queries) }
    ensures cost { result ≡ plan_cost s.now (entry_in c.now) 0 t.now.queries plan.now.entries }
    // It is the bound of the plan's list of choices.
    ensures bound { (plans_of s.now (entry_in c.now) t.now.queries).lower (plan_choices s.now t.now.queries plan.now.entries) ≡ result }
{
    cost_along(t, s, c, plan)
}
