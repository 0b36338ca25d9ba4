//! What prices show.
ghost use Rattle.std.specs.Prelude.{◌≡◌, ◌≤◌, ◌+◌, ◌-◌, ◌/◌, ◌^◌, ℕ, List, map, length, IfOk};
ghost use Rattle.std.specs.List.{sum_by};
ghost use Rattle.sn_switch.specs.Texts.{IsSwitch};
ghost use Rattle.sn_types.specs.declared.typed_query.TypedQuery.{TypedQuery};
ghost use Rattle.sn_plan_grammar.specs.declared.plan.Entry.{Entry};
ghost use Rattle.sn_plan_fit.specs.Fits.{Fits};
ghost use Rattle.sn_plan_lists.specs.Costs.{plan_cost};
ghost use Rattle.sn_plan_choices.specs.Costs.{entry_in, HasPlaces};
ghost use Rattle.sn_plan_choices.specs.Planning.{PieceTask, PathTask};
ghost use Rattle.sn_plan_choices.specs.Within.{least_below};
ghost use Rattle.sn_plan_space.specs.Known.{known_option, known_piece, known_query, numbered};
ghost use Rattle.sn_plan_space.specs.Totals.{HasLimits};
ghost use Rattle.sn_prices.specs.Least.{option_price, least_piece, least_query, least_queries, shown_least};
ghost use Rattle.sn_prices.specs.Limits.{worth};
ghost use Rattle.sn_prices_bound.specs.Few.{HasFewPieces, HaveFewPieces};

use crate::pays::metadata_price;
use crate::walk::stages_price;
use crate::worth::worth;
use sn_base::memory::Memory;
use sn_plan_choices::costs::CostTable;
use sn_plan_lists::law::typed_queries_and_switches_rise;
use sn_plan_space::known::{KnownOption, KnownPiece, KnownQuery};
use sn_plan_space::queries::queries_of;
use sn_prices::laws::prices_bound_costs;
use sn_prices_grammar::prices::Prices;
use sn_switch::switch::Switch;
use sn_types::typed::Typed;

/// The least of the first n + 1 numbers, from that of the first n and the next.
fn lesser(n: usize, least: u128, next: u128) -> u128
    ensures value { (f : ℕ → ℕ) → least ≡ least_below f n → next ≡ f n → result ≡ least_below f (n + 1) }
    ensures most { (high : ℕ) → least ≤ high → next ≤ high → result ≤ high }
{
    if n == 0 { next } else { next.min(least) }
}

/// What a piece has with an option, of cost and prices together.
fn option_price(s: &Switch, p: &Prices, option: &KnownOption) -> u128
    requires switch { HasLimits s.now }
    requires few { length p.now.limits ≤ 64 }
    ensures value { (entry : ℕ → ℕ → ℕ → ℕ → ℕ) (t : PieceTask) (x : ℕ) → option.now ≡ known_option s.now entry t x →
        result ≡ option_price s.now entry p.now t x }
    ensures most { result ≤ 2 ^ 109 }
{
    u128::from(p.scale) * u128::from(option.cost)
        + metadata_price(p, option.metadata)
        + stages_price(s, p, option.slots.as_slice())
}

/// What a piece has at least.
fn piece_price(s: &Switch, p: &Prices, piece: &KnownPiece) -> u128
    requires switch { HasLimits s.now }
    requires few { length p.now.limits ≤ 64 }
    ensures value { (entry : ℕ → ℕ → ℕ → ℕ → ℕ) (t : PieceTask) → piece.now ≡ known_piece s.now entry t → result ≡ least_piece s.now entry p.now t }
    ensures most { result ≤ 2 ^ 109 }
{
    let mut least = 0;
    let options = piece.options.as_slice();
    for (n, option) in options.iter().enumerate() {
        least = lesser(n, least, option_price(s, p, option));
    }
    least
}

/// What the pieces of a path have together.
fn path_price(s: &Switch, p: &Prices, pieces: &[KnownPiece]) -> u128
    requires switch { HasLimits s.now }
    requires few { length p.now.limits ≤ 64 }
    requires pieces { length pieces.now ≤ 8 }
    ensures value { (entry : ℕ → ℕ → ℕ → ℕ → ℕ) (ts : List PieceTask) → pieces.now ≡ map (known_piece s.now entry) ts →
        result ≡ sum_by (least_piece s.now entry p.now) ts }
    ensures most { result ≤ 2 ^ 112 }
{
    let mut total = 0;
    for piece in pieces {
        total += piece_price(s, p, piece);
    }
    total
}

/// What a query has at least.
fn query_price(s: &Switch, p: &Prices, query: &KnownQuery) -> u128
    requires switch { HasLimits s.now }
    requires few { length p.now.limits ≤ 64 }
    requires pieces { HasFewPieces query.now }
    ensures value { (entry : ℕ → ℕ → ℕ → ℕ → ℕ) (t : PathTask) → query.now ≡ known_query s.now entry t → result ≡ least_query s.now entry p.now t }
    ensures most { result ≤ 2 ^ 112 }
{
    let mut least = 0;
    let paths = query.paths.as_slice();
    for (m, path) in paths.iter().enumerate() {
        least = lesser(m, least, path_price(s, p, path.as_slice()));
    }
    least
}

/// What all queries have at least.
fn queries_price(s: &Switch, p: &Prices, queries: &[KnownQuery]) -> u128
    requires switch { HasLimits s.now }
    requires few { length p.now.limits ≤ 64 }
    requires pieces { HaveFewPieces queries.now }
    requires queries { length queries.now ≤ 8 }
    ensures value { (entry : ℕ → ℕ → ℕ → ℕ → ℕ) (all : List TypedQuery) → queries.now ≡ map (known_query s.now entry) (numbered 0 all) →
        result ≡ least_queries s.now entry p.now 0 all }
    ensures most { result ≤ 2 ^ 115 }
{
    let mut total = 0;
    for query in queries {
        total += query_price(s, p, query);
    }
    total
}

/// Parts of an item as items, rounded up: 0 where an item has no parts.
fn rounded_up(parts: u128, scale: u32) -> u128
    requires { parts ≤ 2 ^ 115 }
    ensures { result ≡ (parts + (scale - 1)) / scale }
{
    if scale == 0 {
        0
    } else {
        (parts + u128::from(scale - 1)) / u128::from(scale)
    }
}

/// What prices show of the queries on a switch: no plan that fits costs less by the table. The table has places for the queries; its
/// entries are taken as they are. There are at most 64 limits, as in a text.
///
/// It is 0 where the limits are worth more than the queries have. Each number on the way is below 2^116.
///
/// # Errors
/// Out of memory.
pub fn bound(t: &Typed, s: &Switch, c: &CostTable, p: &Prices) -> Result<u128, Memory>
    requires switch { IsSwitch s.now }
    requires places { HasPlaces c.now (length t.now.queries) }
    requires few { length p.now.limits ≤ 64 }
    ensures value { IfOk result (λ least. least ≡ shown_least s.now (entry_in c.now) p.now t.now.queries) }
    // No plan that fits costs less, whatever the prices are.
    ensures none_cheaper { IfOk result (λ least. (entries : List Entry) → Fits t.now.queries s.now entries →
        least ≤ plan_cost s.now (entry_in c.now) 0 t.now.queries entries) }
{
    typed_queries_and_switches_rise();
    prices_bound_costs();
    let known = queries_of(t.alloc, s, c, t.queries.as_slice())?;
    let have = queries_price(s, p, known.as_slice());
    Ok(rounded_up(have.saturating_sub(worth(s, p)), p.scale))
}
