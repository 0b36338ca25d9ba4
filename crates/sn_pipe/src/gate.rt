//! Which tuples a pipe admits.
ghost use Rattle.std.specs.Prelude.{◌≡◌, ◌<◌, length};
ghost use Rattle.sn_engine_split.specs.Opened.{is_open, admits};
ghost use Rattle.sn_pipe.specs.Pipes.{IsCoarser, asking, passing};
ghost use Rattle.sn_types.specs.Typed.{query_at};

use sn_base::members::Members;
use sn_fields::tuple::Tuple;
use sn_ops::packets::{Kept, is_kept};
use sn_types::typed::Typed;

/// The table of prefixes of the level before a pipe.
#[derive(Clone, Copy)]
pub struct Gate {
    /// The bits of that level, one of the query's.
    pub bits: u32,
    /// How many prefixes the table holds at most: in a window with more of them it stays open, and every tuple passes. `None` is no
    /// limit.
    pub entries: Option<u32>,
}

/// Whether a table with this limit stays open, which can't hold these prefixes.
fn is_open(entries: Option<u32>, members: &Members) -> bool
    ensures { result ≡ is_open entries members.now }
{
    match entries {
        Some(entries) => members.len() > entries as u64,
        None => false,
    }
}

/// The bits of the prefix that a tuple is asked for. `None` where no level stands before the pipe, or its table stays open.
pub(crate) fn asks(coarser: Option<Gate>, members: &Members) -> Option<u32>
    ensures { asking result members.now ≡ passing coarser members.now }
{
    match coarser {
        Some(gate) if is_open(gate.entries, members) => None,
        Some(gate) => Some(gate.bits),
        None => None,
    }
}

/// Whether a tuple passes: where it is asked for a prefix of these bits, this is one of these prefixes.
#[inline(always)]
pub(crate) fn admits(t: &Typed, q: u32, asks: Option<u32>, members: &Members, tuple: &Tuple) -> bool
    requires query { q < length t.now.queries }
    requires asks { IsCoarser (query_at t.now.queries q) asks }
    ensures { result ≡ admits (query_at t.now.queries q).field (asking asks members.now) tuple.now }
{
    match asks {
        Some(bits) => is_kept(t, q, Some(Kept { members, bits }), tuple),
        None => true,
    }
}
