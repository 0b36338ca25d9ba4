//! What a cell says of a key.
ghost use Rattle.std.specs.Prelude.{◌≡◌, ◌<◌, ◌+◌, ◌*◌, ◌^◌, ◌∷◌, []};
ghost use Rattle.sn_chain.specs.Codes.{code_of};

use sn_base::any_row::AnyRow;
use sn_base::columns::Columns;
use sn_base::number::Number;

/// The kind of a key that is held whole.
pub(crate) const WHOLE: u8 = 9;

/// Numbers of 64 bits are below it.
const WORD: u128 = 1 << 64;

/// Numbers of 32 bits are below it.
const HALF: u128 = 1 << 32;

/// What a cell says of a key. Most keys fit two words, and are compared as these.
#[derive(Clone, Copy)]
pub(crate) struct Code {
    /// How many columns the key has, or `WHOLE` where they don't fit two words.
    pub kind: u8,
    /// A column alone has both words, the lower half first. Of two columns each has one. Of three the first has one, and the others
    /// have the halves of the second. Both are 0 where the key is held whole.
    pub first: u64,
    pub second: u64,
}

/// What a cell says of a key that is held whole.
#[inline(always)]
fn whole() -> Code
    ensures { result ≡ code_of [] }
{
    Code {
        kind: WHOLE,
        first: 0,
        second: 0,
    }
}

#[inline(always)]
fn of_one(a: u128) -> Code
    ensures code { result ≡ code_of (a ∷ []) }
    ensures number { result.first + result.second * 2 ^ 64 ≡ a }
{
    Code {
        kind: 1,
        first: (a % WORD) as u64,
        second: (a / WORD) as u64,
    }
}

#[inline(always)]
fn of_two(a: u128, b: u128) -> Code
    ensures { result ≡ code_of (a ∷ b ∷ []) }
{
    if a >= WORD || b >= WORD {
        return whole();
    }
    Code {
        kind: 2,
        first: a as u64,
        second: b as u64,
    }
}

#[inline(always)]
fn of_three(a: u128, b: u128, c: u128) -> Code
    ensures { result ≡ code_of (a ∷ b ∷ c ∷ []) }
{
    if a >= WORD || b >= HALF || c >= HALF {
        return whole();
    }
    Code {
        kind: 3,
        first: a as u64,
        second: (b + c * HALF) as u64,
    }
}

/// What a cell says of a key.
#[inline(always)]
pub(crate) fn code_of<R: AnyRow>(key: &R) -> Code
    ensures code { result ≡ code_of (R.columns key.now) }
    ensures single { result.kind ≡ 1 → result.first + result.second * 2 ^ 64 < R.Number.limit }
{
    match key.len() {
        1 => of_one(key.column(0).whole()),
        2 => of_two(key.column(0).whole(), key.column(1).whole()),
        3 => of_three(
            key.column(0).whole(),
            key.column(1).whole(),
            key.column(2).whole(),
        ),
        _ => whole(),
    }
}
