//! The cells of a chain, as they lie in memory.
ghost use Rattle.std.specs.Prelude.{◌≡◌, ◌<◌, ◌+◌, ◌*◌, ◌^◌, [], length, replicate, slice_set, slice_index_or, IfOk};
ghost use Rattle.sn_base.specs.Groups.{same_row};
ghost use Rattle.sn_chain.specs.Cells.{with_value};
ghost use Rattle.sn_chain.specs.Codes.{key_in};
ghost use Rattle.sn_chain.specs.Stored.{bare_head, code_in};

use crate::code::{WHOLE, code_of};
use crate::head::Head;
use sn_base::any_row::AnyRow;
use sn_base::memory::Memory;
use sn_base::number::Number;
use sn_base::row_seq::RowSeq;
use std::alloc::Global;
use std::marker::Model;

/// The cells of a chain, each with the key that took it last and the fold of its values. Which cells are in use, the chain's marks say.
/// A search looks at a few cells that lie far apart, and most of its time goes by in waiting for them, so what it looks at is small: 25
/// bytes a cell, of which the nearer caches hold more. Keys that don't fit two words lie elsewhere, and are touched only where there
/// are some.
#[derive(Drop)]
pub(crate) struct Cells<R: AnyRow> {
    heads: Vec<Head>,
    /// The kind of each key.
    kinds: Vec<u8>,
    wholes: Vec<R>,
}

impl<R: AnyRow> Model for Cells<R> {
    ghost use Rattle.std.specs.Prelude.{List, ℕ, map};
    ghost use Rattle.sn_base.specs.Groups.{Row};

    ghost Value = { List (Row × ℕ) };

    ghost use Rattle.sn_chain.specs.Stored.{cells_of, AreStored};

    ghost view = { λ a. cells_of a.heads.items a.kinds.items (map R.columns a.wholes.items) };

    ghost invariant = { λ a. AreStored R.Number.limit a.heads.items a.kinds.items (map R.columns a.wholes.items) };
}

impl<R: AnyRow> Cells<R> {
    /// This many cells, each with the key of no column and this value. All memory that they ever need is taken here.
    pub fn make(alloc: Global, count: usize, value: u64) -> Result<Cells<R>, Memory>
        ensures { IfOk result (λ cells. cells ≡ replicate count ([], value)) }
    {
        let heads = bare_heads(alloc, count, value)?;
        let kinds = bare_kinds(alloc, count)?;
        let wholes = bare_wholes(alloc, count)?.into_vec();
        Ok(Cells {
            heads,
            kinds,
            wholes,
        })
    }

    /// Whether a cell has a key.
    #[inline(always)]
    pub fn has(&self, at: usize, key: &R) -> bool
        requires { at < length self.now }
        ensures { result ≡ same_row (R.columns key.now) (slice_index_or self.now at ([], 0)).0 }
    {
        let code = code_of(key);
        if self.kinds[at] != code.kind {
            return false;
        }
        if code.kind == WHOLE {
            return self.wholes[at] == *key;
        }
        let head = &self.heads[at];
        head.first == code.first && head.second == code.second
    }

    /// The key and the value of a cell.
    pub fn at(&self, at: usize) -> (R, u64)
        requires { at < length self.now }
        ensures { (R.columns result.0, result.1) ≡ slice_index_or self.now at ([], 0) }
    {
        let head = &self.heads[at];
        let key = key_of(self.kinds[at], head, &self.wholes[at]);
        (key, head.value)
    }

    /// A key takes a cell, with a value.
    #[inline(always)]
    pub fn take(&mut self, at: usize, key: &R, value: u64)
        requires { at < length self.old }
        ensures { self.new ≡ slice_set self.old at (R.columns key.now, value) }
    {
        let code = code_of(key);
        self.heads[at] = Head {
            first: code.first,
            second: code.second,
            value,
        };
        self.kinds[at] = code.kind;
        if code.kind == WHOLE {
            self.wholes[at] = *key;
        }
    }

    /// The value of a cell.
    pub fn value(&self, at: usize) -> u64
        requires { at < length self.now }
        ensures { result ≡ (slice_index_or self.now at ([], 0)).1 }
    {
        self.heads[at].value
    }

    /// Sets the value of a cell.
    pub fn set_value(&mut self, at: usize, value: u64)
        requires { at < length self.old }
        ensures { self.new ≡ slice_set self.old at (with_value value (slice_index_or self.old at ([], 0))) }
    {
        self.heads[at].value = value;
    }
}

/// The key that a cell has, by its kind and its head, and by the key that it holds whole.
fn key_of<R: AnyRow>(kind: u8, head: &Head, whole: &R) -> R
    requires { kind ≡ 1 → head.now.first + head.now.second * 2 ^ 64 < R.Number.limit }
    ensures { R.columns result ≡ key_in (code_in kind head.now) (R.columns whole.now) }
{
    const HALF: u64 = 1 << 32;
    let mut key = R::empty();
    match kind {
        1 => {
            let number = u128::from(head.second) * (1 << 64) + u128::from(head.first);
            key.push(R::Number::of_whole(number));
        }
        2 => {
            key.push(R::Number::of_word(head.first));
            key.push(R::Number::of_word(head.second));
        }
        3 => {
            key.push(R::Number::of_word(head.first));
            key.push(R::Number::of_word(head.second % HALF));
            key.push(R::Number::of_word(head.second / HALF));
        }
        _ => return *whole,
    }
    key
}

/// The heads of this many cells with the key of no column.
fn bare_heads(alloc: Global, count: usize, value: u64) -> Result<Vec<Head>, Memory>
    ensures { IfOk result (λ heads. heads.items ≡ replicate count (bare_head value)) }
{
    let bare = Head {
        first: 0,
        second: 0,
        value,
    };
    let mut heads = Vec::with_capacity(alloc, count)?;
    for _place in 0..count {
        heads.push(bare)?;
    }
    Ok(heads)
}

/// Their kinds.
fn bare_kinds(alloc: Global, count: usize) -> Result<Vec<u8>, Memory>
    ensures { IfOk result (λ kinds. kinds.items ≡ replicate count 9) }
{
    Ok(vec![in alloc; WHOLE; count]?)
}

/// Room for a whole key in each of them.
fn bare_wholes<R: AnyRow>(alloc: Global, count: usize) -> Result<RowSeq<R>, Memory>
    ensures { IfOk result (λ wholes. wholes ≡ replicate count []) }
{
    let none = R::empty();
    let mut wholes = RowSeq::with_room(alloc, count)?;
    for _place in 0..count {
        wholes.push(&none)?;
    }
    Ok(wholes)
}
