//! Which places hold a key, a bit for each.
ghost use Rattle.std.specs.Prelude.{◌≡◌, ◌≢◌, ◌<◌, ◌*◌, ◌/◌, ◌^◌, ℕ, IfOk, IfSome, length, nat_eq, replicate};
ghost use Rattle.std.specs.Int.{div_ceil};
ghost use Rattle.sn_chain.specs.Marks.{IsNext, mark_at};

use sn_base::memory::Memory;
use std::alloc::Global;

/// The words of this many places, none of which is marked.
pub(crate) fn unmarked(alloc: Global, places: usize) -> Result<Vec<u64>, Memory>
    ensures { IfOk result (λ words. words.items ≡ replicate (div_ceil places 64) 0) }
{
    Ok(vec![in alloc; 0; places.div_ceil(64)]?)
}

/// Marks a place.
pub(crate) fn mark(words: &mut [u64], place: usize)
    requires { place / 64 < length words.old }
    ensures long { length words.new ≡ length words.old }
    ensures marked { mark_at words.new place ≡ 1 }
    ensures others { (p : ℕ) → p ≢ place → mark_at words.new p ≡ mark_at words.old p }
{
    words[place / 64] |= 1 << (place % 64);
}

/// Whether a place is marked.
pub(crate) fn is_marked(words: &[u64], place: usize) -> bool
    requires { place / 64 < length words.now }
    ensures { result ≡ nat_eq (mark_at words.now place) 1 }
{
    (words[place / 64] >> (place % 64)) % 2 == 1
}

/// Takes every mark away.
pub(crate) fn unmark_all(words: &mut [u64])
    ensures { words.new ≡ replicate (length words.old) 0 }
{
    words.fill(0);
}

/// The first place from this one on that is marked.
pub(crate) fn next_marked(words: &[u64], from: usize) -> Option<usize>
    requires { length words.now * 64 < 2 ^ 32 }
    ensures next { IsNext words.now from result }
    ensures within { IfSome result (λ place. place < length words.now * 64) }
{
    let mut bit = from % 64;
    for at in from / 64..words.len() {
        let marks = words[at] >> bit;
        if marks != 0 {
            return Some(at * 64 + bit + marks.trailing_zeros() as usize);
        }
        bit = 0;
    }
    None
}
